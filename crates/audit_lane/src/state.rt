//! The state of a lane after each of its events.

ghost use Rattle.std.specs.Prelude.{◌≡◌, ◌++◌, ℕ, IfErr, IfOk, List, MatchResult, None, OnOk, Some, nat_eq, min, true};
ghost use Rattle.std.specs.BTreeMap.{get};
ghost use Rattle.std.specs.Ordering.{nat_cmp};
ghost use Rattle.audit_model.specs.declared.sighting.SightId.{SightId as SightName};
ghost use Rattle.audit_model.specs.Sames.{same_sight};
ghost use Rattle.audit_rules.specs.declared.credentials.CredRow.{CredRow as Row};
ghost use Rattle.audit_rules.specs.Effect.{standing};
ghost use Rattle.audit_server.specs.State.{put};
ghost use Rattle.audit_sights.specs.Found.{found};
ghost use Rattle.audit_lane.specs.After.{after, new_arrival};
ghost use Rattle.audit_lane.specs.Content.{Acted, Came, Went, happening};
ghost use Rattle.audit_lane.specs.Faults.{IsRight, act_fault, out_fault};
ghost use Rattle.audit_lane.specs.Kept.{Terms, at_first};
ghost use Rattle.audit_lane.specs.Seen.{IsShown, SameKept, kept_of, terms_by};
ghost use Rattle.audit_lane.specs.Walk.{AreOwed, EndsWith, Shows, tenancies_of};

use crate::fault::{LaneFault, breach, broken};
use crate::input::LaneEvent;
use crate::judging::{is_past, judge_act};
use crate::noted::{
    Arrival, Departure, Owed, add_ended, forget_owed, note_arrival, note_departure, note_owed,
};
use audit_model::{Addr, At, Breach, Key, Listed, Policy, Rule, SightId, Sighting, Tenancy};
use audit_rules::{ActFault, CredRow, LaneTable};
use audit_sights::SightMap;
use std::alloc::{AllocError, Global};
use std::collections::BTreeMap;

/// The state after the events so far: the client's table, the arrivals, and the departures that
/// were sent. After a refused step it isn't used again.
#[derive(Drop)]
pub struct LaneState {
    table: LaneTable,
    arrivals: SightMap<Arrival>,
    departures: SightMap<Departure>,
    /// By the place of the act.
    owed: BTreeMap<u32, Owed>,
    tenancies: Listed<Tenancy>,
    alloc: Global,
}

impl LaneState {
    /// The lane before its first event. Allocates no memory.
    pub fn new(alloc: Global, number: u32, client: Addr, listen: Addr) -> LaneState
        ensures { SameKept (kept_of result) (at_first (record { client = client; listen = listen; lane = number; allocation = None; tenancy = None })) }
    {
        LaneState {
            table: LaneTable::new(number, client, listen),
            arrivals: SightMap::new(alloc),
            departures: SightMap::new(alloc),
            owed: BTreeMap::new(alloc),
            tenancies: Listed::new(alloc),
            alloc,
        }
    }

    fn arrive(&mut self, sighting: &Sighting, user: Option<u32>, key: Key) -> Result<(), AllocError>
        ensures { OnOk result ((terms : Terms) (place : ℕ) → SameKept (kept_of self.new) (after terms place (kept_of self.old) (Came sighting.now user key))) }
    {
        if self.arrivals.get(sighting.id).is_none() {
            let arrival = Arrival {
                moment: key.moment,
                user,
                acted: false,
            };
            note_arrival(&mut self.arrivals, sighting.id, arrival)?;
        }
        Ok(())
    }

    /// The arrival, if the server may send the departure for it now.
    fn answerable(
        &self,
        hold: u64,
        moment: u64,
        arrives: SightId,
        leaves: SightId,
    ) -> Result<Arrival, Rule>
        ensures { MatchResult result
            (λ arrival. (act_fault hold (found self.now.arrivals arrives) (found self.now.departures leaves) moment ≡ None)
            × (found self.now.arrivals arrives ≡ Some arrival))
            (λ rule. act_fault hold (found self.now.arrivals arrives) (found self.now.departures leaves) moment ≡ Some rule) }
    {
        let Some(arrival) = self.arrivals.get(arrives) else {
            return Err(Rule::ActBeforeArrival);
        };
        if arrival.acted || self.departures.get(leaves).is_some() {
            return Err(Rule::ActedTwice);
        }
        if is_past(hold, arrival.moment, moment) {
            return Err(Rule::HeldTooLong);
        }
        Ok(arrival)
    }

    /// Notes that the arrival is acted on, and the departure that is owed for it.
    fn note_act(
        &mut self,
        at: At,
        arrives: SightId,
        leaves: SightId,
        arrival: Arrival,
    ) -> Result<(), AllocError>
        ensures table { standing self.new.table ≡ standing self.old.table }
        ensures ended { self.new.tenancies ≡ self.old.tenancies }
        ensures came { OnOk result ((q : SightName) → found self.new.arrivals q
            ≡ put same_sight (found self.old.arrivals) arrives (Some (record { moment = arrival.moment; user = arrival.user; acted = true })) q) }
        ensures gave { OnOk result ((q : SightName) → found self.new.departures q
            ≡ put same_sight (found self.old.departures) leaves (Some (record { arrived = arrival.moment; place = at.place })) q) }
        ensures owed { OnOk result ((q : ℕ) → get nat_cmp self.new.owed q
            ≡ put nat_eq (get nat_cmp self.old.owed) at.place (Some (record { at = at; sight = arrives })) q) }
    {
        let acted = Arrival {
            moment: arrival.moment,
            user: arrival.user,
            acted: true,
        };
        note_arrival(&mut self.arrivals, arrives, acted)?;
        let departure = Departure {
            arrived: arrival.moment,
            place: at.place,
        };
        note_departure(&mut self.departures, leaves, departure)?;
        note_owed(&mut self.owed, at.place, Owed { at, sight: arrives })?;
        Ok(())
    }

    fn answer(
        &mut self,
        users: &[CredRow<'_>],
        policy: &Policy,
        at: At,
        arrives: &Sighting,
        leaves: &Sighting,
    ) -> Result<(), LaneFault>
        ensures right { OnOk result (IsRight (terms_by at.lane policy.now users.now) (kept_of self.old) (Acted arrives.now leaves.now at.key)) }
        ensures after { OnOk result (SameKept (kept_of self.new) (after (terms_by at.lane policy.now users.now) at.place (kept_of self.old) (Acted arrives.now leaves.now at.key))) }
        ensures shows { IfErr result (λ fault. IsShown fault (Shows (terms_by at.lane policy.now users.now) at.place (kept_of self.old) (Acted arrives.now leaves.now at.key))) }
    {
        let arrival = match self.answerable(policy.hold, at.key.moment, arrives.id, leaves.id) {
            Ok(arrival) => arrival,
            Err(rule) => return Err(broken(at, arrives.id, rule)),
        };
        match judge_act(
            self.alloc,
            &mut self.table,
            users,
            arrival.user,
            policy,
            arrives,
            leaves,
            at,
        ) {
            Ok(ended) => add_ended(&mut self.tenancies, ended)?,
            Err(ActFault::Broken(rule)) => return Err(broken(at, arrives.id, rule)),
            Err(ActFault::Memory) => return Err(LaneFault::Memory),
        }
        self.note_act(at, arrives.id, leaves.id, arrival)?;
        Ok(())
    }

    /// The act that sent the departure, which may leave now.
    fn leavable(&self, hold: u64, moment: u64, leaves: SightId) -> Result<Departure, Rule>
        ensures { MatchResult result
            (λ sent. (out_fault hold (found self.now.departures leaves) moment ≡ None) × (found self.now.departures leaves ≡ Some sent))
            (λ rule. out_fault hold (found self.now.departures leaves) moment ≡ Some rule) }
    {
        let Some(sent) = self.departures.get(leaves) else {
            return Err(Rule::LeftWithoutAct);
        };
        if is_past(hold, sent.arrived, moment) {
            return Err(Rule::HeldTooLong);
        }
        Ok(sent)
    }

    fn leave(&mut self, policy: &Policy, at: At, sighting: &Sighting) -> Result<(), Breach>
        ensures right { OnOk result ((users : List Row) → IsRight (terms_by at.lane policy.now users) (kept_of self.old) (Went sighting.now at.key)) }
        ensures after { OnOk result ((users : List Row) → SameKept (kept_of self.new) (after (terms_by at.lane policy.now users) at.place (kept_of self.old) (Went sighting.now at.key))) }
        ensures shows { IfErr result (λ breach. (users : List Row) → Shows (terms_by at.lane policy.now users) at.place (kept_of self.old) (Went sighting.now at.key) breach) }
    {
        let sent = match self.leavable(policy.hold, at.key.moment, sighting.id) {
            Ok(sent) => sent,
            Err(rule) => return Err(breach(at, sighting.id, rule)),
        };
        forget_owed(&mut self.owed, sent.place);
        Ok(())
    }

    /// Applies the event at a place of the lane with that number, in turn from 0, or returns the
    /// breach. It takes log n time in the events so far, and reads the needed parts of an act's two
    /// payloads.
    pub fn step(
        &mut self,
        number: u32,
        users: &[CredRow<'_>],
        policy: &Policy,
        place: u32,
        event: LaneEvent<'_>,
    ) -> Result<(), LaneFault>
        ensures right { OnOk result (IsRight (terms_by number policy.now users.now) (kept_of self.old) (happening event.entry)) }
        ensures after { OnOk result (SameKept (kept_of self.new) (after (terms_by number policy.now users.now) place (kept_of self.old) (happening event.entry))) }
        ensures shows { IfErr result (λ fault. IsShown fault (Shows (terms_by number policy.now users.now) place (kept_of self.old) (happening event.entry))) }
    {
        match event {
            LaneEvent::In {
                sighting,
                user,
                key,
            } => Ok(self.arrive(sighting, user, key)?),
            LaneEvent::Act {
                arrives,
                leaves,
                key,
            } => {
                let at = At {
                    key,
                    lane: number,
                    place,
                };
                self.answer(users, policy, at, arrives, leaves)
            }
            LaneEvent::Out { sighting, key } => {
                let at = At {
                    key,
                    lane: number,
                    place,
                };
                match self.leave(policy, at, sighting) {
                    Ok(()) => Ok(()),
                    Err(breach) => Err(LaneFault::Broken(breach)),
                }
            }
        }
    }

    /// Checks that the lane may end here: the first act whose departure has not left is a breach.
    /// Allocates no memory.
    pub fn end(&self) -> Result<(), Breach>
        ensures { MatchResult result (λ _. EndsWith (kept_of self.now) None) (λ breach. EndsWith (kept_of self.now) (Some breach)) }
    {
        match self.owed.first_key_value() {
            None => Ok(()),
            Some((_, owed)) => Err(breach(owed.at, owed.sight, Rule::ActWithoutDeparture)),
        }
    }

    /// The server's state for the client after the events so far. Allocates no memory.
    pub fn table(&self) -> &LaneTable
        ensures { standing result.now ≡ (kept_of self.now).standing }
    {
        &self.table
    }

    /// The number of acts whose departure has not left, up to the greatest number of 32 bits.
    /// Allocates no memory.
    pub fn owed(&self) -> u32
        ensures { (count : ℕ) × AreOwed (kept_of self.now).owed count × (result ≡ min count 4294967295) }
    {
        u32::try_from(self.owed.len()).unwrap_or(u32::MAX)
    }

    /// The tenancies that acts of the lane ended, in order of birth. Allocates no memory.
    pub fn tenancies(&self) -> &[Tenancy]
        ensures { result.now ≡ (kept_of self.now).ended }
    {
        self.tenancies.as_slice()
    }

    /// The tenancies of the lane, in order of birth.
    pub fn all_tenancies(&self, alloc: Global) -> Result<Listed<Tenancy>, AllocError>
        ensures { IfOk result (λ all. all ≡ tenancies_of (kept_of self.now)) }
    {
        let mut all = Listed::from(Vec::from_slice(alloc, self.tenancies())?);
        add_ended(&mut all, self.running())?;
        Ok(all)
    }

    /// The current tenancy after the events so far. Allocates no memory.
    pub fn running(&self) -> Option<Tenancy>
        ensures { result ≡ (kept_of self.now).standing.tenancy }
    {
        self.table.running()
    }
}
