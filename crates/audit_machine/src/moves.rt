//! Applies moves by the ids of sightings, one after the other.

ghost use Rattle.std.specs.Prelude.{◌≡◌, ◌∷◌, [], Bool, false, OnOk, IfErr, take};
ghost use Rattle.audit_keys.specs.KeyFor.{key_for};
ghost use Rattle.audit_model.specs.declared.sighting.SightId.{SightId as SightName};
ghost use Rattle.audit_rules.specs.Keys.{KeyFor};
ghost use Rattle.audit_server.specs.Step.{In, Act, Out};
ghost use Rattle.audit_sightings.specs.Intake.{taken, sighting_at};
ghost use Rattle.audit_segments.specs.Segment.{IsSegment};
ghost use Rattle.audit_machine.specs.Machine.{cut_of, IsConsistent, IsFatal, IsUnmovedUnlessFatal, one_step};
ghost use Rattle.audit_machine.specs.Moves.{step_of, NamesIncluded, LeadsTo};

use crate::machine::Machine;
use crate::refusal::Refusal;
use audit_keys::Credentials;
use audit_model::{Pair, SightId};
use audit_rules::CredRow;
use audit_sightings::Intake;
use audit_sightings::laws::sightings_are_numbered;
use std::alloc::Global;

/// A move, with the ids of its sightings.
#[derive(Clone, Copy, Debug)]
pub enum Action {
    /// A datagram arrives.
    Arrive {
        sight: SightId,
        moment: u64,
    },
    /// The server acts on an arrival, for a client, and sends a departure.
    Act {
        pair: Pair,
        arrival: SightId,
        departure: SightId,
        moment: u64,
    },
    /// A departure leaves.
    Leave {
        sight: SightId,
        moment: u64,
    },
}

/// Which of several moves was refused, and why.
#[derive(Clone, Copy, Debug)]
pub struct Stop {
    /// The number of moves before it.
    pub place: usize,
    pub refusal: Refusal,
}

impl Machine {
    /// Applies an arrival, by its id.
    fn apply_arrival(&mut self, intake: &Intake, sight: SightId, moment: u64) -> Result<(), Refusal>
        requires consistent { IsConsistent self.old }
        ensures segment { OnOk result ((key_for : KeyFor) (excluded : SightName → Bool) → excluded sight ≡ false →
            IsSegment self.old.policy key_for (sighting_at (taken intake.now)) (cut_of self.old excluded) (one_step moment (In sight)) (cut_of self.new excluded)) }
        ensures consistent { OnOk result (IsConsistent self.new) }
        ensures refused { IfErr result (IsUnmovedUnlessFatal self.old self.new) }
        ensures policy { self.new.policy ≡ self.old.policy }
    {
        sightings_are_numbered(intake);
        let Some(sighting) = intake.sighting(sight) else {
            return Err(Refusal::Unknown);
        };
        self.arrive(sighting, moment)
    }

    /// Applies a departure, by its id.
    fn apply_departure(
        &mut self,
        intake: &Intake,
        sight: SightId,
        moment: u64,
    ) -> Result<(), Refusal>
        requires consistent { IsConsistent self.old }
        ensures segment { OnOk result ((key_for : KeyFor) (excluded : SightName → Bool) → excluded sight ≡ false →
            IsSegment self.old.policy key_for (sighting_at (taken intake.now)) (cut_of self.old excluded) (one_step moment (Out sight)) (cut_of self.new excluded)) }
        ensures consistent { OnOk result (IsConsistent self.new) }
        ensures refused { IfErr result (IsUnmovedUnlessFatal self.old self.new) }
        ensures policy { self.new.policy ≡ self.old.policy }
    {
        sightings_are_numbered(intake);
        let Some(sighting) = intake.sighting(sight) else {
            return Err(Refusal::Unknown);
        };
        self.leave(sighting, moment)
    }

    /// Applies an act, by the ids of the arrival and the departure.
    fn apply_act(
        &mut self,
        alloc: Global,
        intake: &Intake,
        credentials: &Credentials,
        pair: Pair,
        arrival: SightId,
        departure: SightId,
        moment: u64,
    ) -> Result<(), Refusal>
        requires consistent { IsConsistent self.old }
        ensures segment { OnOk result ((excluded : SightName → Bool) → excluded arrival ≡ false → excluded departure ≡ false →
            IsSegment self.old.policy (key_for credentials.now) (sighting_at (taken intake.now)) (cut_of self.old excluded) (one_step moment (Act pair arrival departure)) (cut_of self.new excluded)) }
        ensures consistent { OnOk result (IsConsistent self.new) }
        ensures refused { IfErr result (IsUnmovedUnlessFatal self.old self.new) }
        ensures policy { self.new.policy ≡ self.old.policy }
    {
        sightings_are_numbered(intake);
        let Some(arrives) = intake.sighting(arrival) else {
            return Err(Refusal::Unknown);
        };
        let Some(leaves) = intake.sighting(departure) else {
            return Err(Refusal::Unknown);
        };
        match CredRow::of_request(credentials, arrives.payload.as_slice()) {
            Some(row) => self.act(alloc, pair, &[row], arrives, leaves, moment),
            None => self.act(alloc, pair, &[], arrives, leaves, moment),
        }
    }

    /// Applies one move.
    fn apply(
        &mut self,
        alloc: Global,
        intake: &Intake,
        credentials: &Credentials,
        action: Action,
    ) -> Result<(), Refusal>
        requires consistent { IsConsistent self.old }
        ensures segment { OnOk result ((excluded : SightName → Bool) → NamesIncluded excluded action →
            IsSegment self.old.policy (key_for credentials.now) (sighting_at (taken intake.now)) (cut_of self.old excluded) (step_of action ∷ []) (cut_of self.new excluded)) }
        ensures consistent { OnOk result (IsConsistent self.new) }
        ensures refused { IfErr result (IsUnmovedUnlessFatal self.old self.new) }
        ensures policy { self.new.policy ≡ self.old.policy }
    {
        match action {
            Action::Arrive { sight, moment } => self.apply_arrival(intake, sight, moment),
            Action::Act {
                pair,
                arrival,
                departure,
                moment,
            } => self.apply_act(alloc, intake, credentials, pair, arrival, departure, moment),
            Action::Leave { sight, moment } => self.apply_departure(intake, sight, moment),
        }
    }

    /// Applies moves, one after the other. They are a segment from the cut before to the cut after,
    /// whatever is excluded that they don't name. If one is refused, those before it are a segment
    /// to the machine's current cut, unless memory ran out.
    pub fn apply_all(
        &mut self,
        alloc: Global,
        intake: &Intake,
        credentials: &Credentials,
        actions: &[Action],
    ) -> Result<(), Stop>
        requires consistent { IsConsistent self.old }
        ensures segment { OnOk result (LeadsTo self.old.policy (key_for credentials.now) (sighting_at (taken intake.now)) (cut_of self.old) (cut_of self.new) actions.now) }
        ensures consistent { OnOk result (IsConsistent self.new) }
        ensures policy { OnOk result (self.new.policy ≡ self.old.policy) }
        ensures refused { IfErr result (λ stop. (IsFatal stop.refusal → ⊥) →
            LeadsTo self.old.policy (key_for credentials.now) (sighting_at (taken intake.now)) (cut_of self.old) (cut_of self.new) (take stop.place actions.now)
            × IsConsistent self.new × (self.new.policy ≡ self.old.policy)) }
    {
        'actions: for place in 0..actions.len() {
            if let Err(refusal) = self.apply(alloc, intake, credentials, actions[place]) {
                return Err(Stop { place, refusal });
            }
        }
        Ok(())
    }
}
