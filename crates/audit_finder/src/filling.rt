//! Lanes, and the events that are added to them.

ghost use Rattle.std.specs.Prelude.{◌≡◌, ◌↔◌, ◌+◌, ◌<◌, ◌≤◌, IsTrue, All, map, length, IfOk};
ghost use Rattle.audit_model.specs.EventCount.{event_count};
ghost use Rattle.audit_model.specs.declared.certificate.TheConstants.{MAX_EVENTS};
ghost use Rattle.audit_sightings.specs.Intake.{Taken, taken, IsThere, NamesWhatIsThere};
ghost use Rattle.audit_finder.specs.Found.{pair_of, empty_lane, AllNamed};
ghost use Rattle.audit_finder.specs.Departures.{out_of, out_count, LeaveOnce, IsNoted};

use crate::departed::Departed;
use audit_model::{Addr, CertLane, Event, Listed, MAX_EVENTS, Side, SightId};
use audit_sightings::Intake;
use std::alloc::{AllocError, Global};

/// Whether a sighting with that name exists, and goes in that direction.
pub(crate) fn is_there(intake: &Intake, side: Side, sight: SightId) -> bool
    ensures { IsTrue result ↔ IsThere (taken intake.now) side sight }
{
    match intake.sighting(sight) {
        Some(sighting) => sighting.side == side,
        None => false,
    }
}

/// Whether all sightings that the event names exist.
pub(crate) fn names_what_is_there(intake: &Intake, event: Event) -> bool
    ensures { IsTrue result ↔ NamesWhatIsThere (taken intake.now) event }
{
    match event {
        Event::In { sight, .. } => is_there(intake, Side::Arrives, sight),
        Event::Act { sight, gives, .. } => {
            is_there(intake, Side::Arrives, sight) && is_there(intake, Side::Leaves, gives)
        }
        Event::Out { sight, .. } => is_there(intake, Side::Leaves, sight),
    }
}

/// The events whose sightings exist.
pub(crate) fn named(intake: &Intake, mut events: Vec<(u32, Event)>) -> Vec<(u32, Event)>
    ensures { All (λ e. NamesWhatIsThere (taken intake.now) e.1) result.items }
{
    events.retain(|(_, event)| names_what_is_there(intake, *event));
    events
}

/// A lane without events for each pair.
fn empty_lanes(alloc: Global, pairs: &[(Addr, Addr)]) -> Result<Vec<CertLane>, AllocError>
    ensures { IfOk result (λ lanes. lanes.items ≡ map empty_lane pairs.now) }
{
    let mut lanes = Vec::with_capacity(alloc, pairs.len())?;
    for (client, listen) in pairs {
        lanes.push(CertLane {
            events: Listed::new(alloc),
            client: *client,
            listen: *listen,
        })?;
    }
    Ok(lanes)
}

/// Adds an event after the others of its lane.
#[tactic(auto, using(crate::proofs::LaneEvents::pairs_set, crate::proofs::LaneEvents::count_set, crate::proofs::LaneEvents::outs_set, crate::proofs::LaneEvents::named_set, crate::proofs::LaneEvents::named_at))]
fn add(lanes: &mut Vec<CertLane>, lane: u32, event: Event) -> Result<(), AllocError>
    requires { lane < length lanes.old.items }
    ensures pairs { map pair_of lanes.new.items ≡ map pair_of lanes.old.items }
    ensures count { event_count lanes.new.items ≤ event_count lanes.old.items + 1 }
    ensures outs { (s : SightId) → out_count s lanes.new.items ≤ out_count s lanes.old.items + out_of s event }
    ensures named { (taken : Taken) → NamesWhatIsThere taken event → AllNamed taken lanes.old.items → AllNamed taken lanes.new.items }
{
    lanes[lane as usize].events.push(event)?;
    Ok(())
}

/// Lanes with the events that were added so far.
#[derive(Drop)]
pub(crate) struct Filled {
    lanes: Vec<CertLane>,
    /// How many more events may be added.
    room: usize,
    departed: Departed,
}

impl Filled {
    /// A lane without events for each pair.
    pub(crate) fn new(
        alloc: Global,
        intake: &Intake,
        pairs: &[(Addr, Addr)],
    ) -> Result<Filled, AllocError>
        ensures pairs { IfOk result (λ filled. map pair_of filled.lanes.items ≡ pairs.now) }
        ensures room { IfOk result (λ filled. event_count filled.lanes.items + filled.room ≤ MAX_EVENTS) }
        ensures named { IfOk result (λ filled. AllNamed (taken intake.now) filled.lanes.items) }
        ensures noted { IfOk result (λ filled. IsNoted filled.departed.rows.items filled.lanes.items) }
    {
        let lanes = empty_lanes(alloc, pairs)?;
        Ok(Filled {
            lanes,
            room: MAX_EVENTS,
            departed: Departed::new(alloc, intake)?,
        })
    }

    /// Adds an event to its lane if the lane exists, there is room for it, and no sighting leaves
    /// twice.
    fn add_within(&mut self, lane: u32, event: Event) -> Result<(), AllocError>
        ensures pairs { map pair_of self.new.lanes.items ≡ map pair_of self.old.lanes.items }
        ensures room { IfOk result (λ u. event_count self.new.lanes.items + self.new.room ≤ event_count self.old.lanes.items + self.old.room) }
        ensures named { (taken : Taken) → NamesWhatIsThere taken event → AllNamed taken self.old.lanes.items → AllNamed taken self.new.lanes.items }
        ensures noted { IsNoted self.old.departed.rows.items self.old.lanes.items → IsNoted self.new.departed.rows.items self.new.lanes.items }
    {
        if self.room == 0 || lane as usize >= self.lanes.len() || !self.departed.admits(event) {
            return Ok(());
        }
        add(&mut self.lanes, lane, event)?;
        self.room -= 1;
        Ok(())
    }

    /// Adds each event to its lane as long as there is room.
    fn distribute(&mut self, events: &[(u32, Event)]) -> Result<(), AllocError>
        ensures pairs { IfOk result (λ u. map pair_of self.new.lanes.items ≡ map pair_of self.old.lanes.items) }
        ensures room { IfOk result (λ u. event_count self.new.lanes.items + self.new.room ≤ event_count self.old.lanes.items + self.old.room) }
        ensures named { (taken : Taken) → All (λ e. NamesWhatIsThere taken e.1) events.now → AllNamed taken self.old.lanes.items
            → IfOk result (λ u. AllNamed taken self.new.lanes.items) }
        ensures noted { IsNoted self.old.departed.rows.items self.old.lanes.items
            → IfOk result (λ u. IsNoted self.new.departed.rows.items self.new.lanes.items) }
    {
        'events: for (lane, event) in events {
            self.add_within(*lane, *event)?;
        }
        Ok(())
    }

    /// Adds the events whose sightings exist to their lanes.
    pub(crate) fn add_all(
        &mut self,
        intake: &Intake,
        events: Vec<(u32, Event)>,
    ) -> Result<(), AllocError>
        ensures pairs { IfOk result (λ u. map pair_of self.new.lanes.items ≡ map pair_of self.old.lanes.items) }
        ensures room { IfOk result (λ u. event_count self.new.lanes.items + self.new.room ≤ event_count self.old.lanes.items + self.old.room) }
        ensures named { AllNamed (taken intake.now) self.old.lanes.items → IfOk result (λ u. AllNamed (taken intake.now) self.new.lanes.items) }
        ensures noted { IsNoted self.old.departed.rows.items self.old.lanes.items
            → IfOk result (λ u. IsNoted self.new.departed.rows.items self.new.lanes.items) }
    {
        let events = named(intake, events);
        self.distribute(events.as_slice())
    }

    /// The lanes, with the last events whose sightings exist, and how many more events might be
    /// added.
    pub(crate) fn finish(
        self,
        intake: &Intake,
        last: Vec<(u32, Event)>,
    ) -> Result<(Vec<CertLane>, usize), AllocError>
        ensures pairs { IfOk result (λ full. map pair_of full.0.items ≡ map pair_of self.lanes.items) }
        ensures room { IfOk result (λ full. event_count full.0.items + full.1 ≤ event_count self.lanes.items + self.room) }
        ensures named { AllNamed (taken intake.now) self.lanes.items → IfOk result (λ full. AllNamed (taken intake.now) full.0.items) }
        ensures once { IsNoted self.departed.rows.items self.lanes.items → IfOk result (λ full. LeaveOnce full.0.items) }
    {
        let mut filled = self;
        filled.add_all(intake, last)?;
        let Filled { lanes, room, .. } = filled;
        Ok((lanes, room))
    }
}
