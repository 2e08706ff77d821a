//! Records which departures have their event.

ghost use Rattle.std.specs.Prelude.{◌≡◌, ◌+◌, ◌≤◌, ℕ, IsTrue, false};
ghost use Rattle.audit_model.specs.Sames.{same_sight};
ghost use Rattle.audit_finder.specs.Departures.{out_of, has_left};

use audit_model::{Event, SightId};
use audit_sightings::Intake;
use std::alloc::{AllocError, Global};
use std::mem;

/// The sightings that leave by the events that were added so far.
#[derive(Drop)]
pub(crate) struct Departed {
    /// For each interface, whether each of its sightings does.
    rows: Vec<Vec<bool>>,
}

impl Departed {
    /// None does yet. It takes one byte for each sighting.
    pub(crate) fn new(alloc: Global, intake: &Intake) -> Result<Departed, AllocError> {
        let interfaces = intake.interfaces();
        let mut rows = Vec::with_capacity(alloc, interfaces as usize)?;
        for iface in 0..interfaces {
            rows.push(vec![in alloc; false; intake.interface(iface).len()]?)?;
        }
        Ok(Departed { rows })
    }

    /// Records that a sighting leaves, and returns whether it exists and didn't leave before.
    fn note(&mut self, sight: SightId) -> bool
        ensures free { IsTrue result → has_left self.old.rows.items sight ≡ false }
        ensures noted { (s : SightId) → has_left self.new.rows.items s ≡ false
            → (has_left self.old.rows.items s ≡ false) × (IsTrue result → same_sight s sight ≡ false) }
    {
        let Some(row) = self.rows.get_mut(sight.iface as usize) else {
            return false;
        };
        let Some(left) = row.get_mut(sight.index as usize) else {
            return false;
        };
        !mem::replace(left, true)
    }

    /// Records an event, and returns whether it may be added. Only an event by which a missing
    /// sighting would leave, or one would leave again, may not.
    pub(crate) fn admits(&mut self, event: Event) -> bool
        ensures free { IsTrue result → (s : SightId) → (n : ℕ) → n ≤ 1 → (has_left self.old.rows.items s ≡ false → n ≡ 0) → n + out_of s event ≤ 1 }
        ensures noted { (s : SightId) → has_left self.new.rows.items s ≡ false
            → (has_left self.old.rows.items s ≡ false) × (IsTrue result → out_of s event ≡ 0) }
    {
        match event {
            Event::Out { sight, .. } => self.note(sight),
            Event::In { .. } | Event::Act { .. } => true,
        }
    }
}
