//! Moments, by the ids of sightings.

ghost use Rattle.std.specs.Prelude.{◌≡◌, ◌≤◌, ◌⊎◌, ℕ, Some, None, IfOk, OnOk, IsTrue};
ghost use Rattle.audit_model.specs.declared.sighting.SightId.{SightId as SightName};
ghost use Rattle.audit_model.specs.Sames.{same_sight};
ghost use Rattle.audit_model.specs.Window.{later};
ghost use Rattle.audit_server.specs.State.{put};
ghost use Rattle.audit_cuts.specs.Carried.{moment_in};
ghost use Rattle.audit_machine.specs.Judged.{EndsAt};
ghost use Rattle.audit_machine.specs.Times.{time_of};

use audit_cuts::Came;
use audit_model::SightId;
use std::alloc::{AllocError, Global};
use std::collections::BTreeMap;

/// A moment for each of some sightings.
#[derive(Drop)]
pub struct Times {
    moments: BTreeMap<SightId, u64>,
}

impl Times {
    /// No moments. Allocates no memory.
    pub fn new(alloc: Global) -> Times
        ensures { (s : SightName) → time_of result s ≡ None }
    {
        Times {
            moments: BTreeMap::new(alloc),
        }
    }

    /// The moment of the sighting.
    pub fn get(&self, sight: SightId) -> Option<u64>
        ensures { result ≡ time_of self.now sight }
    {
        self.moments.get(&sight).copied()
    }

    /// Sets the moment of a sighting.
    pub fn put(&mut self, sight: SightId, moment: u64) -> Result<(), AllocError>
        ensures { OnOk result ((q : SightName) → time_of self.new q ≡ put same_sight (time_of self.old) sight (Some moment) q) }
    {
        self.moments.insert(sight, moment)?;
        Ok(())
    }

    /// Removes the moment of a sighting.
    pub fn remove(&mut self, sight: SightId)
        ensures { (q : SightName) → time_of self.new q ≡ put same_sight (time_of self.old) sight None q }
    {
        self.moments.remove(&sight);
    }

    /// Whether no sighting has a moment.
    pub fn is_empty(&self) -> bool
        ensures { IsTrue result → (s : SightName) → time_of self.now s ≡ None }
    {
        self.moments.is_empty()
    }

    /// The earliest end of the hold after one of the moments, or the bound if that is earlier.
    pub fn least_end(&self, hold: u64, bound: u64) -> u64
        ensures bound { result ≤ bound }
        ensures each { (s : SightName) (came : ℕ) → time_of self.now s ≡ Some came → result ≤ later came hold }
        ensures least { (result ≡ bound) ⊎ EndsAt (time_of self.now) hold result }
    {
        let mut least = bound;
        for (_, came) in self.moments.iter() {
            let end = came.saturating_add(hold);
            if end < least {
                least = end;
            }
        }
        least
    }

    /// The sightings and their moments, by interface and index.
    pub fn to_vec(&self, alloc: Global) -> Result<Vec<Came>, AllocError>
        ensures { IfOk result (λ all. (s : SightName) → moment_in all.items s ≡ time_of self.now s) }
    {
        let mut all = Vec::new(alloc);
        for (sight, moment) in &self.moments {
            all.push(Came {
                sight: *sight,
                moment: *moment,
            })?;
        }
        Ok(all)
    }

    /// The moments of these sightings; of each sighting the first entry counts.
    pub fn resume(alloc: Global, all: &[Came]) -> Result<Times, AllocError>
        ensures { IfOk result (λ times. (s : SightName) → time_of times s ≡ moment_in all.now s) }
    {
        let mut times = Times::new(alloc);
        for came in all {
            if times.get(came.sight).is_none() {
                times.put(came.sight, came.moment)?;
            }
        }
        Ok(times)
    }
}
