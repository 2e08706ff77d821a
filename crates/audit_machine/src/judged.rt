//! Up to which moment a machine has judged what was captured.

ghost use Rattle.std.specs.Prelude.{◌≡◌, ◌≤◌, ◌<◌, ◌⊎◌, ℕ, true, false, None, Some, IsTrue, is_some};
ghost use Rattle.audit_model.specs.declared.sighting.SightId.{SightId as SightName};
ghost use Rattle.audit_model.specs.declared.sighting.Sighting.{Sighting as OneSighting};
ghost use Rattle.audit_sightings.specs.Intake.{taken, sighting_at};
ghost use Rattle.audit_segments.specs.Alike.{is_placed};
ghost use Rattle.audit_machine.specs.Counts.{count_of};
ghost use Rattle.audit_machine.specs.Judged.{IsJudgedBy, IsOpenUntil, EndsAt};
ghost use Rattle.audit_machine.specs.Times.{time_of};

use crate::machine::Machine;
use audit_sightings::Intake;

impl Machine {
    /// The earliest end of a window of an interface's sightings that are not placed, or the bound
    /// if that is earlier.
    fn least_end_in(&self, intake: &Intake, iface: u32, bound: u64) -> u64
        ensures bound { result ≤ bound }
        ensures each { (s : SightName) (x : OneSighting) → s.iface ≡ iface → sighting_at (taken intake.now) s ≡ Some x →
            is_placed (count_of self.now.placed) s ≡ false → result ≤ x.hi }
        ensures least { (result ≡ bound) ⊎ IsOpenUntil (taken intake.now) (count_of self.now.placed) result }
    {
        let row = intake.interface(iface);
        let mut least = bound;
        'sightings: for index in self.placed.get(iface) as usize..row.len() {
            let end = row[index].hi;
            if end < least {
                least = end;
            }
        }
        least
    }

    /// The earliest end of a window of the sightings that are not placed, or the bound if that is
    /// earlier.
    fn least_end(&self, intake: &Intake, bound: u64) -> u64
        ensures bound { result ≤ bound }
        ensures each { (s : SightName) (x : OneSighting) → sighting_at (taken intake.now) s ≡ Some x →
            is_placed (count_of self.now.placed) s ≡ false → result ≤ x.hi }
        ensures least { (result ≡ bound) ⊎ IsOpenUntil (taken intake.now) (count_of self.now.placed) result }
    {
        let mut least = bound;
        'interfaces: for iface in 0..intake.interfaces() {
            least = self.least_end_in(intake, iface, least);
        }
        least
    }

    /// The last moment up to the bound at which each sighting of the intake is placed whose window
    /// ended before, and each owed departure may still leave. It takes linear time in the sightings
    /// that are not placed, and in the owed departures.
    pub fn judged_up_to(&self, intake: &Intake, bound: u64) -> u64
        ensures judged { IsJudgedBy (taken intake.now) self.now result }
        ensures bound { result ≤ bound }
        ensures last { (moment : ℕ) → result < moment → moment ≤ bound → IsJudgedBy (taken intake.now) self.now moment → ⊥ }
    {
        let least = self.least_end(intake, bound);
        self.owed.least_end(self.policy.hold, least)
    }

    /// Whether each placed sighting of an interface is in the intake.
    fn has_row(&self, intake: &Intake, iface: u32) -> bool
        ensures { IsTrue result → (s : SightName) → s.iface ≡ iface → is_placed (count_of self.now.placed) s ≡ true →
            is_some (sighting_at (taken intake.now) s) ≡ true }
    {
        self.placed.get(iface) as usize <= intake.interface(iface).len()
    }

    /// Whether each placed sighting is in the intake. A machine that goes on from what was carried
    /// can go on if it is.
    pub fn has_placed(&self, intake: &Intake) -> bool
        ensures { IsTrue result → (s : SightName) → is_placed (count_of self.now.placed) s ≡ true →
            is_some (sighting_at (taken intake.now) s) ≡ true }
    {
        'interfaces: for iface in 0..intake.interfaces() {
            if !self.has_row(intake, iface) {
                return false;
            }
        }
        self.placed.are_before(intake.interfaces())
    }

    /// Whether all sightings of the intake are placed, and no departure is owed.
    pub fn is_complete(&self, intake: &Intake) -> bool
        ensures placed { IsTrue result → (s : SightName) → is_some (sighting_at (taken intake.now) s) ≡ true → is_placed (count_of self.now.placed) s ≡ true }
        ensures owed { IsTrue result → (t : SightName) → time_of self.now.owed t ≡ None }
    {
        self.owes_nothing() && self.has_all(intake)
    }
}
