//! Properties of every intake. No program calls these.

ghost use Rattle.audit_sightings.specs.Bounds.{IsBounded};
ghost use Rattle.audit_sightings.specs.Intake.{AreNumbered, taken};

use crate::intake::Intake;

/// Each sighting has the id of its place: its interface's number, and its place among the sightings
/// of that interface.
pub fn sightings_are_numbered(intake: &Intake)
    ensures { AreNumbered (taken intake.now) }
{
    let _sightings = intake.counts();
}

/// An intake keeps its limits: 1,024 interfaces and 16,777,216 sightings, each with numbers of
/// their types.
pub fn sightings_are_bounded(intake: &Intake)
    ensures { IsBounded (taken intake.now) }
{
    let _sightings = intake.counts();
}
