//! The moment up to which the certificate of captures that grow can be found.

ghost use Rattle.std.specs.Prelude.{◌≡◌};
ghost use Rattle.audit_program.specs.Horizon.{IsEarliest, IsHorizon, sooner_of};
ghost use Rattle.audit_sightings.specs.Intake.{taken};

use audit_sightings::Intake;

/// The sooner of two moments, if there is a first.
fn sooner(before: Option<u64>, moment: u64) -> Option<u64>
    ensures { result ≡ sooner_of before moment }
{
    match before {
        Some(before) => Some(before.min(moment)),
        None => Some(moment),
    }
}

/// The least of the moments from which on the newest sighting of each capture may have come; None
/// if a capture has no sighting, or there is no capture.
fn earliest(intake: &Intake) -> Option<u64>
    ensures { IsEarliest (taken intake.now) result }
{
    let (files, _) = intake.counts();
    let mut earliest = None;
    'files: for file in 0..files {
        let newest = intake.newest(file)?;
        earliest = sooner(earliest, newest);
    }
    earliest
}

/// The next horizon. What comes later in any capture may be sent for arrivals up to `hold` before,
/// and for none older. None if a capture has no sighting, or the horizon isn't past the last one.
pub fn next_horizon(intake: &Intake, last: Option<u64>) -> Option<u64>
    ensures { IsHorizon (taken intake.now) last result }
{
    let horizon = earliest(intake)?.saturating_sub(intake.policy().hold);
    match last {
        Some(last) if horizon <= last => None,
        _ => Some(horizon),
    }
}
