//! Whether a departure is explained by one of the last arrivals before it.

ghost use Rattle.std.specs.Prelude.{IsTrue, Any};
ghost use Rattle.audit_model.specs.declared.sighting.Sighting.{Sighting};
ghost use Rattle.audit_keys.specs.KeyFor.{key_for};
ghost use Rattle.audit_sightings.specs.Intake.{taken, interface_at};
ghost use Rattle.audit_faults.specs.Explains.{Explains};
ghost use Rattle.audit_faults.specs.Grants.{IsCaptured};
ghost use Rattle.audit_faults.specs.Index.{IsIndex};

use crate::explains::explains;
use crate::fault::Fault;
use crate::index::{Index, span_in};
use audit_keys::Credentials;
use audit_model::Sighting;
use audit_sightings::Intake;

/// How many sightings of each interface are tried before all that are in reach.
const FEW: usize = 64;

/// Whether one of the last few sightings of the interface that are in reach explains the departure.
fn explained_just_before(
    intake: &Intake,
    index: &Index<'_>,
    credentials: &Credentials,
    iface: u32,
    fault: Fault,
    departure: &Sighting,
) -> bool
    requires { IsIndex (taken intake.now) index.now }
    ensures { IsTrue result → Any (λ arrival. Explains (taken intake.now) (key_for credentials.now) fault arrival departure.now) (interface_at (taken intake.now) iface) }
{
    let row = intake.interface(iface);
    let span = span_in(intake, index, iface, departure);
    let low = span.past.saturating_sub(FEW).max(span.first);
    let mut place = span.past;
    'places: while low < place {
        place -= 1;
        if explains(intake, index, credentials, fault, &row[place], departure) {
            return true;
        }
    }
    false
}

/// Whether one of the last few sightings of any interface does. The arrival that caused a departure
/// mostly came just before it.
pub fn is_explained_just_before(
    intake: &Intake,
    index: &Index<'_>,
    credentials: &Credentials,
    fault: Fault,
    departure: &Sighting,
) -> bool
    requires { IsIndex (taken intake.now) index.now }
    ensures { IsTrue result → ((arrival : Sighting) × IsCaptured (taken intake.now) arrival × Explains (taken intake.now) (key_for credentials.now) fault arrival departure.now) }
{
    'interfaces: for iface in 0..intake.interfaces() {
        if explained_just_before(intake, index, credentials, iface, fault, departure) {
            return true;
        }
    }
    false
}
