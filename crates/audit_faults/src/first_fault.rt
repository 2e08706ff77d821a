//! The first fault that a departure shows.

ghost use Rattle.std.specs.Prelude.{◌≡◌, ◌↔◌, IsTrue, Any, Some, None, IfSome};
ghost use Rattle.audit_model.specs.declared.sighting.Sighting.{Sighting};
ghost use Rattle.audit_model.specs.declared.sighting.Side.TheVariants as sides;
ghost use Rattle.audit_keys.specs.KeyFor.{key_for};
ghost use Rattle.audit_sightings.specs.Intake.{taken, sighting_at, interface_at};
ghost use Rattle.audit_faults.specs.declared.fault.Fault.{Fault as FaultKind};
ghost use Rattle.audit_faults.specs.declared.fault.Fault.TheVariants as faults;
ghost use Rattle.audit_faults.specs.Explains.{Explains, IsFault, NoneBefore};
ghost use Rattle.audit_faults.specs.Grants.{IsCaptured};
ghost use Rattle.audit_faults.specs.Index.{IsIndex};

use crate::explained_by_keys::is_explained_by_keys;
use crate::explains::explains;
use crate::fault::Fault;
use crate::index::{Index, span_in};
use crate::near::is_explained_just_before;
use audit_keys::Credentials;
use audit_model::{Side, SightId, Sighting};
use audit_sightings::Intake;

/// Whether a sighting of the interface explains the departure. It searches those in reach from the
/// last one back, since the arrival that caused a departure mostly came just before it.
fn explained_among(
    intake: &Intake,
    index: &Index<'_>,
    credentials: &Credentials,
    iface: u32,
    fault: Fault,
    departure: &Sighting,
) -> bool
    requires { IsIndex (taken intake.now) index.now }
    ensures { IsTrue result ↔ Any (λ arrival. Explains (taken intake.now) (key_for credentials.now) fault arrival departure.now) (interface_at (taken intake.now) iface) }
{
    let row = intake.interface(iface);
    let span = span_in(intake, index, iface, departure);
    let mut place = span.past;
    'places: while span.first < place {
        place -= 1;
        if explains(intake, index, credentials, fault, &row[place], departure) {
            return true;
        }
    }
    false
}

/// Whether a captured arrival in reach explains the departure.
fn is_explained_somewhere(
    intake: &Intake,
    index: &Index<'_>,
    credentials: &Credentials,
    fault: Fault,
    departure: &Sighting,
) -> bool
    requires { IsIndex (taken intake.now) index.now }
    ensures { IsTrue result ↔ ((arrival : Sighting) × IsCaptured (taken intake.now) arrival × Explains (taken intake.now) (key_for credentials.now) fault arrival departure.now) }
{
    'interfaces: for iface in 0..intake.interfaces() {
        if explained_among(intake, index, credentials, iface, fault, departure) {
            return true;
        }
    }
    false
}

/// Whether a captured arrival explains the departure.
fn is_explained(
    intake: &Intake,
    index: &Index<'_>,
    credentials: &Credentials,
    fault: Fault,
    departure: &Sighting,
) -> bool
    requires { IsIndex (taken intake.now) index.now }
    ensures { IsTrue result ↔ ((arrival : Sighting) × IsCaptured (taken intake.now) arrival × Explains (taken intake.now) (key_for credentials.now) fault arrival departure.now) }
{
    match index.arrivals {
        Some(arrivals) => is_explained_by_keys(
            intake,
            index,
            arrivals,
            credentials,
            fault,
            departure,
        ),
        None => {
            if is_explained_just_before(intake, index, credentials, fault, departure) {
                return true;
            }
            is_explained_somewhere(intake, index, credentials, fault, departure)
        }
    }
}

/// Whether the departure of that id shows the fault.
fn is_fault(
    intake: &Intake,
    index: &Index<'_>,
    credentials: &Credentials,
    fault: Fault,
    sight: SightId,
    departure: &Sighting,
) -> bool
    requires index { IsIndex (taken intake.now) index.now }
    requires there { sighting_at (taken intake.now) sight ≡ Some departure.now }
    requires leaves { departure.now.side ≡ sides.Leaves }
    ensures { IsTrue result ↔ IsFault (taken intake.now) (key_for credentials.now) fault sight }
{
    !is_explained(intake, index, credentials, fault, departure)
}

/// The first fault that a departure shows, if it shows that of all leases. What the check of a
/// fault includes, those of the faults after it include too.
fn lease_fault(
    intake: &Intake,
    index: &Index<'_>,
    users: &Credentials,
    sight: SightId,
    departure: &Sighting,
) -> Fault
    requires index { IsIndex (taken intake.now) index.now }
    requires there { sighting_at (taken intake.now) sight ≡ Some departure.now }
    requires leaves { departure.now.side ≡ sides.Leaves }
    requires unbound { IsFault (taken intake.now) (key_for users.now) faults.Unbound sight }
    ensures shown { IsFault (taken intake.now) (key_for users.now) result sight }
    ensures first { NoneBefore (λ earlier. IsFault (taken intake.now) (key_for users.now) earlier sight) result }
{
    let unpermitted = is_fault(intake, index, users, Fault::Unpermitted, sight, departure);
    if !unpermitted {
        return Fault::Unbound;
    }
    let unallocated = is_fault(intake, index, users, Fault::Unallocated, sight, departure);
    if !unallocated {
        return Fault::Unpermitted;
    }
    let unasked = is_fault(intake, index, users, Fault::Unasked, sight, departure);
    if !unasked {
        return Fault::Unallocated;
    }
    Fault::Unasked
}

/// The first fault that a departure shows; none if there is no departure of that id.
pub fn first_fault(
    intake: &Intake,
    index: &Index<'_>,
    users: &Credentials,
    sight: SightId,
) -> Option<Fault>
    requires { IsIndex (taken intake.now) index.now }
    ensures shown { IfSome result (λ fault. IsFault (taken intake.now) (key_for users.now) fault sight) }
    ensures first { IfSome result (NoneBefore (λ earlier. IsFault (taken intake.now) (key_for users.now) earlier sight)) }
    ensures none { result ≡ None → (fault : FaultKind) → IsFault (taken intake.now) (key_for users.now) fault sight → ⊥ }
{
    let departure = intake.sighting(sight)?;
    if departure.side != Side::Leaves {
        return None;
    }
    // If it is explained with all reasons, it shows none of the faults.
    let unauthentic = is_fault(intake, index, users, Fault::Unauthentic, sight, departure);
    if !unauthentic {
        return None;
    }
    let unfit = is_fault(intake, index, users, Fault::Unfit, sight, departure);
    if !unfit {
        return Some(Fault::Unauthentic);
    }
    let unbound = is_fault(intake, index, users, Fault::Unbound, sight, departure);
    if !unbound {
        return Some(Fault::Unfit);
    }
    Some(lease_fault(intake, index, users, sight, departure))
}
