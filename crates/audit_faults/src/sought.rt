//! Whether a departure is explained by an arrival with a key.

ghost use Rattle.std.specs.Prelude.{◌≡◌, ◌↔◌, ◌+◌, ◌≤◌, ℕ, IsFalse, IsTrue, Some};
ghost use Rattle.audit_model.specs.Window.{later};
ghost use Rattle.audit_model.specs.declared.sighting.Sighting.{Sighting};
ghost use Rattle.audit_keys.specs.KeyFor.{key_for};
ghost use Rattle.audit_sightings.specs.Intake.{taken, sighting_at};
ghost use Rattle.audit_faults.specs.ArrivalKeys.{IsArrivalBy};
ghost use Rattle.audit_faults.specs.Explains.{Explains};
ghost use Rattle.audit_faults.specs.Grants.{IsCaptured};
ghost use Rattle.audit_faults.specs.Index.{AreArrivals, IsIndex};
ghost use Rattle.audit_faults.specs.Repeats.{IsPlaced};

use crate::explains::explains;
use crate::fault::Fault;
use crate::index::Index;
use crate::keyed::span_of_key;
use crate::needs::has_needed_leases;
use crate::reach::Span;
use crate::repeat_blocks::last_unrepeated;
use crate::repeats::Arrivals;
use audit_keys::Credentials;
use audit_model::{SightId, Sighting};
use audit_sightings::Intake;

/// Arrivals of more bytes than this are read only if the leases are there, since reading them costs
/// more.
const LONG: usize = 2048;

/// The earliest first moment of an arrival in reach of the departure, if no window is wider than
/// `width`.
pub fn earliest(departure: &Sighting, hold: u64, width: u64) -> u64
    ensures { (lo hi : ℕ) → departure.now.lo ≤ later hi hold → hi ≤ lo + width → result ≤ lo }
{
    departure.lo.saturating_sub(hold).saturating_sub(width)
}

/// Whether an arrival explains the departure. For a long one the leases are checked first.
fn explains_by_leases(
    intake: &Intake,
    index: &Index<'_>,
    credentials: &Credentials,
    fault: Fault,
    arrival: &Sighting,
    departure: &Sighting,
) -> bool
    requires { IsIndex (taken intake.now) index.now }
    ensures { IsTrue result ↔ Explains (taken intake.now) (key_for credentials.now) fault arrival.now departure.now }
{
    if arrival.payload.len() > LONG {
        if !has_needed_leases(intake, index, fault, arrival, departure) {
            return false;
        }
    }
    explains(intake, index, credentials, fault, arrival, departure)
}

/// Whether the sighting of that id explains the departure.
fn explains_at(
    intake: &Intake,
    index: &Index<'_>,
    credentials: &Credentials,
    fault: Fault,
    sight: SightId,
    departure: &Sighting,
) -> bool
    requires { IsIndex (taken intake.now) index.now }
    ensures { IsTrue result ↔ ((arrival : Sighting) × (sighting_at (taken intake.now) sight ≡ Some arrival)
        × Explains (taken intake.now) (key_for credentials.now) fault arrival departure.now) }
{
    let Some(arrival) = intake.sighting(sight) else {
        return false;
    };
    explains_by_leases(intake, index, credentials, fault, arrival, departure)
}

/// Whether the sighting at a place explains the departure.
fn explains_from(
    intake: &Intake,
    index: &Index<'_>,
    arrivals: Arrivals<'_>,
    credentials: &Credentials,
    fault: Fault,
    place: usize,
    departure: &Sighting,
) -> bool
    requires { IsIndex (taken intake.now) index.now }
    ensures some { IsTrue result → ((arrival : Sighting) × IsCaptured (taken intake.now) arrival
        × Explains (taken intake.now) (key_for credentials.now) fault arrival departure.now) }
    ensures none { IsFalse result → (arrival : Sighting) → IsPlaced (taken intake.now) arrivals.entry.by_key.places.now place arrival →
        Explains (taken intake.now) (key_for credentials.now) fault arrival departure.now → ⊥ }
{
    let Some(one) = arrivals.by_key.places.get(place) else {
        return false;
    };
    explains_at(intake, index, credentials, fault, one.sight, departure)
}

/// Whether the sighting at the last of these places explains the departure. Mostly it does.
fn explains_last(
    intake: &Intake,
    index: &Index<'_>,
    arrivals: Arrivals<'_>,
    credentials: &Credentials,
    fault: Fault,
    span: Span,
    departure: &Sighting,
) -> bool
    requires { IsIndex (taken intake.now) index.now }
    ensures { IsTrue result → ((arrival : Sighting) × IsCaptured (taken intake.now) arrival
        × Explains (taken intake.now) (key_for credentials.now) fault arrival departure.now) }
{
    if span.past <= span.first {
        return false;
    }
    let Some(one) = arrivals.by_key.places.get(span.past - 1) else {
        return false;
    };
    explains_at(intake, index, credentials, fault, one.sight, departure)
}

/// Whether an arrival with the key explains the departure. The last one is tried first. Of equal
/// datagrams only the first in reach is checked, since it explains what any of them does: if a
/// client repeats one datagram, each search takes logarithmic time.
pub fn explained_by(
    intake: &Intake,
    index: &Index<'_>,
    arrivals: Arrivals<'_>,
    credentials: &Credentials,
    fault: Fault,
    key: u64,
    departure: &Sighting,
) -> bool
    requires index { IsIndex (taken intake.now) index.now }
    requires arrivals { AreArrivals (taken intake.now) arrivals }
    ensures some { IsTrue result → ((arrival : Sighting) × IsCaptured (taken intake.now) arrival
        × Explains (taken intake.now) (key_for credentials.now) fault arrival departure.now) }
    ensures all { (arrival : Sighting) → IsCaptured (taken intake.now) arrival → IsArrivalBy (taken intake.now).policy key arrival →
        Explains (taken intake.now) (key_for credentials.now) fault arrival departure.now → IsTrue result }
{
    let first = earliest(departure, intake.policy().hold, arrivals.by_key.width);
    let span = span_of_key(arrivals.by_key.places, key, first, departure.hi);
    if explains_last(intake, index, arrivals, credentials, fault, span, departure) {
        return true;
    }
    let mut past = span.past;
    'places: while let Some(place) = last_unrepeated(
        intake, arrivals, span.first, past, departure,
    ) {
        if explains_from(
            intake,
            index,
            arrivals,
            credentials,
            fault,
            place,
            departure,
        ) {
            return true;
        }
        past = place;
    }
    false
}

/// How many places in reach of the departure have the key.
pub fn count_in_reach(
    intake: &Intake,
    arrivals: Arrivals<'_>,
    key: u64,
    departure: &Sighting,
) -> usize {
    let first = earliest(departure, intake.policy().hold, arrivals.by_key.width);
    let span = span_of_key(arrivals.by_key.places, key, first, departure.hi);
    span.past.saturating_sub(span.first)
}
