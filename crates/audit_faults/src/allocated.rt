//! Whether the address of an allocation may have been granted, searched by key.

ghost use Rattle.std.specs.Prelude.{◌≡◌, ◌↔◌, ◌≤◌, ℕ, IsTrue, Some};
ghost use Rattle.audit_model.specs.declared.sighting.Sighting.{Sighting as OneSighting};
ghost use Rattle.audit_sightings.specs.Intake.{taken, sighting_at};
ghost use Rattle.audit_faults.specs.declared.fault.Lease.TheVariants as leases;
ghost use Rattle.audit_faults.specs.Grants.{IsCaptured, Requests, Succeeds, HasGrant};
ghost use Rattle.audit_faults.specs.Leased.{AreRequests, AreLeases};

use crate::fault::Grant;
use crate::keyed::{ByKey, span_of_key};
use crate::lease_keys::{allocate_key, relayed_key};
use crate::leased::Leases;
use crate::leases::{requests, succeeds};
use crate::values::{message_in, message_of};
use audit_model::{Addr, SightId, Sighting};
use audit_sightings::Intake;
use audit_stun::Class;
use audit_stun::numbers::method::ALLOCATE;

/// Whether the sighting of that id is the request for which that success response may have granted
/// the lease.
fn is_request_at(
    intake: &Intake,
    sight: SightId,
    grant: &Grant,
    arrival: &Sighting,
    departure: &Sighting,
    success: &Sighting,
) -> bool
    ensures { IsTrue result ↔ ((request : OneSighting) × (sighting_at (taken intake.now) sight ≡ Some request)
        × Requests (taken intake.now).policy grant.now arrival.now departure.now request
        × Succeeds (taken intake.now).policy grant.now arrival.now request success.now) }
{
    let Some(request) = intake.sighting(sight) else {
        return false;
    };
    requests(intake.policy(), grant, arrival, departure, request)
        && message_in(request.payload.as_slice()).is_some()
        && succeeds(intake.policy(), grant, arrival, request, success)
}

/// The last moment at which the window of such a request may begin: it precedes both datagrams.
fn last_of(departure: &Sighting, success: &Sighting) -> u64
    ensures { (lo : ℕ) → lo ≤ departure.now.hi → lo ≤ success.now.hi → lo ≤ result }
{
    departure.hi.min(success.hi)
}

/// Whether a request was captured for which that success response may have granted the address. The
/// last one before the response is tried first.
fn allocated_by(
    intake: &Intake,
    requests_by_key: ByKey<'_>,
    relayed: Addr,
    grant: &Grant,
    arrival: &Sighting,
    departure: &Sighting,
    success: &Sighting,
) -> bool
    requires requests_by_key { AreRequests (taken intake.now) requests_by_key }
    requires lease { grant.now.lease ≡ leases.Allocation relayed }
    requires captured { IsCaptured (taken intake.now) success.now }
    ensures some { IsTrue result → HasGrant (taken intake.now) grant.now arrival.now departure.now }
    ensures all { (request : OneSighting) → IsCaptured (taken intake.now) request → Requests (taken intake.now).policy grant.now arrival.now departure.now request →
        Succeeds (taken intake.now).policy grant.now arrival.now request success.now → IsTrue result }
{
    let Some(said) = message_of(success.payload.as_slice(), Class::Success, ALLOCATE) else {
        return false;
    };
    let key = allocate_key(grant.client, &said);
    let last = last_of(departure, success);
    let span = span_of_key(requests_by_key.places, key, 0, last);
    let mut place = span.past;
    'places: while span.first < place {
        place -= 1;
        if is_request_at(
            intake,
            requests_by_key.places[place].sight,
            grant,
            arrival,
            departure,
            success,
        ) {
            return true;
        }
    }
    false
}

/// Whether the sighting of that id is a success response that may have granted the address.
fn is_allocated_by(
    intake: &Intake,
    requests_by_key: ByKey<'_>,
    relayed: Addr,
    sight: SightId,
    grant: &Grant,
    arrival: &Sighting,
    departure: &Sighting,
) -> bool
    requires requests_by_key { AreRequests (taken intake.now) requests_by_key }
    requires lease { grant.now.lease ≡ leases.Allocation relayed }
    ensures some { IsTrue result → HasGrant (taken intake.now) grant.now arrival.now departure.now }
    ensures all { (success request : OneSighting) → sighting_at (taken intake.now) sight ≡ Some success → IsCaptured (taken intake.now) request →
        Requests (taken intake.now).policy grant.now arrival.now departure.now request → Succeeds (taken intake.now).policy grant.now arrival.now request success → IsTrue result }
{
    let Some(success) = intake.sighting(sight) else {
        return false;
    };
    allocated_by(
        intake,
        requests_by_key,
        relayed,
        grant,
        arrival,
        departure,
        success,
    )
}

/// Whether the address was granted. The first success response is tried first, since later requests
/// may have refreshed the allocation.
pub fn has_allocation(
    intake: &Intake,
    listed: Leases<'_>,
    relayed: Addr,
    grant: &Grant,
    arrival: &Sighting,
    departure: &Sighting,
) -> bool
    requires listed { AreLeases (taken intake.now) listed }
    requires lease { grant.now.lease ≡ leases.Allocation relayed }
    ensures { IsTrue result ↔ HasGrant (taken intake.now) grant.now arrival.now departure.now }
{
    let key = relayed_key(grant.client, relayed);
    let answers = listed.answers;
    let span = span_of_key(answers.places, key, 0, u64::MAX);
    let mut place = span.first;
    'places: while place < span.past {
        let sight = answers.places[place].sight;
        if is_allocated_by(
            intake,
            listed.requests,
            relayed,
            sight,
            grant,
            arrival,
            departure,
        ) {
            return true;
        }
        place += 1;
    }
    false
}
