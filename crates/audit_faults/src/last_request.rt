//! Finds the last request for a lease, and its last success response, by key. Nothing is proved of
//! which ones it finds.

use crate::fault::{Fault, Grant, Lease};
use crate::keyed::{ByKey, span_of_key};
use crate::lease_keys::{answer_key, channel_key, permission_key, relayed_key};
use crate::leased::{Leases, lease_message};
use crate::requests::is_answer_at;
use audit_model::{Policy, SightId, Sighting};
use audit_sightings::Intake;
use audit_stun::{Class, channel_data};

/// The key of requests for a lease.
fn key_of_lease(grant: &Grant) -> u64 {
    match grant.lease {
        Lease::Allocation { relayed } => relayed_key(grant.client, relayed),
        Lease::Permission { ip } => permission_key(grant.client, ip),
        Lease::Channel { number, peer } => channel_key(grant.client, number, peer),
    }
}

/// The last request for the lease that may precede the departure.
pub fn last_request(
    intake: &Intake,
    leases: Leases<'_>,
    grant: &Grant,
    departure: &Sighting,
) -> Option<SightId> {
    let span = span_of_key(leases.requests.places, key_of_lease(grant), 0, departure.hi);
    let one = leases.requests.places.get(span.past.checked_sub(1)?)?;
    Some(one.sight)
}

/// The lease that the departure lacks, if the arrival caused it. It doesn't compare their data.
fn lease_for(
    policy: &Policy,
    fault: Fault,
    arrival: &Sighting,
    departure: &Sighting,
) -> Option<Grant> {
    let to_peer = policy.relays(departure.from);
    let (client, listen, peer, numbered) = if to_peer {
        (arrival.from, arrival.to, departure.to, arrival)
    } else {
        (departure.to, departure.from, arrival.from, departure)
    };
    if fault != Fault::Unbound {
        let lease = Lease::Permission { ip: peer.ip };
        return Some(Grant {
            client,
            listen,
            lease,
        });
    }
    let (number, _, _) = channel_data(numbered.payload.as_slice())?;
    let lease = Lease::Channel { number, peer };
    Some(Grant {
        client,
        listen,
        lease,
    })
}

/// Whether there is a request for the lease that the departure lacks, if the arrival caused it.
pub fn was_requested(
    intake: &Intake,
    leases: Leases<'_>,
    fault: Fault,
    arrival: &Sighting,
    departure: &Sighting,
) -> bool {
    match lease_for(intake.policy(), fault, arrival, departure) {
        Some(grant) => last_request(intake, leases, &grant, departure).is_some(),
        None => false,
    }
}

/// The last success response to a request.
pub fn last_success(
    intake: &Intake,
    answers: ByKey<'_>,
    grant: &Grant,
    request: &Sighting,
) -> Option<SightId> {
    let said = lease_message(request.payload.as_slice(), Class::Request)?;
    let key = answer_key(grant.client, &said);
    let span = span_of_key(answers.places, key, 0, u64::MAX);
    let one = answers.places.get(span.past.checked_sub(1)?)?;
    if is_answer_at(intake, one.sight, grant.client, &said) {
        Some(one.sight)
    } else {
        None
    }
}
