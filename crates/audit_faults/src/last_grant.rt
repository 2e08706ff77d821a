//! Finds the last success response that granted the lease which a departure lacked, and by how much
//! that had expired. It is not proved to be the last one.

ghost use Rattle.std.specs.Prelude.{◌≡◌, ◌↔◌, ◌*◌, IsTrue, IfSome};
ghost use Rattle.audit_model.specs.declared.sighting.Side.TheVariants as sides;
ghost use Rattle.audit_sightings.specs.Intake.{taken};
ghost use Rattle.audit_faults.specs.Causes.{InReach};
ghost use Rattle.audit_faults.specs.Grants.{Requests, Succeeds};
ghost use Rattle.audit_faults.specs.Index.{IsIndex};
ghost use Rattle.audit_faults.specs.LastGrant.{seconds_of, NeedsPermission, NeedsChannel, Needs, IsOver, IsTooEarly};

use crate::causes::{delivered, delivered_in_channel, in_reach, sent_in_channel, sent_on};
use crate::departure_keys::{
    key_of_any_peer, key_of_channel_data, key_of_named_peer, key_of_sends,
};
use crate::explains::explains;
use crate::fault::{Fault, Grant, LastGrant, Lease};
use crate::index::Index;
use crate::keyed::span_of_key;
use crate::last_request::{last_request, last_success, was_requested};
use crate::leases::{requests, succeeds};
use crate::repeats::Arrivals;
use crate::sought::earliest;
use crate::values::message_in;
use audit_keys::Credentials;
use audit_model::{Policy, Side, SightId, Sighting};
use audit_sightings::Intake;

/// How many arrivals that may have caused the departure are tried, the last ones.
const MOST: usize = 64;

/// How long the lease lasts that the departure lacked, in nanoseconds.
fn time_of(fault: Fault) -> u64
    ensures { result ≡ seconds_of fault * 1000000000 }
{
    match fault {
        Fault::Unpermitted => 300_000_000_000,
        Fault::Unbound => 600_000_000_000,
        Fault::Unasked | Fault::Unallocated | Fault::Unfit | Fault::Unauthentic => 0,
    }
}

/// Whether the request may precede the departure and requests the lease, and the success response
/// granted it.
fn granted(
    policy: &Policy,
    grant: &Grant,
    always: &Sighting,
    departure: &Sighting,
    request: &Sighting,
    success: &Sighting,
) -> bool
    ensures { IsTrue result → Requests policy.now grant.now always.now departure.now request.now × Succeeds policy.now grant.now always.now request.now success.now }
{
    requests(policy, grant, always, departure, request)
        && message_in(request.payload.as_slice()).is_some()
        && succeeds(policy, grant, always, request, success)
}

/// By how much the lease that the success response granted had expired when the arrival came, grace
/// included; none if it may have lasted.
fn too_early(policy: &Policy, fault: Fault, arrival: &Sighting, success: &Sighting) -> Option<u64>
    ensures { IfSome result (IsOver policy.now fault arrival.now success.now) }
{
    let end = success
        .hi
        .saturating_add(time_of(fault))
        .saturating_add(policy.grace);
    if arrival.lo <= end {
        return None;
    }
    Some(arrival.lo - end)
}

/// The fault before it. The arrival has all reasons of that one's check.
fn fault_before(fault: Fault) -> Option<Fault> {
    match fault {
        Fault::Unpermitted => Some(Fault::Unallocated),
        Fault::Unbound => Some(Fault::Unpermitted),
        Fault::Unasked | Fault::Unallocated | Fault::Unfit | Fault::Unauthentic => None,
    }
}

/// The key of the arrivals that may have caused a departure which lacked a permission or a channel.
fn key_of(policy: &Policy, fault: Fault, departure: &Sighting) -> Option<u64> {
    if policy.relays(departure.from) {
        return match fault {
            Fault::Unbound => key_of_channel_data(policy, departure),
            Fault::Unpermitted => key_of_sends(policy, departure),
            Fault::Unasked | Fault::Unallocated | Fault::Unfit | Fault::Unauthentic => None,
        };
    }
    match key_of_named_peer(policy, departure) {
        Some(key) => Some(key),
        None => key_of_any_peer(policy, departure),
    }
}

/// Whether it arrived, and the departure may have been sent at most `hold` after it.
fn is_in_time(policy: &Policy, arrival: &Sighting, departure: &Sighting) -> bool
    ensures { IsTrue result ↔ ((arrival.now.side ≡ sides.Arrives) × InReach policy.now.hold arrival.now departure.now) }
{
    arrival.side == Side::Arrives && in_reach(policy.hold, arrival, departure)
}

/// The last arrival that may have caused the departure, has all reasons except the fault's own, and
/// has a request for the lease that is lacking. The requests are looked up first, since a client
/// chooses how long it takes to read its message.
fn last_arrival(
    intake: &Intake,
    index: &Index<'_>,
    arrivals: Arrivals<'_>,
    credentials: &Credentials,
    fault: Fault,
    departure: &Sighting,
) -> Option<SightId>
    requires { IsIndex (taken intake.now) index.now }
{
    let leases = index.leases?;
    let before = fault_before(fault)?;
    let key = key_of(intake.policy(), fault, departure)?;
    let first = earliest(departure, intake.policy().hold, arrivals.by_key.width);
    let span = span_of_key(arrivals.by_key.places, key, first, departure.hi);
    let low = span.past.saturating_sub(MOST).max(span.first);
    let mut place = span.past;
    'places: while low < place {
        place -= 1;
        let one = arrivals.by_key.places.get(place)?;
        let arrival = intake.sighting(one.sight)?;
        if was_requested(intake, leases, fault, arrival, departure)
            && explains(intake, index, credentials, before, arrival, departure)
        {
            return Some(one.sight);
        }
    }
    None
}

/// The permission that the departure lacked.
fn lacked_permission(policy: &Policy, arrival: &Sighting, departure: &Sighting) -> Option<Grant>
    ensures { IfSome result (NeedsPermission policy.now arrival.now departure.now) }
{
    if sent_on(policy, arrival, departure) {
        return Some(Grant {
            client: arrival.from,
            listen: arrival.to,
            lease: Lease::Permission {
                ip: departure.to.ip,
            },
        });
    }
    if delivered(policy, arrival, departure)
        || delivered_in_channel(policy, arrival, departure).is_some()
    {
        return Some(Grant {
            client: departure.to,
            listen: departure.from,
            lease: Lease::Permission {
                ip: arrival.from.ip,
            },
        });
    }
    None
}

/// The channel that it lacked.
fn lacked_channel(policy: &Policy, arrival: &Sighting, departure: &Sighting) -> Option<Grant>
    ensures { IfSome result (NeedsChannel policy.now arrival.now departure.now) }
{
    if let Some(number) = sent_in_channel(policy, arrival, departure) {
        let peer = departure.to;
        return Some(Grant {
            client: arrival.from,
            listen: arrival.to,
            lease: Lease::Channel { number, peer },
        });
    }
    let number = delivered_in_channel(policy, arrival, departure)?;
    let peer = arrival.from;
    Some(Grant {
        client: departure.to,
        listen: departure.from,
        lease: Lease::Channel { number, peer },
    })
}

/// The lease that the departure lacked.
fn lacked(policy: &Policy, fault: Fault, arrival: &Sighting, departure: &Sighting) -> Option<Grant>
    ensures { IfSome result (Needs policy.now fault arrival.now departure.now) }
{
    match fault {
        Fault::Unpermitted => lacked_permission(policy, arrival, departure),
        Fault::Unbound => lacked_channel(policy, arrival, departure),
        Fault::Unasked | Fault::Unallocated | Fault::Unfit | Fault::Unauthentic => None,
    }
}

/// The last success response that granted the lease which the departure lacked, if it had expired.
/// It takes logarithmic time, plus the time to read up to `MOST` arrivals with the departure's
/// data.
pub fn last_grant(
    intake: &Intake,
    index: &Index<'_>,
    arrivals: Arrivals<'_>,
    always: &Sighting,
    credentials: &Credentials,
    fault: Fault,
    sight: SightId,
) -> Option<LastGrant>
    requires index { IsIndex (taken intake.now) index.now }
    requires always { always.now.lo ≡ 0 }
    ensures { IfSome result (IsTooEarly (taken intake.now) fault sight) }
{
    let policy = intake.policy();
    let departure = intake.sighting(sight)?;
    let leases = index.leases?;
    let arrival_on = last_arrival(intake, index, arrivals, credentials, fault, departure)?;
    let arrival = intake.sighting(arrival_on)?;
    let grant = lacked(policy, fault, arrival, departure)?;
    let request = intake.sighting(last_request(intake, leases, &grant, departure)?)?;
    let granted_on = last_success(intake, leases.answers, &grant, request)?;
    let success = intake.sighting(granted_on)?;
    if !is_in_time(policy, arrival, departure)
        || !granted(policy, &grant, always, departure, request, success)
    {
        return None;
    }
    let too_early = too_early(policy, fault, arrival, success)?;
    Some(LastGrant {
        arrival: arrival_on,
        success: granted_on,
        too_early,
    })
}
