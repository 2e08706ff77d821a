//! Whether an arrival explains a departure, by the reasons that a fault's check includes.

ghost use Rattle.std.specs.Prelude.{◌⊎◌, ◌↔◌, IsTrue, Some};
ghost use Rattle.audit_model.specs.declared.sighting.Sighting.{Sighting};
ghost use Rattle.audit_sightings.specs.Intake.{taken};
ghost use Rattle.audit_keys.specs.KeyFor.{key_for};
ghost use Rattle.audit_faults.specs.Index.{IsIndex};
ghost use Rattle.audit_stun.specs.Message.{IsMessage};
ghost use Rattle.audit_stun.specs.Parts.{parts_of};
ghost use Rattle.audit_faults.specs.Causes.{AnswersAnybody, IsByUser, Responds};
ghost use Rattle.audit_faults.specs.Explains.{Holds, SentOnHeld, SentInChannelHeld, DeliveredHeld, DeliveredInChannelHeld, IsProved, Explains};

use crate::causes::{
    delivered, delivered_in_channel, in_reach, responds, sent_in_channel, sent_on,
};
use crate::fault::{Fault, Grant, Lease};
use crate::fits::is_fit;
use crate::held::has_grant;
use crate::index::Index;
use crate::values::{is_by_user, message_in};
use audit_keys::Credentials;
use audit_model::{Addr, Policy, Side, Sighting};
use audit_sightings::Intake;
use audit_stun::Class;
use audit_stun::numbers::method::BINDING;

/// Whether the client has the lease, if the fault's check includes it.
pub fn holds(
    intake: &Intake,
    index: &Index<'_>,
    fault: Fault,
    client: Addr,
    listen: Addr,
    lease: Lease,
    arrival: &Sighting,
    departure: &Sighting,
) -> bool
    requires { IsIndex (taken intake.now) index.now }
    ensures { IsTrue result ↔ Holds (taken intake.now) fault client listen lease arrival.now departure.now }
{
    let grant = Grant {
        client,
        listen,
        lease,
    };
    match (fault, lease) {
        (Fault::Unasked, _) => true,
        (Fault::Unallocated, Lease::Permission { ip: _ }) => true,
        (Fault::Unallocated, Lease::Channel { number: _, peer: _ }) => true,
        (Fault::Unpermitted, Lease::Channel { number: _, peer: _ }) => true,
        _ => has_grant(intake, index, &grant, arrival, departure),
    }
}

/// A Send indication's data, with an allocation and a permission.
fn sent_on_held(
    intake: &Intake,
    index: &Index<'_>,
    fault: Fault,
    arrival: &Sighting,
    departure: &Sighting,
) -> bool
    requires { IsIndex (taken intake.now) index.now }
    ensures { IsTrue result ↔ SentOnHeld (taken intake.now) fault arrival.now departure.now }
{
    let relayed = Lease::Allocation {
        relayed: departure.from,
    };
    let permission = Lease::Permission {
        ip: departure.to.ip,
    };
    sent_on(intake.policy(), arrival, departure)
        && holds(
            intake,
            index,
            fault,
            arrival.from,
            arrival.to,
            relayed,
            arrival,
            departure,
        )
        && holds(
            intake,
            index,
            fault,
            arrival.from,
            arrival.to,
            permission,
            arrival,
            departure,
        )
}

/// A client's ChannelData, with an allocation and a channel.
fn sent_in_channel_held(
    intake: &Intake,
    index: &Index<'_>,
    fault: Fault,
    arrival: &Sighting,
    departure: &Sighting,
) -> bool
    requires { IsIndex (taken intake.now) index.now }
    ensures { IsTrue result ↔ SentInChannelHeld (taken intake.now) fault arrival.now departure.now }
{
    let Some(number) = sent_in_channel(intake.policy(), arrival, departure) else {
        return false;
    };
    let relayed = Lease::Allocation {
        relayed: departure.from,
    };
    let channel = Lease::Channel {
        number,
        peer: departure.to,
    };
    holds(
        intake,
        index,
        fault,
        arrival.from,
        arrival.to,
        relayed,
        arrival,
        departure,
    ) && holds(
        intake,
        index,
        fault,
        arrival.from,
        arrival.to,
        channel,
        arrival,
        departure,
    )
}

/// A Data indication, with an allocation and a permission.
fn delivered_held(
    intake: &Intake,
    index: &Index<'_>,
    fault: Fault,
    arrival: &Sighting,
    departure: &Sighting,
) -> bool
    requires { IsIndex (taken intake.now) index.now }
    ensures { IsTrue result ↔ DeliveredHeld (taken intake.now) fault arrival.now departure.now }
{
    let relayed = Lease::Allocation {
        relayed: arrival.to,
    };
    let permission = Lease::Permission {
        ip: arrival.from.ip,
    };
    delivered(intake.policy(), arrival, departure)
        && holds(
            intake,
            index,
            fault,
            departure.to,
            departure.from,
            relayed,
            arrival,
            departure,
        )
        && holds(
            intake,
            index,
            fault,
            departure.to,
            departure.from,
            permission,
            arrival,
            departure,
        )
}

/// ChannelData to a client, with an allocation, a permission and a channel.
fn delivered_in_channel_held(
    intake: &Intake,
    index: &Index<'_>,
    fault: Fault,
    arrival: &Sighting,
    departure: &Sighting,
) -> bool
    requires { IsIndex (taken intake.now) index.now }
    ensures { IsTrue result ↔ DeliveredInChannelHeld (taken intake.now) fault arrival.now departure.now }
{
    let Some(number) = delivered_in_channel(intake.policy(), arrival, departure) else {
        return false;
    };
    let relayed = Lease::Allocation {
        relayed: arrival.to,
    };
    let permission = Lease::Permission {
        ip: arrival.from.ip,
    };
    let channel = Lease::Channel {
        number,
        peer: arrival.from,
    };
    holds(
        intake,
        index,
        fault,
        departure.to,
        departure.from,
        relayed,
        arrival,
        departure,
    ) && holds(
        intake,
        index,
        fault,
        departure.to,
        departure.from,
        permission,
        arrival,
        departure,
    ) && holds(
        intake,
        index,
        fault,
        departure.to,
        departure.from,
        channel,
        arrival,
        departure,
    )
}

/// Whether the response is one that anybody may get, or its request is authentic by a user.
fn is_proved(credentials: &Credentials, arrival: &[u8], departure: &[u8]) -> bool
    requires arrival { IsMessage arrival.now (parts_of arrival.now) }
    requires departure { IsMessage departure.now (parts_of departure.now) }
    ensures { IsTrue result ↔ (AnswersAnybody departure.now ⊎ IsByUser (key_for credentials.now) arrival.now) }
{
    let Some(response) = message_in(departure) else {
        return false;
    };
    let Some(request) = message_in(arrival) else {
        return false;
    };
    if response.class() == Class::Error || response.method() == BINDING {
        return true;
    }
    is_by_user(credentials, &request)
}

/// A response to a request: if the fault's check includes it, the response fits the request, and
/// the request is authentic by a user.
fn responds_held(
    policy: &Policy,
    credentials: &Credentials,
    fault: Fault,
    arrival: &Sighting,
    departure: &Sighting,
) -> bool
    ensures { IsTrue result ↔ (Responds policy.now arrival.now departure.now × IsProved (key_for credentials.now) fault arrival.now departure.now) }
{
    if !responds(policy, arrival, departure) {
        return false;
    }
    match fault {
        Fault::Unasked => true,
        Fault::Unallocated => true,
        Fault::Unpermitted => true,
        Fault::Unbound => true,
        Fault::Unfit => is_fit(arrival, departure),
        Fault::Unauthentic => {
            is_fit(arrival, departure)
                && is_proved(
                    credentials,
                    arrival.payload.as_slice(),
                    departure.payload.as_slice(),
                )
        }
    }
}

/// Whether the datagram arrived in time, and caused the departure with all reasons that the fault's
/// check includes.
pub fn explains(
    intake: &Intake,
    index: &Index<'_>,
    credentials: &Credentials,
    fault: Fault,
    arrival: &Sighting,
    departure: &Sighting,
) -> bool
    requires { IsIndex (taken intake.now) index.now }
    ensures { IsTrue result ↔ Explains (taken intake.now) (key_for credentials.now) fault arrival.now departure.now }
{
    if arrival.side != Side::Arrives || !in_reach(intake.policy().hold, arrival, departure) {
        return false;
    }
    responds_held(intake.policy(), credentials, fault, arrival, departure)
        || sent_on_held(intake, index, fault, arrival, departure)
        || sent_in_channel_held(intake, index, fault, arrival, departure)
        || delivered_held(intake, index, fault, arrival, departure)
        || delivered_in_channel_held(intake, index, fault, arrival, departure)
}
