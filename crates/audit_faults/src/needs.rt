//! Whether a departure has the leases that it needs, whatever the arrival contains. For long
//! arrivals this is checked first, since their senders choose how long it takes to read them.

ghost use Rattle.std.specs.Prelude.{IsTrue};
ghost use Rattle.audit_rules.specs.Keys.{KeyFor};
ghost use Rattle.audit_sightings.specs.Intake.{taken};
ghost use Rattle.audit_faults.specs.Explains.{SentOnHeld, SentInChannelHeld, DeliveredHeld, DeliveredInChannelHeld, Explains};
ghost use Rattle.audit_faults.specs.Index.{IsIndex};

use crate::explains::holds;
use crate::fault::{Fault, Lease};
use crate::index::Index;
use crate::values::message_in;
use audit_model::Sighting;
use audit_sightings::Intake;
use audit_stun::channel_data;

/// Whether there is an allocation and a permission for the data of a client's Send indication.
fn may_be_sent_on(
    intake: &Intake,
    index: &Index<'_>,
    fault: Fault,
    arrival: &Sighting,
    departure: &Sighting,
) -> bool
    requires { IsIndex (taken intake.now) index.now }
    ensures { SentOnHeld (taken intake.now) fault arrival.now departure.now → IsTrue result }
{
    let relayed = Lease::Allocation {
        relayed: departure.from,
    };
    let permission = Lease::Permission {
        ip: departure.to.ip,
    };
    holds(
        intake,
        index,
        fault,
        arrival.from,
        arrival.to,
        relayed,
        arrival,
        departure,
    ) && holds(
        intake,
        index,
        fault,
        arrival.from,
        arrival.to,
        permission,
        arrival,
        departure,
    )
}

/// Whether there is an allocation and the channel for the data of a client's ChannelData.
fn may_be_sent_in_channel(
    intake: &Intake,
    index: &Index<'_>,
    fault: Fault,
    arrival: &Sighting,
    departure: &Sighting,
) -> bool
    requires { IsIndex (taken intake.now) index.now }
    ensures { SentInChannelHeld (taken intake.now) fault arrival.now departure.now → IsTrue result }
{
    let Some((number, _, _)) = channel_data(arrival.payload.as_slice()) else {
        return false;
    };
    let relayed = Lease::Allocation {
        relayed: departure.from,
    };
    let channel = Lease::Channel {
        number,
        peer: departure.to,
    };
    holds(
        intake,
        index,
        fault,
        arrival.from,
        arrival.to,
        relayed,
        arrival,
        departure,
    ) && holds(
        intake,
        index,
        fault,
        arrival.from,
        arrival.to,
        channel,
        arrival,
        departure,
    )
}

/// Whether there is an allocation and a permission for a peer's data in a Data indication.
fn may_be_delivered(
    intake: &Intake,
    index: &Index<'_>,
    fault: Fault,
    arrival: &Sighting,
    departure: &Sighting,
) -> bool
    requires { IsIndex (taken intake.now) index.now }
    ensures { DeliveredHeld (taken intake.now) fault arrival.now departure.now → IsTrue result }
{
    let relayed = Lease::Allocation {
        relayed: arrival.to,
    };
    let permission = Lease::Permission {
        ip: arrival.from.ip,
    };
    holds(
        intake,
        index,
        fault,
        departure.to,
        departure.from,
        relayed,
        arrival,
        departure,
    ) && holds(
        intake,
        index,
        fault,
        departure.to,
        departure.from,
        permission,
        arrival,
        departure,
    ) && message_in(departure.payload.as_slice()).is_some()
}

/// Whether there is an allocation and the channel for a peer's data in ChannelData.
fn may_be_delivered_in_channel(
    intake: &Intake,
    index: &Index<'_>,
    fault: Fault,
    arrival: &Sighting,
    departure: &Sighting,
) -> bool
    requires { IsIndex (taken intake.now) index.now }
    ensures { DeliveredInChannelHeld (taken intake.now) fault arrival.now departure.now → IsTrue result }
{
    let Some((number, _, _)) = channel_data(departure.payload.as_slice()) else {
        return false;
    };
    let relayed = Lease::Allocation {
        relayed: arrival.to,
    };
    let channel = Lease::Channel {
        number,
        peer: arrival.from,
    };
    holds(
        intake,
        index,
        fault,
        departure.to,
        departure.from,
        relayed,
        arrival,
        departure,
    ) && holds(
        intake,
        index,
        fault,
        departure.to,
        departure.from,
        channel,
        arrival,
        departure,
    )
}

/// Whether the departure is a response on the path of the arrival, or has the leases that it needs
/// to be relayed for it. If not, the arrival doesn't explain it.
pub fn has_needed_leases(
    intake: &Intake,
    index: &Index<'_>,
    fault: Fault,
    arrival: &Sighting,
    departure: &Sighting,
) -> bool
    requires { IsIndex (taken intake.now) index.now }
    ensures { (key_for : KeyFor) → Explains (taken intake.now) key_for fault arrival.now departure.now → IsTrue result }
{
    arrival.to == departure.from
        || may_be_sent_on(intake, index, fault, arrival, departure)
        || may_be_sent_in_channel(intake, index, fault, arrival, departure)
        || may_be_delivered(intake, index, fault, arrival, departure)
        || may_be_delivered_in_channel(intake, index, fault, arrival, departure)
}
