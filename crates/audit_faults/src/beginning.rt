//! Whether a lease that a departure lacked was ever granted to a client whose datagram may have
//! caused it, whether the lease had expired or not.

ghost use Rattle.std.specs.Prelude.{◌≡◌, ◌↔◌, IsTrue};
ghost use Rattle.audit_sightings.specs.Intake.{taken};
ghost use Rattle.audit_faults.specs.Beginning.{WasGranted, WasWanted, SentOnOnce, SentInChannelOnce, DeliveredOnce, DeliveredInChannelOnce, Begins};
ghost use Rattle.audit_faults.specs.Index.{IsIndex};

use crate::causes::{delivered, delivered_in_channel, in_reach, sent_in_channel, sent_on};
use crate::fault::{Fault, Grant, Lease};
use crate::held::has_grant;
use crate::index::Index;
use audit_model::{Addr, Side, Sighting};
use audit_sightings::Intake;

/// Whether the lease was granted, by a request that may have come no later than that departure
/// left. `always` begins at moment 0, at which no lease has expired.
fn was_granted(
    intake: &Intake,
    index: &Index<'_>,
    grant: &Grant,
    always: &Sighting,
    left: &Sighting,
) -> bool
    requires index { IsIndex (taken intake.now) index.now }
    requires always { always.now.lo ≡ 0 }
    ensures { IsTrue result ↔ WasGranted (taken intake.now) left.now.hi grant.now }
{
    has_grant(intake, index, grant, always, left)
}

/// Whether the client was granted the lease, if the fault's check includes it.
fn was_wanted(
    intake: &Intake,
    index: &Index<'_>,
    fault: Fault,
    client: Addr,
    listen: Addr,
    lease: Lease,
    always: &Sighting,
    left: &Sighting,
) -> bool
    requires index { IsIndex (taken intake.now) index.now }
    requires always { always.now.lo ≡ 0 }
    ensures { IsTrue result ↔ WasWanted (taken intake.now) fault left.now.hi client listen lease }
{
    let grant = Grant {
        client,
        listen,
        lease,
    };
    match (fault, lease) {
        (Fault::Unasked, _) => true,
        (Fault::Unallocated, Lease::Permission { ip: _ }) => true,
        (Fault::Unallocated, Lease::Channel { number: _, peer: _ }) => true,
        (Fault::Unpermitted, Lease::Channel { number: _, peer: _ }) => true,
        _ => was_granted(intake, index, &grant, always, left),
    }
}

/// A Send indication's data, from a client that was ever granted an allocation and a permission.
fn sent_on_once(
    intake: &Intake,
    index: &Index<'_>,
    fault: Fault,
    always: &Sighting,
    left: &Sighting,
    arrival: &Sighting,
    departure: &Sighting,
) -> bool
    requires index { IsIndex (taken intake.now) index.now }
    requires always { always.now.lo ≡ 0 }
    ensures { IsTrue result ↔ SentOnOnce (taken intake.now) fault left.now.hi arrival.now departure.now }
{
    let relayed = Lease::Allocation {
        relayed: departure.from,
    };
    let permission = Lease::Permission {
        ip: departure.to.ip,
    };
    // The leases come first, since a client chooses how long it takes to read its message.
    was_wanted(
        intake,
        index,
        fault,
        arrival.from,
        arrival.to,
        relayed,
        always,
        left,
    ) && was_wanted(
        intake,
        index,
        fault,
        arrival.from,
        arrival.to,
        permission,
        always,
        left,
    ) && sent_on(intake.policy(), arrival, departure)
}

/// ChannelData from a client that was ever granted an allocation and the channel.
fn sent_in_channel_once(
    intake: &Intake,
    index: &Index<'_>,
    fault: Fault,
    always: &Sighting,
    left: &Sighting,
    arrival: &Sighting,
    departure: &Sighting,
) -> bool
    requires index { IsIndex (taken intake.now) index.now }
    requires always { always.now.lo ≡ 0 }
    ensures { IsTrue result ↔ SentInChannelOnce (taken intake.now) fault left.now.hi arrival.now departure.now }
{
    let Some(number) = sent_in_channel(intake.policy(), arrival, departure) else {
        return false;
    };
    let allocation = Lease::Allocation {
        relayed: departure.from,
    };
    let channel = Lease::Channel {
        number,
        peer: departure.to,
    };
    was_wanted(
        intake,
        index,
        fault,
        arrival.from,
        arrival.to,
        allocation,
        always,
        left,
    ) && was_wanted(
        intake,
        index,
        fault,
        arrival.from,
        arrival.to,
        channel,
        always,
        left,
    )
}

/// A Data indication to a client that was ever granted an allocation and a permission.
fn delivered_once(
    intake: &Intake,
    index: &Index<'_>,
    fault: Fault,
    always: &Sighting,
    left: &Sighting,
    arrival: &Sighting,
    departure: &Sighting,
) -> bool
    requires index { IsIndex (taken intake.now) index.now }
    requires always { always.now.lo ≡ 0 }
    ensures { IsTrue result ↔ DeliveredOnce (taken intake.now) fault left.now.hi arrival.now departure.now }
{
    let relayed = Lease::Allocation {
        relayed: arrival.to,
    };
    let permission = Lease::Permission {
        ip: arrival.from.ip,
    };
    delivered(intake.policy(), arrival, departure)
        && was_wanted(
            intake,
            index,
            fault,
            departure.to,
            departure.from,
            relayed,
            always,
            left,
        )
        && was_wanted(
            intake,
            index,
            fault,
            departure.to,
            departure.from,
            permission,
            always,
            left,
        )
}

/// ChannelData to a client that was ever granted an allocation, a permission and the channel.
fn delivered_in_channel_once(
    intake: &Intake,
    index: &Index<'_>,
    fault: Fault,
    always: &Sighting,
    left: &Sighting,
    arrival: &Sighting,
    departure: &Sighting,
) -> bool
    requires index { IsIndex (taken intake.now) index.now }
    requires always { always.now.lo ≡ 0 }
    ensures { IsTrue result ↔ DeliveredInChannelOnce (taken intake.now) fault left.now.hi arrival.now departure.now }
{
    let Some(number) = delivered_in_channel(intake.policy(), arrival, departure) else {
        return false;
    };
    let allocation = Lease::Allocation {
        relayed: arrival.to,
    };
    let permission = Lease::Permission {
        ip: arrival.from.ip,
    };
    let channel = Lease::Channel {
        number,
        peer: arrival.from,
    };
    was_wanted(
        intake,
        index,
        fault,
        departure.to,
        departure.from,
        allocation,
        always,
        left,
    ) && was_wanted(
        intake,
        index,
        fault,
        departure.to,
        departure.from,
        permission,
        always,
        left,
    ) && was_wanted(
        intake,
        index,
        fault,
        departure.to,
        departure.from,
        channel,
        always,
        left,
    )
}

/// Whether the arrival may have caused the departure in time, for a client that was granted the
/// leases of the fault's check by a request which may have come no later than `left` left.
pub fn begins(
    intake: &Intake,
    index: &Index<'_>,
    fault: Fault,
    always: &Sighting,
    left: &Sighting,
    arrival: &Sighting,
    departure: &Sighting,
) -> bool
    requires index { IsIndex (taken intake.now) index.now }
    requires always { always.now.lo ≡ 0 }
    ensures { IsTrue result ↔ Begins (taken intake.now) fault left.now.hi departure.now arrival.now }
{
    if arrival.side != Side::Arrives || !in_reach(intake.policy().hold, arrival, departure) {
        return false;
    }
    sent_on_once(intake, index, fault, always, left, arrival, departure)
        || sent_in_channel_once(intake, index, fault, always, left, arrival, departure)
        || delivered_once(intake, index, fault, always, left, arrival, departure)
        || delivered_in_channel_once(intake, index, fault, always, left, arrival, departure)
}
