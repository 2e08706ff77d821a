//! Finds the datagram of the service in a packet.

ghost use Rattle.std.specs.Prelude.{◌≡◌, ◌||◌};
ghost use Rattle.audit_model.specs.Policy.{is_of_service};
ghost use Rattle.audit_pcapng.specs.Packets.{packet_of};
ghost use Rattle.audit_packets.specs.View.{view as view_seen};
ghost use Rattle.audit_sightings.specs.ServiceDatagram.{service_datagram_of, kept_datagram, kept_by_ends, is_endpoint};
ghost use Rattle.audit_sightings.specs.View.{view_found};

use crate::fault::IntakeFaultKind;
use audit_model::{Addr, Policy, Side};
use audit_packets::{Seen, slice_datagram};
use audit_pcapng::PacketSlice;

/// A datagram with one endpoint in the service, in a packet.
#[derive(Clone, Copy)]
pub struct ServiceDatagram<'a> {
    /// Nanoseconds since 1970.
    pub stamp: u64,
    pub side: Side,
    pub from: Addr,
    pub to: Addr,
    pub payload: &'a [u8],
}

/// The packet's datagram if it is one of the service, or why the capture is refused.
#[tactic(auto, unfolding(crate::specs::ServiceDatagram::service_datagram_of))]
pub fn service_datagram<'a>(
    policy: &Policy,
    packet: PacketSlice<'a>,
) -> Result<Option<ServiceDatagram<'a>>, IntakeFaultKind>
    ensures { view_found result ≡ service_datagram_of policy.now (packet_of packet.entry) }
{
    kept_seen(policy, packet.stamp, slice_datagram(packet))
}

fn kept_seen<'a>(
    policy: &Policy,
    stamp: u64,
    seen: Seen<'a>,
) -> Result<Option<ServiceDatagram<'a>>, IntakeFaultKind>
    ensures { view_found result ≡ kept_datagram policy.now stamp (view_seen seen.entry) }
{
    match seen {
        Seen::Udp { from, to, payload } => kept_udp(policy, stamp, from, to, payload),
        Seen::Other => Ok(None),
        Seen::Fragment { from, to } => {
            if touches_service(policy, from, to) {
                return Err(IntakeFaultKind::Fragment);
            }
            Ok(None)
        }
        Seen::Cut { ips: None } => Err(IntakeFaultKind::CutDatagram),
        Seen::Cut {
            ips: Some((from, to)),
        } => {
            if touches_service(policy, from, to) {
                return Err(IntakeFaultKind::CutDatagram);
            }
            Ok(None)
        }
    }
}

fn kept_udp<'a>(
    policy: &Policy,
    stamp: u64,
    from: Addr,
    to: Addr,
    payload: &'a [u8],
) -> Result<Option<ServiceDatagram<'a>>, IntakeFaultKind>
    ensures { view_found result
        ≡ kept_by_ends (is_endpoint policy.now from) (is_endpoint policy.now to) stamp from to payload.now }
{
    let leaves = is_of_endpoint(policy, from);
    let arrives = is_of_endpoint(policy, to);
    let side = match (leaves, arrives) {
        (true, true) => return Err(IntakeFaultKind::Hairpin),
        (true, false) => Side::Leaves,
        (false, true) => Side::Arrives,
        (false, false) => return Ok(None),
    };
    Ok(Some(ServiceDatagram {
        stamp,
        side,
        from,
        to,
        payload,
    }))
}

fn is_of_endpoint(policy: &Policy, addr: Addr) -> bool
    ensures { result ≡ is_endpoint policy.now addr }
{
    policy.listens(addr) || policy.relays(addr)
}

fn touches_service(policy: &Policy, from: u32, to: u32) -> bool
    ensures { result ≡ (is_of_service policy.now from || is_of_service policy.now to) }
{
    policy.service_ip(from) || policy.service_ip(to)
}
