//! Finds the datagram of a frame.

ghost use Rattle.std.specs.Prelude.{◌≡◌, ◌↔◌, ℕ, ◌+◌, ◌≤◌, List, length, nat_lt};
ghost use Rattle.audit_model.specs.declared.address.Addr.{Addr};
ghost use Rattle.audit_packets.specs.Reading.{datagram_of, ip_datagram, udp_datagram};
ghost use Rattle.audit_packets.specs.Headers.{ipv4_of};
ghost use Rattle.audit_packets.specs.Spelled.{HoldsUdp};
ghost use Rattle.audit_packets.specs.View.{view, IsUdp};

use crate::ethernet::content;
use crate::ipv4::Ipv4;
use crate::numbers::{IPV4_TYPE, UDP_HEADER};
use crate::seen::Seen;
use crate::udp::Udp;
use audit_model::Addr;
use audit_pcapng::{Packet, PacketSlice};

/// The content of the packet's frame: Ethernet, at most two VLAN tags, IPv4 and UDP. The payload is
/// a part of the frame. A frame that ends too early is cut if less was captured than the link had.
pub fn datagram(packet: &Packet) -> Seen<'_>
    // The fields at the places in the frame, in their order.
    ensures places { view result
        ≡ datagram_of packet.now.bytes (nat_lt packet.now.captured packet.now.original) }
    // It is a UDP datagram exactly if the frame is spelled as one.
    ensures udp { (from to : Addr) (payload : List ℕ)
        → IsUdp result from to payload ↔ HoldsUdp packet.now.bytes from to payload }
{
    let frame = packet.bytes.as_slice();
    let is_cut = packet.captured < packet.original;
    seen_in(frame, is_cut)
}

/// The content of the frame of a packet with borrowed bytes, as `datagram` finds it.
pub fn slice_datagram<'a>(packet: PacketSlice<'a>) -> Seen<'a>
    ensures { view result
        ≡ datagram_of packet.entry.bytes.now (nat_lt packet.entry.captured packet.entry.original) }
{
    seen_in(packet.bytes, packet.captured < packet.original)
}

/// The content of a frame. `is_cut` is whether the link had more of it.
#[tactic(auto, unfolding(crate::specs::Reading::datagram_of))]
fn seen_in(frame: &[u8], is_cut: bool) -> Seen<'_>
    ensures { view result ≡ datagram_of frame.now is_cut }
{
    let Some((kind, at)) = content(frame) else {
        return Seen::lacking(is_cut, None);
    };
    if kind != IPV4_TYPE {
        return Seen::Other;
    }
    behind_ethernet(frame, is_cut, at)
}

/// The content of the frame whose IPv4 header is at this place.
#[tactic(auto, unfolding(crate::specs::Reading::ip_datagram))]
fn behind_ethernet(frame: &[u8], is_cut: bool, at: usize) -> Seen<'_>
    requires { at ≤ 22 }
    ensures { view result ≡ ip_datagram frame.now is_cut at }
{
    let Some(ip) = Ipv4::read(frame, at) else {
        return Seen::lacking(is_cut, None);
    };
    if !ip.carries_udp() {
        return Seen::Other;
    }
    if ip.is_fragment {
        return Seen::Fragment {
            from: ip.from,
            to: ip.to,
        };
    }
    behind_ipv4(frame, is_cut, &ip, at + ip.header_length)
}

/// The content of the frame whose UDP header is at this place.
#[tactic(auto, unfolding(crate::specs::Reading::udp_datagram))]
fn behind_ipv4<'a>(frame: &'a [u8], is_cut: bool, ip: &Ipv4, at: usize) -> Seen<'a>
    requires header { ip.now.header_length ≤ 60 }
    requires place { at ≤ 82 }
    ensures { view result ≡ udp_datagram frame.now is_cut (ipv4_of ip.now) at }
{
    let ips = Some((ip.from, ip.to));
    let Some(udp) = Udp::read(frame, at) else {
        return Seen::lacking(is_cut, ips);
    };
    if !udp.fits_in(ip) {
        return Seen::Other;
    }
    if frame.len() < at + udp.length {
        return Seen::lacking(is_cut, ips);
    }
    Seen::Udp {
        from: Addr {
            ip: ip.from,
            port: udp.from,
        },
        to: Addr {
            ip: ip.to,
            port: udp.to,
        },
        // what follows is padding of the link
        payload: &frame[at + UDP_HEADER..at + udp.length],
    }
}
