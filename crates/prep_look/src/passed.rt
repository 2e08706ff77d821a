//! Frames that aren't datagrams of the service.

ghost use Rattle.std.specs.Prelude.{◌≤◌};

use audit_model::Addr;
use prep_frames::{byte_at, content_place, number_at};
use std::fmt;

/// Why a frame is skipped. The reasons are in the order of the page.
#[derive(Clone, Copy, Debug, PartialEq, Eq, PartialOrd, Ord)]
pub(crate) enum Passed {
    Arp,
    /// Truncated, with too little captured to know more.
    Cut,
    /// UDP over IPv4 with no end in the service.
    Elsewhere,
    /// Another Ethernet type.
    Ethertype,
    /// A fragment of UDP over IPv4.
    Fragment,
    Icmp,
    /// An IPv4 header whose fields contradict one another.
    Ipv4,
    Ipv6,
    /// Another protocol over IPv4.
    Protocol,
    /// A frame that ends within a header.
    Short,
    Tcp,
    /// UDP whose lengths contradict one another.
    Udp,
}

/// The word on the page.
impl fmt::Display for Passed {
    fn fmt<W: fmt::Write>(&self, f: &mut fmt::Formatter<W>) -> fmt::Result {
        f.write_str(match self {
            Passed::Arp => "arp",
            Passed::Cut => "cut",
            Passed::Elsewhere => "elsewhere",
            Passed::Ethertype => "ethertype",
            Passed::Fragment => "fragment",
            Passed::Icmp => "icmp",
            Passed::Ipv4 => "ipv4",
            Passed::Ipv6 => "ipv6",
            Passed::Protocol => "protocol",
            Passed::Short => "short",
            Passed::Tcp => "tcp",
            Passed::Udp => "udp",
        })
    }
}

/// Ethernet types.
const IPV4: u16 = 0x0800;

const ARP: u16 = 0x0806;

const IPV6: u16 = 0x86DD;

/// The size of an IPv4 header without options in bytes (RFC 791).
const IPV4_HEADER: usize = 20;

/// The size of a UDP header in bytes (RFC 768).
const UDP_HEADER: usize = 8;

/// Why a frame is skipped that is no datagram, no fragment of one and not truncated.
pub(crate) fn passed_as(frame: &[u8]) -> Passed {
    let at = content_place(frame);
    if frame.len() < at {
        return Passed::Short;
    }
    match number_at(frame, at.saturating_sub(2)) {
        IPV4 => passed_ipv4(frame, at),
        ARP => Passed::Arp,
        IPV6 => Passed::Ipv6,
        _ => Passed::Ethertype,
    }
}

/// The size of the IPv4 header at an offset, in bytes.
fn header_length(frame: &[u8], at: usize) -> usize
    ensures { result ≤ 60 }
{
    (byte_at(frame, at) & 15) as usize * 4
}

fn passed_ipv4(frame: &[u8], at: usize) -> Passed
    requires { at ≤ 22 }
{
    if frame.len() < at + IPV4_HEADER {
        return Passed::Short;
    }
    let header = header_length(frame, at);
    let total = usize::from(number_at(frame, at + 2));
    if byte_at(frame, at) >> 4 != 4 || header < IPV4_HEADER || total < header {
        return Passed::Ipv4;
    }
    match byte_at(frame, at + 9) {
        1 => Passed::Icmp,
        6 => Passed::Tcp,
        17 => passed_udp(frame, (at + header).min(82), total.saturating_sub(header)),
        _ => Passed::Protocol,
    }
}

/// The reason for the UDP header at an offset; the header and its payload have `room` bytes of the
/// packet.
fn passed_udp(frame: &[u8], at: usize, room: usize) -> Passed
    requires { at ≤ 82 }
{
    if frame.len() < at + UDP_HEADER {
        return Passed::Short;
    }
    let length = usize::from(number_at(frame, at + 4));
    if room < length || length < UDP_HEADER {
        Passed::Udp
    } else {
        Passed::Short
    }
}

/// The destination of a UDP datagram in an ICMP error "port unreachable" (RFC 792: type 3, code 3).
pub(crate) fn closed_in(frame: &[u8]) -> Option<Addr> {
    let at = content_place(frame);
    let error = frame.get(at + header_length(frame, at)..)?;
    let [3, 3, _, _, _, _, _, _, sent @ ..] = error else {
        return None;
    };
    if byte_at(sent, 9) != 17 {
        return None;
    }
    let [a, b, c, d] = sent.get(16..20)? else {
        return None;
    };
    let [high, low] = sent.get(22..24)? else {
        return None;
    };
    Some(Addr {
        ip: u32::from_be_bytes([*a, *b, *c, *d]),
        port: u16::from_be_bytes([*high, *low]),
    })
}
