//! Packets that may carry data of clients and that aren't read.

use crate::elsewhere::behind_ethernet;
use audit_model::Policy;
use std::hash::{DefaultHasher, Hasher};

/// The kind of a carrier.
#[derive(Clone, Copy, Debug, PartialEq, Eq, PartialOrd, Ord)]
pub enum CarrierKind {
    /// A TCP segment or an IPv6 packet.
    TcpOrIpv6,
    /// A DTLS record with application data that arrives at a listen address.
    DtlsData,
    /// Another DTLS record that arrives at the server.
    Dtls,
    /// Data that arrives at a relayed address.
    Relayed,
}

/// A packet that may carry the data of a client.
#[derive(Clone, Copy, Debug)]
pub struct Carrier {
    /// Nanoseconds since 1970.
    pub stamp: u64,
    /// Packets of one connection have the same.
    pub connection: u64,
    /// How many bytes it has after its headers.
    pub bytes: u32,
    /// The packet's number among those of its capture, from 0.
    pub packet: u32,
    /// The capture's number.
    pub capture: u16,
    /// Whether its data may continue in the next packet of its connection.
    pub goes_on: bool,
    pub kind: CarrierKind,
}

/// The place and the time of a captured packet.
#[derive(Clone, Copy)]
pub(crate) struct Captured {
    /// Nanoseconds since 1970.
    pub(crate) stamp: u64,
    /// The frame's original size in bytes, including those that weren't captured.
    pub(crate) original: u32,
    /// The packet's number among those of its capture, from 0.
    pub(crate) packet: u32,
    /// The capture's number.
    pub(crate) capture: u16,
}

/// The size of the headers of Ethernet and IPv4 in bytes, the least before a transport header.
const LEAST_HEADERS: u32 = 34;

/// Data ends at the end of a TCP segment with fewer bytes: each host must accept 536 (RFC 9293,
/// section 3.7.1).
const LEAST_FULL: u32 = 500;

const TCP: u8 = 6;

const UDP: u8 = 17;

/// The two ends of a packet, and its transport header.
#[derive(Clone, Copy)]
struct Ends<'a> {
    from: &'a [u8],
    to: &'a [u8],
    transport: &'a [u8],
    protocol: u8,
    /// Whether it arrives at the service or leaves it, if the addresses show that.
    arrives: Option<bool>,
    /// How many bytes the packet has from the transport header on.
    bytes: usize,
}

/// The carrier in a frame: a TCP or IPv6 packet that arrives at the service and has data. If
/// addresses don't show which end is the service's, it is the one with the lesser port.
pub(crate) fn carrier_in(policy: &Policy, captured: Captured, frame: &[u8]) -> Option<Carrier> {
    let (kind, packet) = behind_ethernet(frame)?;
    let ends = match kind {
        0x0800 => ends_ipv4(policy, packet)?,
        0x86DD => ends_ipv6(packet)?,
        _ => return None,
    };
    let header = match ends.protocol {
        TCP => (*ends.transport.get(12)? >> 4) as usize * 4,
        UDP => 8,
        _ => return None,
    };
    let from_port = u16_at(ends.transport, 0)?;
    let to_port = u16_at(ends.transport, 2)?;
    let bytes = u32::try_from(ends.bytes.saturating_sub(header)).unwrap_or(u32::MAX);
    if bytes == 0 || !ends.arrives.unwrap_or(to_port <= from_port) {
        return None;
    }
    let mut hasher = DefaultHasher::new();
    hasher.write(ends.from);
    hasher.write(ends.to);
    hasher.write(ends.transport.get(0..4)?);
    Some(Carrier {
        stamp: captured.stamp,
        connection: hasher.finish(),
        // The length in a header may be greater than the frame.
        bytes: bytes.min(captured.original.saturating_sub(LEAST_HEADERS)),
        packet: captured.packet,
        capture: captured.capture,
        goes_on: ends.protocol == TCP && bytes >= LEAST_FULL,
        kind: CarrierKind::TcpOrIpv6,
    })
}

fn ends_ipv4<'a>(policy: &Policy, packet: &'a [u8]) -> Option<Ends<'a>> {
    let header = (*packet.first()? & 15) as usize * 4;
    let protocol = *packet.get(9)?;
    if protocol != TCP {
        return None;
    }
    // A segment that the network card is going to split can have length 0.
    let whole = match u16_at(packet, 2)? {
        0 => packet.len(),
        length => length as usize,
    };
    let (from, to) = (packet.get(12..16)?, packet.get(16..20)?);
    let arrives = if policy.service_ip(ip_in(to)?) {
        Some(true)
    } else if policy.service_ip(ip_in(from)?) {
        Some(false)
    } else {
        None
    };
    Some(Ends {
        from,
        to,
        transport: packet.get(header..)?,
        protocol,
        arrives,
        bytes: whole.saturating_sub(header),
    })
}

fn ends_ipv6(packet: &[u8]) -> Option<Ends<'_>> {
    let behind = packet.len().saturating_sub(40);
    Some(Ends {
        from: packet.get(8..24)?,
        to: packet.get(24..40)?,
        transport: packet.get(40..)?,
        protocol: *packet.get(6)?,
        arrives: None,
        bytes: match u16_at(packet, 4)? {
            0 => behind,
            length => length as usize,
        },
    })
}

fn ip_in(bytes: &[u8]) -> Option<u32> {
    match bytes {
        [a, b, c, d] => Some(u32::from_be_bytes([*a, *b, *c, *d])),
        _ => None,
    }
}

fn u16_at(bytes: &[u8], at: usize) -> Option<u16> {
    match bytes.get(at..)? {
        [high, low, ..] => Some(u16::from_be_bytes([*high, *low])),
        _ => None,
    }
}
