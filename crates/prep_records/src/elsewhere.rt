//! Relayed addresses that are granted over TCP or IPv6, if the responses can be parsed.

use crate::record::UnreadGrant;
use audit_model::{Addr, Policy};
use audit_stun::numbers::attribute::XOR_RELAYED_ADDRESS;
use audit_stun::{address, message};
use prep_cut::FarEnd;
use std::alloc::AllocError;

/// At most this number of messages is tried in a frame, so that the cost is bounded.
const MOST_TRIED: usize = 16;

/// Adds the relayed addresses in the Allocate success responses of a frame with TCP over IPv4, or
/// IPv6.
pub fn note_granted_address(
    policy: &Policy,
    stamp: u64,
    frame: &[u8],
    grants: &mut Vec<UnreadGrant>,
) -> Result<(), AllocError> {
    let Some(client) = far_end(frame) else {
        return Ok(());
    };
    let mut tried = 0;
    for at in 0..frame.len() {
        let [0x01, 0x03, high, low, 0x21, 0x12, 0xA4, 0x42, ..] = &frame[at..] else {
            continue;
        };
        if tried >= MOST_TRIED {
            return Ok(());
        }
        tried += 1;
        let length = 20 + u16::from_be_bytes([*high, *low]) as usize;
        let Some(bytes) = frame[at..].get(..length) else {
            continue;
        };
        if let Some(relayed) = relayed_in(bytes) {
            if policy.relays(relayed) {
                grants.push(UnreadGrant {
                    stamp,
                    relayed,
                    client,
                })?;
            }
        }
    }
    Ok(())
}

fn relayed_in(bytes: &[u8]) -> Option<Addr> {
    address(message(bytes)?.first(XOR_RELAYED_ADDRESS)?)
}

/// The packet after the Ethernet header and up to two VLAN tags, with its type.
pub(crate) fn behind_ethernet(frame: &[u8]) -> Option<(u16, &[u8])> {
    let mut rest = frame.get(12..)?;
    for _ in 0..3 {
        let [high, low, behind @ ..] = rest else {
            return None;
        };
        let kind = u16::from_be_bytes([*high, *low]);
        if kind != 0x8100 && kind != 0x88A8 {
            return Some((kind, behind));
        }
        rest = behind.get(2..)?;
    }
    None
}

/// The destination of a TCP segment over IPv4, or of an IPv6 packet.
fn far_end(frame: &[u8]) -> Option<FarEnd> {
    let (kind, packet) = behind_ethernet(frame)?;
    match kind {
        0x0800 => far_end_ipv4(packet),
        0x86DD => far_end_ipv6(packet),
        _ => None,
    }
}

fn far_end_ipv4(packet: &[u8]) -> Option<FarEnd> {
    let [
        first,
        _,
        _,
        _,
        _,
        _,
        _,
        _,
        _,
        6,
        _,
        _,
        _,
        _,
        _,
        _,
        a,
        b,
        c,
        d,
        ..
    ] = packet
    else {
        return None;
    };
    let ip = u32::from_be_bytes([*a, *b, *c, *d]);
    let header = (*first & 15) as usize * 4;
    let [_, _, high, low, ..] = packet.get(header..)? else {
        return None;
    };
    let port = u16::from_be_bytes([*high, *low]);
    Some(FarEnd::Tcp(Addr { ip, port }))
}

fn far_end_ipv6(packet: &[u8]) -> Option<FarEnd> {
    let mut ip = [0u16; 8];
    let mut rest = packet.get(24..40)?;
    for group in 0..8 {
        let [high, low, behind @ ..] = rest else {
            return None;
        };
        ip[group] = u16::from_be_bytes([*high, *low]);
        rest = behind;
    }
    let [high, low] = packet.get(42..44)? else {
        return None;
    };
    let port = u16::from_be_bytes([*high, *low]);
    Some(FarEnd::Ipv6 { ip, port })
}
