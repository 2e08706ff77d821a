//! The datagram of the service in a packet's block.

ghost use Rattle.std.specs.Prelude.{◌≡◌, nat_lt};
ghost use Rattle.audit_packets.specs.Reading.{datagram_of};
ghost use Rattle.audit_packets.specs.View.{view};
ghost use Rattle.prep_frames.specs.Frames.{frame_in};
ghost use Rattle.prep_cut.specs.Datagrams.{datagram_of_block, of_seen, of_ends, is_secured, carries, payload_of, payload_of_block};

use crate::transaction::{Transaction, id_in};
use audit_model::{Addr, Policy, Side};
use audit_packets::{Seen, slice_datagram};
use audit_pcapng::PacketSlice;
use prep_blocks::{Block, PacketHead};
use prep_frames::frame_of;

/// A UDP datagram with at least one end in the service.
#[derive(Clone, Copy, Debug, PartialEq, Eq)]
pub struct Datagram {
    /// Nanoseconds since 1970.
    pub stamp: u64,
    pub from: Addr,
    pub to: Addr,
    /// A datagram from an end of the service leaves, wherever it goes.
    pub side: Side,
    /// Whether both ends are of the service.
    pub is_inside: bool,
    /// Whether its payload begins like DTLS: 20 to 63 (RFC 7983).
    pub is_dtls: bool,
    /// Whether its payload begins like data between a client and the server: ChannelData, or a Send
    /// or Data indication.
    pub is_data: bool,
    /// The size of its payload in bytes.
    pub size: usize,
    /// The transaction of an Allocate request from a client to a listen address, or of an Allocate
    /// success response from a listen address.
    pub allocate: Option<Transaction>,
}

/// The types of an Allocate request and of its success response (RFC 8489, section 5; RFC 8656,
/// section 17).
const ALLOCATE_REQUEST: u16 = 0x0003;

const ALLOCATE_SUCCESS: u16 = 0x0103;

/// Parses a block's packet.
fn seen_in(block: &Block, head: PacketHead) -> Seen<'_>
    ensures { view result ≡ datagram_of (frame_in block.now head) (nat_lt head.captured head.original) }
{
    slice_datagram(PacketSlice {
        stamp: head.stamp,
        bytes: frame_of(block, head),
        iface: head.iface,
        captured: head.captured,
        original: head.original,
    })
}

/// The datagram of the service in the block's packet.
pub fn datagram_in(policy: &Policy, block: &Block) -> Option<Datagram>
    ensures { result ≡ datagram_of_block policy.now block.now }
{
    let head = block.packet?;
    in_seen(policy, head.stamp, seen_in(block, head))
}

/// The payload of the UDP datagram in the block's packet; no bytes if there is none.
pub(crate) fn payload_in(block: &Block) -> &[u8]
    ensures { result.now ≡ payload_of_block block.now }
{
    let Some(head) = block.packet else {
        return &[];
    };
    payload_of(seen_in(block, head))
}

fn payload_of(seen: Seen<'_>) -> &[u8]
    ensures { result.now ≡ payload_of (view seen.entry) }
{
    match seen {
        Seen::Udp { payload, .. } => payload,
        Seen::Other | Seen::Fragment { .. } | Seen::Cut { .. } => &[],
    }
}

fn in_seen(policy: &Policy, stamp: u64, seen: Seen<'_>) -> Option<Datagram>
    ensures { result ≡ of_seen policy.now stamp (view seen.entry) }
{
    match seen {
        Seen::Udp { from, to, payload } => in_ends(policy, stamp, from, to, payload),
        Seen::Other | Seen::Fragment { .. } | Seen::Cut { .. } => None,
    }
}

fn in_ends(policy: &Policy, stamp: u64, from: Addr, to: Addr, payload: &[u8]) -> Option<Datagram>
    ensures { result ≡ of_ends policy.now stamp from to payload.now }
{
    let leaves = policy.listens(from) || policy.relays(from);
    let arrives = policy.listens(to) || policy.relays(to);
    let (side, allocate) = match (leaves, arrives) {
        (true, _) => {
            let id = id_in(ALLOCATE_SUCCESS, payload);
            (
                Side::Leaves,
                Transaction::of(policy.listens(from) && !arrives, to, from, id),
            )
        }
        (false, true) => {
            let id = id_in(ALLOCATE_REQUEST, payload);
            (
                Side::Arrives,
                Transaction::of(policy.listens(to), from, to, id),
            )
        }
        (false, false) => return None,
    };
    Some(Datagram {
        stamp,
        from,
        to,
        side,
        is_inside: leaves && arrives,
        is_dtls: is_dtls(payload),
        is_data: is_data(payload),
        size: payload.len(),
        allocate,
    })
}

/// Whether a payload begins like DTLS (RFC 7983).
fn is_dtls(payload: &[u8]) -> bool
    ensures { result ≡ is_secured payload.now }
{
    match payload {
        [first, ..] => 20 <= *first && *first < 64,
        [] => false,
    }
}

/// Whether a payload begins like ChannelData, with a number whose two highest bits are 01 (RFC
/// 8656, section 12.4), or with the type of a Send or a Data indication, 0x0016 or 0x0017 (section
/// 17).
fn is_data(payload: &[u8]) -> bool
    ensures { result ≡ carries payload.now }
{
    match payload {
        [0, second, ..] => *second == 0x16 || *second == 0x17,
        [first, ..] => 64 <= *first && *first < 128,
        [] => false,
    }
}
