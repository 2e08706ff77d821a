//! Unread packets that may carry the data of clients over TCP, TLS, DTLS or IPv6, and the
//! departures excluded because such a packet may have carried their data.

ghost use Rattle.std.specs.Prelude.{◌≡◌, ◌≤◌, List, ℕ, slice_get};
ghost use Rattle.audit_packets.specs.Frame.{long_number};
ghost use Rattle.prep_cut.specs.Unread.{is_of_service_at, is_carrier, is_handshake, is_unread, owes_by, owes_datagram, at_least_one, added_by, by_side, unread_by, group_of};

use crate::datagram::{Datagram, payload_in};
use crate::plan::{LineNumber, Plan};
use crate::reason::Reason;
use audit_model::{Policy, Side};
use prep_blocks::{Block, PacketHead};
use prep_causes::{CauseNumber, Unread};
use prep_frames::{byte_at, content_place, frame_of, number_at};

/// The types of IPv4 (RFC 894) and IPv6 (RFC 2464) in Ethernet.
const IPV4_TYPE: u16 = 0x0800;

const IPV6_TYPE: u16 = 0x86DD;

/// The numbers of TCP and UDP in an IPv4 header.
const TCP: u8 = 6;

const UDP: u8 = 17;

/// The least size of the headers of Ethernet and IPv4 in bytes.
const LEAST_HEADERS: u32 = 34;

/// The tolerance for sizes: the proposal has them in steps of 8 bytes.
const SIZE_STEP: u64 = 7;

/// The same for a departure over DTLS, plus the header of a Data indication and the overhead of
/// DTLS.
const ADDED_BY_DTLS: u64 = 104;

/// At least one byte, so that the bytes of the carriers bound the number of departures.
fn at_least_one(bytes: u64) -> u64
    ensures { result ≡ at_least_one bytes }
{
    if bytes == 0 { 1 } else { bytes }
}

/// An IP address in a frame.
fn ip_at(frame: &[u8], at: usize) -> u32
    requires { at ≤ 98 }
    ensures { result ≡ long_number frame.now at }
{
    u32::from_be_bytes([
        byte_at(frame, at),
        byte_at(frame, at + 1),
        byte_at(frame, at + 2),
        byte_at(frame, at + 3),
    ])
}

/// Whether the IPv4 packet at this place is of TCP or UDP with an end at an address of the service.
fn is_of_service_at(policy: &Policy, frame: &[u8], at: usize) -> bool
    requires { at ≤ 22 }
    ensures { result ≡ is_of_service_at policy.now frame.now at }
{
    let protocol = byte_at(frame, at + 9);
    (protocol == TCP || protocol == UDP)
        && (policy.service_ip(ip_at(frame, at + 12)) || policy.service_ip(ip_at(frame, at + 16)))
}

/// Whether a frame without a datagram of the service may carry data of a client.
fn is_carrier(policy: &Policy, frame: &[u8]) -> bool
    ensures { result ≡ is_carrier policy.now frame.now }
{
    let at = content_place(frame);
    let kind = number_at(frame, at.saturating_sub(2));
    if kind == IPV4_TYPE {
        return is_of_service_at(policy, frame, at);
    }
    kind == IPV6_TYPE
}

/// Whether a DTLS record carries no data of a client: change_cipher_spec, alert or handshake (RFC
/// 6347, section 4.1).
fn is_handshake(payload: &[u8]) -> bool
    ensures { result ≡ is_handshake payload.now }
{
    match payload {
        [first, ..] => 20 <= *first && *first <= 22,
        [] => false,
    }
}

impl Reason {
    /// Whether the data of a departure excluded by this line came in unread packets.
    fn is_unread(&self, payload: &[u8]) -> bool
        ensures { result ≡ is_unread self.now payload.now }
    {
        match self {
            Reason::AddressTold { .. } | Reason::Address { .. } => true,
            Reason::Dtls(_) => !is_handshake(payload),
            _ => false,
        }
    }
}

impl Plan {
    /// The group of a number, from 0; none if the number is of a pair.
    pub(crate) fn group_of(&self, number: Option<CauseNumber>) -> Option<CauseNumber>
        ensures { result ≡ group_of self.now number }
    {
        match number {
            Some(number) if number >= self.pairs => Some(number - self.pairs),
            _ => None,
        }
    }

    /// Whether a departure excluded by a line needs an arrival, or a packet that may have carried
    /// it.
    fn owes_by(&self, line: LineNumber, payload: &[u8]) -> bool
        ensures { result ≡ owes_by (slice_get self.now.lines line) payload.now }
    {
        match self.lines.as_slice().get(line as usize) {
            Some(reason) => reason.needs_cause() || reason.is_unread(payload),
            None => false,
        }
    }

    /// Whether a datagram is an excluded departure that needs an arrival, or a packet that may have
    /// carried its data.
    pub(crate) fn owes(
        &self,
        line: Option<LineNumber>,
        block: &Block,
        datagram: Option<Datagram>,
    ) -> bool
        ensures { result ≡ owes_datagram self.now line block.now datagram }
    {
        let (Some(line), Some(datagram)) = (line, datagram) else {
            return false;
        };
        match datagram.side {
            Side::Arrives => false,
            Side::Leaves => self.owes_by(line, payload_in(block)),
        }
    }

    /// By how many bytes a departure of a line may be longer than the data in its carrier.
    fn added_by(&self, line: LineNumber) -> u64
        ensures { result ≡ added_by (slice_get self.now.lines line) }
    {
        match self.lines.as_slice().get(line as usize) {
            Some(Reason::Dtls(_)) => ADDED_BY_DTLS,
            _ => SIZE_STEP,
        }
    }

    /// The entry of an excluded datagram in its group.
    fn excluded_in(&self, line: LineNumber, block: &Block, datagram: &Datagram) -> Option<Unread>
        ensures { result ≡ by_side self.now line block.now datagram.now datagram.now.side }
    {
        let stamp = datagram.stamp;
        let size = datagram.size as u64;
        match datagram.side {
            Side::Arrives => Some(Unread::Carrier {
                stamp,
                bytes: at_least_one(size),
            }),
            Side::Leaves => {
                if !self.owes_by(line, payload_in(block)) {
                    return None;
                }
                let bytes = at_least_one(size.saturating_sub(self.added_by(line)));
                Some(Unread::Departure { stamp, bytes })
            }
        }
    }

    /// The entry of a block in its group: a carrier, if it is an excluded arrival or a packet that
    /// isn't a datagram of the service; a departure, if it needs a carrier.
    pub(crate) fn unread_in(
        &self,
        line: Option<LineNumber>,
        block: &Block,
        packet: Option<PacketHead>,
        datagram: Option<Datagram>,
    ) -> Option<Unread>
        ensures { result ≡ unread_by self.now line block.now packet datagram }
    {
        let head = packet?;
        let Some(datagram) = datagram else {
            if !is_carrier(&self.policy, frame_of(block, head)) {
                return None;
            }
            return Some(Unread::Carrier {
                stamp: head.stamp,
                bytes: u64::from(head.original.saturating_sub(LEAST_HEADERS)),
            });
        };
        self.excluded_in(line?, block, &datagram)
    }
}
