//! Success responses that grant, refresh or delete an allocation.

ghost use Rattle.std.specs.Prelude.{◌≡◌, IfSome, Some, option_copied};
ghost use Rattle.audit_packets.specs.View.{view};
ghost use Rattle.audit_stun.specs.Parts.{parts_of};
ghost use Rattle.prep_cut.specs.declared.lease.Event.{Event as AnyEvent};
ghost use Rattle.prep_cut.specs.declared.lease.Said.{Said as AnySaid};
ghost use Rattle.prep_cut.specs.Leases.{IsSaid, IsEvent, IsEventIn, said_of, seconds_of, relayed_of, renewal_of};

use audit_model::{Addr, Policy};
use audit_packets::{Seen, slice_datagram};
use audit_pcapng::PacketSlice;
use audit_stun::numbers::{attribute, method};
use audit_stun::{Class, Message, address, message};
use prep_blocks::Block;
use prep_frames::frame_of;

/// The effect of a success response on the allocation of its client.
#[derive(Clone, Copy, Debug, PartialEq, Eq)]
pub enum Act {
    /// An Allocate success response grants this address.
    Grants { relayed: Addr, tid: [u8; 12] },
    /// A Refresh success response refreshes it.
    Renews,
    /// A Refresh success response with LIFETIME 0 deletes it.
    Ends,
}

/// The contents of a success response.
#[derive(Clone, Copy, Debug, PartialEq, Eq)]
pub struct Said {
    pub act: Act,
    /// The LIFETIME, in seconds.
    pub seconds: u32,
}

/// A success response that left for a client.
#[derive(Clone, Copy, Debug, PartialEq, Eq)]
pub struct Event {
    pub client: Addr,
    pub listen: Addr,
    /// The moment at which it left, in nanoseconds since 1970.
    pub moment: u64,
    pub said: Said,
}

/// The event that the block's packet shows.
pub(crate) fn event_in(policy: &Policy, block: &Block) -> Option<Event>
    ensures found { IfSome result (λ event. IsEventIn policy.now event block.now) }
    ensures only { (event : AnyEvent) → IsEventIn policy.now event block.now → result ≡ Some event }
{
    let head = block.packet?;
    let frame = PacketSlice {
        stamp: head.stamp,
        bytes: frame_of(block, head),
        iface: head.iface,
        captured: head.captured,
        original: head.original,
    };
    event_by(policy, head.stamp, slice_datagram(frame))
}

fn event_by(policy: &Policy, moment: u64, seen: Seen<'_>) -> Option<Event>
    ensures found { IfSome result (λ event. IsEvent policy.now moment (view seen.entry) event) }
    ensures only { (event : AnyEvent) → IsEvent policy.now moment (view seen.entry) event → result ≡ Some event }
{
    match seen {
        Seen::Udp { from, to, payload } => {
            if !policy.listens(from) {
                return None;
            }
            let said = said_in(payload)?;
            Some(Event {
                client: to,
                listen: from,
                moment,
                said,
            })
        }
        Seen::Other | Seen::Fragment { .. } | Seen::Cut { .. } => None,
    }
}

/// The contents of a payload, if it is such a success response (RFC 8656, sections 7.2 and 8).
fn said_in(payload: &[u8]) -> Option<Said>
    ensures found { IfSome result (λ said. IsSaid payload.now said) }
    ensures only { (said : AnySaid) → IsSaid payload.now said → result ≡ Some said }
{
    match message(payload) {
        Some(answer) => said_by(&answer),
        None => None,
    }
}

fn said_by(answer: &Message<'_>) -> Option<Said>
    ensures { result ≡ said_of (parts_of answer.now) }
{
    if answer.class() != Class::Success {
        return None;
    }
    let seconds = seconds_in(answer.first(attribute::LIFETIME))?;
    if answer.method() == method::ALLOCATE {
        let relayed = relayed_in(answer.first(attribute::XOR_RELAYED_ADDRESS))?;
        let tid = answer.tid();
        return Some(Said {
            act: Act::Grants { relayed, tid },
            seconds,
        });
    }
    if answer.method() == method::REFRESH {
        return Some(renewal(seconds));
    }
    None
}

fn renewal(seconds: u32) -> Said
    ensures { result ≡ renewal_of seconds }
{
    let act = if seconds == 0 { Act::Ends } else { Act::Renews };
    Said { act, seconds }
}

/// The number of seconds of a LIFETIME.
fn seconds_in(value: Option<&[u8]>) -> Option<u32>
    ensures { result ≡ seconds_of (option_copied value.entry) }
{
    match value {
        Some([a, b, c, d]) => Some(u32::from_be_bytes([*a, *b, *c, *d])),
        _ => None,
    }
}

fn relayed_in(value: Option<&[u8]>) -> Option<Addr>
    ensures { result ≡ relayed_of (option_copied value.entry) }
{
    match value {
        Some(value) => address(value),
        None => None,
    }
}
