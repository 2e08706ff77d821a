//! Refresh success responses with LIFETIME 0, by which clients delete their allocations.

ghost use Rattle.std.specs.Prelude.{◌≡◌, IsTrue, IfSome};
ghost use Rattle.audit_packets.specs.View.{view};
ghost use Rattle.prep_cut.specs.Releasing.{EndsAllocation, IsRelease, IsReleaseIn};

use audit_model::{Addr, Policy};
use audit_packets::{Seen, slice_datagram};
use audit_pcapng::PacketSlice;
use audit_stun::numbers::{attribute, method};
use audit_stun::{Class, message};
use prep_blocks::Block;
use prep_frames::frame_of;

/// A deletion: a Refresh success response with LIFETIME 0 left for the client.
#[derive(Clone, Copy, Debug, PartialEq, Eq, PartialOrd, Ord)]
pub struct Release {
    pub client: Addr,
    pub listen: Addr,
    /// The moment at which it left, in nanoseconds since 1970.
    pub moment: u64,
}

/// The deletion that the block's packet shows. It takes no memory.
pub fn release_in(policy: &Policy, block: &Block) -> Option<Release>
    ensures { IfSome result (λ release. IsReleaseIn policy.now release block.now) }
{
    let head = block.packet?;
    let frame = PacketSlice {
        stamp: head.stamp,
        bytes: frame_of(block, head),
        iface: head.iface,
        captured: head.captured,
        original: head.original,
    };
    release_by(policy, head.stamp, slice_datagram(frame))
}

fn release_by(policy: &Policy, moment: u64, seen: Seen<'_>) -> Option<Release>
    ensures { IfSome result (λ release. IsRelease policy.now moment (view seen.entry) release) }
{
    match seen {
        Seen::Udp { from, to, payload } => {
            if policy.listens(from) && ends_allocation(payload) {
                Some(Release {
                    client: to,
                    listen: from,
                    moment,
                })
            } else {
                None
            }
        }
        Seen::Other | Seen::Fragment { .. } | Seen::Cut { .. } => None,
    }
}

/// Whether a payload is a Refresh success response with LIFETIME 0 (RFC 8656, section 7.2).
fn ends_allocation(payload: &[u8]) -> bool
    ensures { IsTrue result → EndsAllocation payload.now }
{
    let Some(answer) = message(payload) else {
        return false;
    };
    if answer.class() != Class::Success || answer.method() != method::REFRESH {
        return false;
    }
    match answer.first(attribute::LIFETIME) {
        Some([0, 0, 0, 0]) => true,
        _ => false,
    }
}
