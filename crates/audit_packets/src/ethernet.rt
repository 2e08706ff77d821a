//! Reads Ethernet frames.

ghost use Rattle.std.specs.Prelude.{◌≡◌, ◌+◌, ◌-◌, ◌<◌, ◌≤◌, length, IfSome, IfNone};
ghost use Rattle.audit_packets.specs.Frame.{number, is_tag, ethernet_length};

use crate::numbers::{CUSTOMER_TAG, SERVICE_TAG};

/// Two bytes of a frame as a number, and where they end.
fn type_at(frame: &[u8], at: usize) -> Option<(u16, usize)>
    requires { at ≤ 100 }
    ensures none { IfNone result (length frame.now < at + 2) }
    ensures long { IfSome result (λ _. at + 2 ≤ length frame.now) }
    ensures found { IfSome result (λ found. (found.0 ≡ number frame.now at) × (found.1 ≡ at + 2)) }
{
    if frame.len() < at + 2 {
        return None;
    }
    Some((u16::from_be_bytes([frame[at], frame[at + 1]]), at + 2))
}

/// Whether a VLAN tag has this type.
fn is_vlan_tag(kind: u16) -> bool
    ensures { result ≡ is_tag kind }
{
    kind == CUSTOMER_TAG || kind == SERVICE_TAG
}

/// The type of a frame's content and where the content begins, after at most two VLAN tags. None if
/// the frame ends before.
#[tactic(auto, unfolding(crate::specs::Frame::ethernet_length))]
pub(crate) fn content(frame: &[u8]) -> Option<(u16, usize)>
    ensures none { IfNone result (length frame.now < ethernet_length frame.now) }
    ensures long { IfSome result (λ found. found.1 ≤ length frame.now) }
    ensures place { IfSome result (λ found. found.1 ≡ ethernet_length frame.now) }
    ensures kind { IfSome result (λ found. found.0 ≡ number frame.now (found.1 - 2)) }
    ensures near { IfSome result (λ found. found.1 ≤ 22) }
{
    let (kind, end) = type_at(frame, 12)?;
    if !is_vlan_tag(kind) {
        return Some((kind, end));
    }
    let (kind, end) = type_at(frame, end + 2)?;
    if !is_vlan_tag(kind) {
        return Some((kind, end));
    }
    type_at(frame, end + 2)
}
