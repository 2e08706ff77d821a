//! The offset of the IPv4 packet in an Ethernet frame.

ghost use Rattle.std.specs.Prelude.{◌≡◌, ◌≤◌, slice_index};
ghost use Rattle.audit_packets.specs.Frame.{number, is_tag, ethernet_length};

/// The types of VLAN tags (IEEE 802.1Q): of a customer and of a service.
const CUSTOMER_TAG: u16 = 0x8100;

const SERVICE_TAG: u16 = 0x88A8;

/// A byte of a frame; 0 after its end.
pub fn byte_at(frame: &[u8], at: usize) -> u8
    ensures { result ≡ slice_index frame.now at }
{
    match frame.get(at) {
        Some(byte) => *byte,
        None => 0,
    }
}

/// The number in two bytes of a frame, in network order; bytes after its end are 0.
pub fn number_at(frame: &[u8], at: usize) -> u16
    requires { at ≤ 100 }
    ensures { result ≡ number frame.now at }
{
    u16::from_be_bytes([byte_at(frame, at), byte_at(frame, at + 1)])
}

/// Whether the two bytes at an offset are the type of a VLAN tag.
fn is_tag_at(frame: &[u8], at: usize) -> bool
    requires { at ≤ 100 }
    ensures { result ≡ is_tag (number frame.now at) }
{
    let kind = number_at(frame, at);
    kind == CUSTOMER_TAG || kind == SERVICE_TAG
}

/// The offset of a frame's content: after two addresses, at most two VLAN tags and the type.
#[tactic(auto, unfolding(audit_packets::specs::Frame::ethernet_length))]
pub fn content_place(frame: &[u8]) -> usize
    ensures exact { result ≡ ethernet_length frame.now }
    ensures near { result ≤ 22 }
{
    if !is_tag_at(frame, 12) {
        return 14;
    }
    if is_tag_at(frame, 16) { 22 } else { 18 }
}
