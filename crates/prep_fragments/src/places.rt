//! The offsets of a frame's IPv4 header and of the data after it.

ghost use Rattle.std.specs.Prelude.{◌≡◌, ◌≤◌};
ghost use Rattle.audit_packets.specs.Frame.{long_number};
ghost use Rattle.prep_fragments.specs.Parts.{between, header_end, frame_of, data_in, data_of};

use prep_blocks::Block;
use prep_frames::{byte_at, content_place, frame_of, number_at};

/// Four bytes of a frame as a number in network order.
pub fn number_of_four(frame: &[u8], at: usize) -> u32
    requires { at ≤ 98 }
    ensures { result ≡ long_number frame.now at }
{
    u32::from(number_at(frame, at)) * 65_536 + u32::from(number_at(frame, at + 2))
}

/// The end of the IPv4 header whose first byte is at this offset.
pub fn place_of_data(frame: &[u8], at: usize) -> usize
    requires { at ≤ 22 }
    ensures exact { result ≡ header_end frame.now at }
    ensures near { result ≤ 82 }
{
    at + (byte_at(frame, at) % 16) as usize * 4
}

/// The bytes from one offset to another, as far as they exist.
#[tactic(auto, using(std::proofs::lemmas::List::drop_min, std::proofs::lemmas::List::take_min))]
pub fn between(bytes: &[u8], from: usize, to: usize) -> &[u8]
    ensures { result.now ≡ between from to bytes.now }
{
    let (_, behind) = bytes.split_at(from.min(bytes.len()));
    let (part, _) = behind.split_at(to.saturating_sub(from).min(behind.len()));
    part
}

/// The frame of a block; no bytes if it has no packet.
pub fn frame_in(block: &Block) -> &[u8]
    ensures { result.now ≡ frame_of block.now }
{
    match block.packet {
        Some(head) => frame_of(block, head),
        None => &[],
    }
}

/// The data of a frame's IPv4 packet.
pub fn data_in(frame: &[u8]) -> &[u8]
    ensures { result.now ≡ data_in frame.now }
{
    let at = content_place(frame);
    let begin = place_of_data(frame, at);
    let end = at + number_at(frame, at + 2) as usize;
    between(frame, begin, end)
}
