//! The frame of a block.

ghost use Rattle.std.specs.Prelude.{◌≡◌};
ghost use Rattle.audit_packets.specs.View.{view};
ghost use Rattle.prep_frames.specs.Frames.{frame_in, seen_in};

use audit_packets::{Seen, slice_datagram};
use audit_pcapng::PacketSlice;
use prep_blocks::{Block, PacketHead};

/// The number of bytes of an Enhanced Packet Block before its packet.
pub const BEFORE_PACKET: usize = 28;

/// The captured bytes of a packet's block; if the block ends too early, those that exist.
#[tactic(auto, using(std::proofs::lemmas::List::drop_min, std::proofs::lemmas::List::take_min))]
pub fn frame_of(block: &Block, head: PacketHead) -> &[u8]
    ensures { result.now ≡ frame_in block.now head }
{
    let bytes = block.bytes.as_slice();
    let (_, behind) = bytes.split_at(BEFORE_PACKET.min(bytes.len()));
    let (frame, _) = behind.split_at((head.captured as usize).min(behind.len()));
    frame
}

/// Parses a packet's frame. It takes no memory.
pub fn seen_of<'a>(frame: &'a [u8], head: PacketHead) -> Seen<'a>
    ensures { view result ≡ seen_in frame.now head }
{
    slice_datagram(PacketSlice {
        stamp: head.stamp,
        bytes: frame,
        iface: head.iface,
        captured: head.captured,
        original: head.original,
    })
}
