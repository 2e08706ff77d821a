//! A block with its bytes.

use audit_model::Listed;
use audit_pcapng::{BlockKind, ByteOrder, PacketSlice};

/// A whole block of a capture.
#[derive(Debug, Drop)]
pub struct Block {
    /// All of its bytes, from its type to its second length.
    pub bytes: Listed<u8>,
    pub kind: BlockKind,
    /// The byte order of its numbers.
    pub order: ByteOrder,
    /// The fields before a packet's bytes; `None` in another block.
    pub packet: Option<PacketHead>,
}

/// The fields of an Enhanced Packet Block about its packet.
#[derive(Clone, Copy, Debug, PartialEq, Eq)]
pub struct PacketHead {
    /// Nanoseconds since 1970.
    pub stamp: u64,
    /// The interface's number in the file from 0, counted over all sections.
    pub iface: u32,
    /// How many bytes were captured.
    pub captured: u32,
    /// How many bytes the packet had on the link.
    pub original: u32,
}

impl PacketHead {
    ghost use Rattle.std.specs.Prelude.{◌≡◌};
    ghost use Rattle.std.specs.Option.{option_map};
    ghost use Rattle.audit_pcapng.specs.Packets.{given_of};
    ghost use Rattle.prep_blocks.specs.Read.{head_of};

    /// The fields of a packet, if there is one.
    pub fn of(packet: Option<PacketSlice<'_>>) -> Option<Self>
        ensures { result ≡ option_map head_of (given_of packet.entry) }
    {
        match packet {
            None => None,
            Some(packet) => Some(PacketHead {
                stamp: packet.stamp,
                iface: packet.iface,
                captured: packet.captured,
                original: packet.original,
            }),
        }
    }
}
