//! The types of blocks, and their least lengths.

ghost use Rattle.std.specs.Prelude.{◌≡◌};

use crate::wire::{
    ENHANCED_PACKET, INTERFACE_DESCRIPTION, INTERFACE_STATISTICS, OBSOLETE_PACKET, SECTION_HEADER,
    SIMPLE_PACKET,
};

/// The kind of a block, by its type (section 4).
#[derive(Clone, Copy, Debug, PartialEq, Eq)]
pub enum BlockKind {
    /// Section Header Block.
    Section,
    /// Interface Description Block.
    Interface,
    /// Interface Statistics Block.
    Statistics,
    /// Enhanced Packet Block.
    Packet,
    /// Simple Packet Block, which has no stamp, and the obsolete Packet Block.
    NoStamp,
    /// A block of any other type, which is skipped.
    Other,
}

impl BlockKind {
    ghost use Rattle.audit_pcapng.specs.Headings.{kind_of, least_length};

    pub fn of(number: u32) -> BlockKind
        ensures { result ≡ kind_of number }
    {
        match number {
            SECTION_HEADER => BlockKind::Section,
            INTERFACE_DESCRIPTION => BlockKind::Interface,
            INTERFACE_STATISTICS => BlockKind::Statistics,
            ENHANCED_PACKET => BlockKind::Packet,
            OBSOLETE_PACKET | SIMPLE_PACKET => BlockKind::NoStamp,
            _ => BlockKind::Other,
        }
    }

    /// The least total length of such a block, in bytes: that of one without options and data.
    pub fn least_length(self) -> u32
        ensures { result ≡ least_length self }
    {
        match self {
            BlockKind::Section => 28,
            BlockKind::Interface => 20,
            BlockKind::Statistics => 24,
            BlockKind::Packet => 32,
            BlockKind::NoStamp | BlockKind::Other => 12,
        }
    }
}
