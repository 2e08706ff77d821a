//! The first bytes of a block.

ghost use Rattle.std.specs.Prelude.{◌≡◌, ◌≤◌, length, IfOk, IfSome};

use crate::block_kind::BlockKind;
use crate::byte_order::ByteOrder;
use crate::fault::CaptureFault;
use crate::wire::{MAGIC, MAX_BLOCK, SECTION_HEADER, SECTION_MAGIC, TOTAL_LENGTH};

/// The content of a block's first bytes (section 3.1).
#[derive(Clone, Copy, Debug, PartialEq, Eq)]
pub struct Heading {
    /// The block's total length in bytes, from its type to its second length.
    pub length: usize,
    pub kind: BlockKind,
    /// The byte order of the block's numbers: a section's own, or that of the section before.
    pub order: ByteOrder,
}

const TYPE_END: usize = 4;

const LENGTH_END: usize = 8;

/// The number of bytes that show each block's heading. No block has fewer.
pub const HEADING_LENGTH: usize = 12;

impl Heading {
    ghost use Rattle.audit_pcapng.specs.Headings.{heading, section_heading, heading_of, IsLong};

    /// The heading of the block that begins so, in a section of this order, if the bytes show it.
    /// Its faults are C5 once 4 bytes are there, and C2, C3 and C12 once 8 are, in a section block
    /// 12.
    #[tactic(auto, unfolding(crate::specs::Headings::heading, crate::specs::Headings::block_heading))]
    pub fn read(section: Option<ByteOrder>, bytes: &[u8]) -> Result<Option<Heading>, CaptureFault>
        ensures exact { result ≡ heading section bytes.now }
        ensures long { IfOk result (λ found. IfSome found IsLong) }
    {
        if bytes.len() < TYPE_END {
            return Ok(None);
        }
        if ByteOrder::Big.u32_at(bytes, 0) == SECTION_HEADER {
            return Heading::of_section(bytes);
        }
        let Some(order) = section else {
            return Err(CaptureFault::NoSection);
        };
        if bytes.len() < LENGTH_END {
            return Ok(None);
        }
        let heading = Heading::of(BlockKind::of(order.u32_at(bytes, 0)), order, bytes)?;
        Ok(Some(heading))
    }

    #[tactic(auto, unfolding(crate::specs::Headings::section_heading))]
    fn of_section(bytes: &[u8]) -> Result<Option<Heading>, CaptureFault>
        ensures exact { result ≡ section_heading bytes.now }
        ensures long { IfOk result (λ found. IfSome found IsLong) }
    {
        if bytes.len() < HEADING_LENGTH {
            return Ok(None);
        }
        let order = if ByteOrder::Little.u32_at(bytes, SECTION_MAGIC) == MAGIC {
            ByteOrder::Little
        } else if ByteOrder::Big.u32_at(bytes, SECTION_MAGIC) == MAGIC {
            ByteOrder::Big
        } else {
            return Err(CaptureFault::Magic);
        };
        let heading = Heading::of(BlockKind::Section, order, bytes)?;
        Ok(Some(heading))
    }

    #[tactic(auto, unfolding(crate::specs::Headings::heading_of))]
    fn of(kind: BlockKind, order: ByteOrder, bytes: &[u8]) -> Result<Heading, CaptureFault>
        requires { 8 ≤ length bytes.now }
        ensures exact { result ≡ heading_of kind order bytes.now }
        ensures long { IfOk result IsLong }
    {
        let total = order.u32_at(bytes, TOTAL_LENGTH);
        if total % 4 != 0 || total < kind.least_length() {
            return Err(CaptureFault::Length);
        }
        if total > MAX_BLOCK {
            return Err(CaptureFault::Limit);
        }
        Ok(Heading {
            length: total as usize,
            kind,
            order,
        })
    }
}
