//! The reassembly of one block.

ghost use Rattle.std.specs.Prelude.{◌≡◌, ◌++◌, ◌∷◌, [], true, List, OnOk, if◌then◌else◌};
ghost use Rattle.prep_fragments.specs.declared.fragment.Key.{Key as AnyKey};
ghost use Rattle.prep_blocks.specs.declared.block.Block.{Block as AnyBlock};
ghost use Rattle.prep_fragments.specs.Parts.{part_of, is_same};
ghost use Rattle.prep_fragments.specs.Opens.{stamp_of, open_at, opened, extended, Fits};
ghost use Rattle.prep_fragments.specs.Reassembling.{Holds, FitsBlock, out_of};

use crate::begun::Begun;
use crate::fault::{FragmentFault, ReassembleFault};
use crate::fragment::Fragment;
use crate::opens::Opens;
use crate::places::{data_in, frame_in};
use crate::whole::put_whole;
use audit_model::Listed;
use audit_packets::Seen;
use prep_blocks::Block;
use prep_frames::seen_of;
use std::alloc::Global;

/// At most this number of datagrams may have missing fragments at the same time.
const MAX_OPEN: usize = 1_024;

/// The longest time from the first fragment to another one, in nanoseconds.
const LONGEST: u64 = 30_000_000_000;

/// How many fragments were reassembled to how many datagrams.
#[derive(Clone, Copy, Debug, PartialEq, Eq)]
pub struct Reassembled {
    pub datagrams: u64,
    pub fragments: u64,
}

/// The fragment in a block, or `None`.
fn part_of(block: &Block) -> Option<Fragment>
    ensures { result ≡ part_of block.now }
{
    let head = block.packet?;
    let frame = frame_in(block);
    match seen_of(frame, head) {
        Seen::Fragment { .. } => Some(Fragment::read(head.iface, frame)),
        _ => None,
    }
}

/// The stamp of a block; 0 if it has no packet.
fn stamp_of(block: &Block) -> u64
    ensures { result ≡ stamp_of block.now }
{
    match block.packet {
        Some(head) => head.stamp,
        None => 0,
    }
}

/// Whether a packet isn't truncated.
fn is_uncut(block: &Block) -> bool {
    match block.packet {
        Some(head) => head.captured >= head.original,
        None => false,
    }
}

/// Checks that a fragment begins where the earlier ones of its datagram end, less than 30 seconds
/// after the first of them.
fn check(
    block: &Block,
    part: &Fragment,
    length: usize,
    first: Option<u64>,
) -> Result<(), FragmentFault>
    ensures { OnOk result (Fits block.now part.now length first) }
{
    if !is_uncut(block) || part.begin >= part.end || part.end > frame_in(block).len() {
        return Err(FragmentFault::Cut);
    }
    if let Some(first) = first {
        if stamp_of(block) >= first.saturating_add(LONGEST) {
            return Err(FragmentFault::Late);
        }
    }
    if part.offset < length {
        return Err(FragmentFault::Overlap);
    }
    if part.offset > length {
        return Err(FragmentFault::Hole);
    }
    Ok(())
}

/// Adds the first fragment of a datagram.
fn start(
    alloc: Global,
    opens: &mut Opens,
    block: Block,
    part: Fragment,
) -> Result<(), ReassembleFault>
    ensures fits { OnOk result (Fits block part 0 None) }
    ensures more { OnOk result (part.has_more ≡ true) }
    ensures put { OnOk result ((other : AnyKey) → open_at opens.new other ≡ (if is_same part.key other then Some (opened block) else open_at opens.old other)) }
{
    check(&block, &part, 0, None)?;
    if !part.has_more {
        return Err(ReassembleFault::Fragment(FragmentFault::Hole));
    }
    if opens.len() >= MAX_OPEN {
        return Err(ReassembleFault::Fragment(FragmentFault::Many));
    }
    let stamp = stamp_of(&block);
    let length = data_in(frame_in(&block)).len();
    let mut fragments = Listed::new(alloc);
    fragments.push(block)?;
    opens.put(
        part.key,
        Begun {
            stamp,
            length,
            fragments,
        },
    )?;
    Ok(())
}

/// Adds a fragment that is neither the first nor the last one.
fn go_on(
    opens: &mut Opens,
    begun: Begun,
    block: Block,
    part: Fragment,
) -> Result<(), ReassembleFault>
    ensures { OnOk result ((other : AnyKey) → open_at opens.new other ≡ (if is_same part.key other then Some (extended begun block) else open_at opens.old other)) }
{
    let Some(length) = begun.length.checked_add(data_in(frame_in(&block)).len()) else {
        return Err(ReassembleFault::Fragment(FragmentFault::Long));
    };
    let stamp = begun.stamp;
    let mut fragments = begun.fragments;
    fragments.push(block)?;
    opens.put(
        part.key,
        Begun {
            stamp,
            length,
            fragments,
        },
    )?;
    Ok(())
}

/// Adds the output for the next block: the whole block; of a fragment nothing, except the whole
/// datagram for its last fragment. The cost is the size of the block and of the output, and n log n
/// in the datagrams with missing fragments.
pub fn take_block(
    alloc: Global,
    opens: &mut Opens,
    count: &mut Reassembled,
    block: Block,
    out: &mut Vec<u8>,
) -> Result<(), ReassembleFault>
    ensures holds { (blocks : List AnyBlock) → Holds opens.old blocks → OnOk result (Holds opens.new (blocks ++ block ∷ [])) }
    ensures fits { (blocks : List AnyBlock) → Holds opens.old blocks → OnOk result (FitsBlock blocks block) }
    ensures written { (blocks : List AnyBlock) → Holds opens.old blocks → OnOk result (out.new.items ≡ out.old.items ++ out_of blocks block) }
{
    let Some(part) = part_of(&block) else {
        out.extend_from_slice(block.bytes.as_slice())?;
        return Ok(());
    };
    count.fragments = count.fragments.saturating_add(1);
    let Some(begun) = opens.take_out(part.key) else {
        start(alloc, opens, block, part)?;
        return Ok(());
    };
    check(&block, &part, begun.length, Some(begun.stamp))?;
    if part.has_more {
        go_on(opens, begun, block, part)?;
        return Ok(());
    }
    count.datagrams = count.datagrams.saturating_add(1);
    put_whole(alloc, begun.fragments.as_slice(), &block, out)?;
    Ok(())
}
