//! The packet of a reassembled datagram.

ghost use Rattle.std.specs.Prelude.{◌≡◌, ◌++◌, OnOk, IfOk};
ghost use Rattle.prep_fragments.specs.Wholes.{datas_of, frame_with, word, filling, front_with, block_with, whole_of};

use crate::fault::{FragmentFault, ReassembleFault};
use crate::places::{between, data_in, frame_in, place_of_data};
use audit_pcapng::ByteOrder;
use prep_blocks::Block;
use prep_frames::content_place;
use std::alloc::{AllocError, Global};

/// The type of an Enhanced Packet Block.
const PACKET_BLOCK: u32 = 6;

/// The offsets of its interface and of the end of its stamp.
const INTERFACE: usize = 8;

const STAMP_END: usize = 20;

/// The size of the block without its data, in bytes.
const AROUND: u32 = 32;

/// The most bytes of a reassembled frame: Ethernet with two tags, and the longest IPv4 packet.
const MAX_FRAME: usize = 65_600;

/// A number in a byte order.
fn word(order: ByteOrder, number: u32) -> [u8; 4]
    ensures { result ≡ word order number }
{
    match order {
        ByteOrder::Little => number.to_le_bytes(),
        ByteOrder::Big => number.to_be_bytes(),
    }
}

/// Adds the data of fragments, one after another.
fn put_datas(blocks: &[Block], out: &mut Vec<u8>) -> Result<(), AllocError>
    ensures { OnOk result (out.new.items ≡ out.old.items ++ datas_of blocks.now) }
{
    for block in blocks {
        out.extend_from_slice(data_in(frame_in(block)))?;
    }
    Ok(())
}

/// A frame's headers with other data, if an IPv4 packet can have it.
fn frame_with(alloc: Global, frame: &[u8], payload: &[u8]) -> Result<Vec<u8>, ReassembleFault>
    ensures { IfOk result (λ made. made.items ≡ frame_with frame.now payload.now) }
{
    let at = content_place(frame);
    let end = place_of_data(frame, at);
    let Ok(total) = u16::try_from((end - at).saturating_add(payload.len())) else {
        return Err(ReassembleFault::Fragment(FragmentFault::Long));
    };
    let mut made = Vec::new(alloc);
    made.extend_from_slice(between(frame, 0, at + 2))?;
    made.extend_from_slice(&total.to_be_bytes())?;
    made.extend_from_slice(between(frame, at + 4, at + 6))?;
    made.extend_from_slice(&[0, 0])?;
    made.extend_from_slice(between(frame, at + 8, end))?;
    made.extend_from_slice(payload)?;
    Ok(made)
}

/// The zeros that pad this number of bytes to a multiple of four.
fn filling(size: u32) -> &'static [u8]
    ensures { result.now ≡ filling size }
{
    match size % 4 {
        0 => &[],
        1 => &[0, 0, 0],
        2 => &[0, 0],
        _ => &[0],
    }
}

/// Adds the fields before a packet's data in its block, with the interface and the stamp of another
/// block.
fn put_front(last: &Block, total: u32, size: u32, out: &mut Vec<u8>) -> Result<(), AllocError>
    ensures { OnOk result (out.new.items ≡ out.old.items ++ front_with last.now total size) }
{
    let order = last.order;
    out.extend_from_slice(&word(order, PACKET_BLOCK))?;
    out.extend_from_slice(&word(order, total))?;
    out.extend_from_slice(between(last.bytes.as_slice(), INTERFACE, STAMP_END))?;
    out.extend_from_slice(&word(order, size))?;
    out.extend_from_slice(&word(order, size))?;
    Ok(())
}

/// Adds a packet's block with the interface and the stamp of another block, and this frame.
fn put_block(last: &Block, frame: &[u8], out: &mut Vec<u8>) -> Result<(), ReassembleFault>
    ensures { OnOk result (out.new.items ≡ out.old.items ++ block_with last.now frame.now) }
{
    if frame.len() > MAX_FRAME {
        return Err(ReassembleFault::Fragment(FragmentFault::Long));
    }
    let size = frame.len() as u32;
    let total = AROUND + (size + 3) / 4 * 4;
    put_front(last, total, size, out)?;
    out.extend_from_slice(frame)?;
    out.extend_from_slice(filling(size))?;
    out.extend_from_slice(&word(last.order, total))?;
    Ok(())
}

/// Adds the packet of a datagram's fragments, in the block of the last one.
pub fn put_whole(
    alloc: Global,
    held: &[Block],
    last: &Block,
    out: &mut Vec<u8>,
) -> Result<(), ReassembleFault>
    ensures { OnOk result (out.new.items ≡ out.old.items ++ whole_of held.now last.now) }
{
    let Some(first) = held.first() else {
        return Err(ReassembleFault::Fragment(FragmentFault::Hole));
    };
    let mut payload = Vec::new(alloc);
    put_datas(held, &mut payload)?;
    payload.extend_from_slice(data_in(frame_in(last)))?;
    let frame = frame_with(alloc, frame_in(first), &payload)?;
    put_block(last, &frame, out)?;
    Ok(())
}
