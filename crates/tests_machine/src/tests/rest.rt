//! Captures without their first packets.

use std::alloc::{AllocError, Global};

/// The type of a packet block, an Enhanced Packet Block.
const PACKET: [u8; 4] = [6, 0, 0, 0];

/// The first block of a capture with little-endian lengths, and the rest.
fn split_block(capture: &[u8]) -> Option<(&[u8], &[u8])> {
    let length = capture.get(4..)?.first_chunk::<4>()?;
    capture.split_at_checked(u32::from_le_bytes(*length) as usize)
}

/// A capture without this number of its first packets.
pub(super) fn without_first(
    alloc: Global,
    capture: &[u8],
    count: Option<u64>,
) -> Result<Vec<u8>, AllocError> {
    let mut kept = Vec::new(alloc);
    let mut rest = capture;
    let mut left = count.unwrap_or(0);
    for _ in 0..capture.len() {
        let Some((block, others)) = split_block(rest) else {
            break;
        };
        if left > 0 && block.starts_with(&PACKET) {
            left -= 1;
        } else {
            kept.extend_from_slice(block)?;
        }
        rest = others;
    }
    Ok(kept)
}
