//! Copies of files.

use crate::maker::{Maker, append_all};
use crate::source::{PIECE, Source};
use crate::stop::Stop;
use std::alloc::Global;

/// Copies a file of at most `most` bytes.
pub fn copy<S: Source, M: Maker>(
    alloc: Global,
    from: &str,
    to: &str,
    most: u64,
    source: &mut S,
    maker: &mut M,
) -> Result<(), Stop> {
    let mut piece = vec![in alloc; 0u8; PIECE]?;
    maker.make(to)?;
    copy_pieces(from, most, &mut piece, source, maker)?;
    maker.publish()?;
    Ok(())
}

/// Copies the bytes of a file, piece by piece.
fn copy_pieces<S: Source, M: Maker>(
    from: &str,
    most: u64,
    piece: &mut [u8],
    source: &mut S,
    maker: &mut M,
) -> Result<(), Stop> {
    let mut at = 0u64;
    'pieces: for _ in 0..u64::MAX {
        let read = source.piece(from, at, piece)?;
        if read == 0 {
            return Ok(());
        }
        append_all(maker, &piece[..read])?;
        let Some(next) = at.checked_add(read as u64) else {
            return Err(Stop::Read);
        };
        if next > most {
            return Err(Stop::Words("--creds has more than 16777216 bytes"));
        }
        at = next;
    }
    Err(Stop::Read)
}
