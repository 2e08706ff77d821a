//! Looks up frames, by a second pass over the captures.

use audit_files::{Source, Stop};
use audit_model::Policy;
use audit_pcapng::CaptureFault;
use explain_frames::{FrameCounter, Frames};
use std::alloc::Global;

/// How many bytes are read at once.
const PIECE: usize = 65_536;

/// Counts the frames of a piece; returns false if the capture is refused there.
fn count_piece(
    counter: &mut FrameCounter<'_>,
    piece: &[u8],
    frames: &mut Frames,
) -> Result<bool, Stop> {
    match counter.feed(piece, frames) {
        Ok(()) => Ok(true),
        Err(CaptureFault::Memory) => Err(Stop::Memory),
        Err(_) => Ok(false),
    }
}

/// Reads a capture again, to its end. If it can't be read again, that is an error: the frames would
/// stay unknown.
fn look_in<S: Source>(
    alloc: Global,
    source: &mut S,
    name: &str,
    counter: &mut FrameCounter<'_>,
    frames: &mut Frames,
) -> Result<(), Stop> {
    let mut piece = vec![in alloc; 0u8; PIECE]?;
    let mut is_capture = true;
    let mut at = 0u64;
    'pieces: for _ in 0..u64::MAX {
        let Ok(read) = source.piece(name, at, &mut piece) else {
            return Err(Stop::Read);
        };
        if read == 0 {
            return Ok(());
        }
        is_capture = is_capture && count_piece(counter, &piece[..read], frames)?;
        let Some(next) = at.checked_add(read as u64) else {
            return Ok(());
        };
        at = next;
    }
    Ok(())
}

/// Looks up the requested frames, reading each capture once.
pub fn look_up<S: Source>(
    alloc: Global,
    source: &mut S,
    policy: &Policy,
    captures: &[&str],
    frames: &mut Frames,
) -> Result<(), Stop> {
    let mut file = 0u16;
    for name in captures {
        let mut counter = FrameCounter::new(alloc, policy, file)?;
        look_in(alloc, source, name, &mut counter, frames)?;
        file = file.saturating_add(1);
    }
    Ok(())
}
