//! Surveys captures that are files.

use crate::source::{PIECE, Source};
use crate::stop::Stop;
use prep_look::{Survey, Surveyor};
use std::alloc::Global;

/// Surveys one more capture, from its first byte to its last.
fn survey_capture<S: Source>(
    alloc: Global,
    source: &mut S,
    name: &str,
    surveyor: &mut Surveyor,
    capture: u32,
) -> Result<(), Stop> {
    let mut piece = vec![in alloc; 0u8; PIECE]?;
    let mut at = 0u64;
    'pieces: for _ in 0..u64::MAX {
        let read = source.piece(name, at, &mut piece)?;
        let taken = if read == 0 {
            surveyor.end()
        } else {
            surveyor.feed(&piece[..read])
        };
        if let Err(fault) = taken {
            return Err(Stop::of_cut(capture, fault.into()));
        }
        if read == 0 {
            return Ok(());
        }
        let Some(next) = at.checked_add(read as u64) else {
            return Err(Stop::Read);
        };
        at = next;
    }
    Err(Stop::Read)
}

/// Reads what captures contain.
pub fn survey_captures<S: Source>(
    alloc: Global,
    source: &mut S,
    names: &[&str],
) -> Result<Survey, Stop> {
    let mut surveyor = Surveyor::new(alloc);
    let mut capture = 0u32;
    for name in names {
        survey_capture(alloc, source, name, &mut surveyor, capture)?;
        capture = capture.saturating_add(1);
    }
    Ok(surveyor.finish()?)
}
