//! Joins captures that are files.

ghost use Rattle.std.specs.Prelude.{◌≡◌, [], ℕ, List, Some, IfOk, OnOk};
ghost use Rattle.std.specs.List.{AllZip};
ghost use Rattle.prep_blocks.specs.declared.block.Block.{Block};
ghost use Rattle.prep_join.specs.Joined.{IsDone, IsJoining};
ghost use Rattle.prep_program.specs.Joins.{Joins, JoinsAll};

use crate::maker::Maker;
use crate::source::{PIECE, Source};
use crate::stop::Stop;
use audit_model::put_all;
use prep_join::{Counts, Joiner};
use std::alloc::Global;

/// Joins one more capture, from its first byte to its last.
fn join_capture<S: Source, M: Maker>(
    alloc: Global,
    source: &mut S,
    name: &str,
    joiner: &mut Joiner,
    capture: u32,
    made: &mut M,
) -> Result<Counts, Stop>
    ensures kept { S.holds source.new ≡ S.holds source.old }
    ensures joins { (text : List ℕ) (done : List (List Block)) → S.holds source.old name.now ≡ Some text → IsJoining joiner.old done [] [] →
        IfOk result (λ counts. Joins joiner.new done text counts (M.taken made.old) (M.taken made.new)) }
{
    let mut piece = vec![in alloc; 0u8; PIECE]?;
    let mut out = Vec::new(alloc);
    let mut at = 0u64;
    'pieces: for _ in 0..u64::MAX {
        let read = source.piece(name, at, &mut piece)?;
        if read == 0 {
            return end_capture(joiner, capture);
        }
        if let Err(fault) = joiner.feed(&piece[..read], &mut out) {
            // what the capture has before its fault is written
            put_all(made, &out)?;
            return Err(Stop::of_capture(capture, fault));
        }
        put_all(made, &out)?;
        out.clear();
        let Some(next) = at.checked_add(read as u64) else {
            return Err(Stop::Read);
        };
        at = next;
    }
    Err(Stop::Read)
}

/// Ends a capture, and returns its counts.
fn end_capture(joiner: &mut Joiner, capture: u32) -> Result<Counts, Stop>
    ensures { (done : List (List Block)) (text : List ℕ) (current : List Block) → IsJoining joiner.old done text current →
        IfOk result (λ counts. IsDone joiner.new done text current counts) }
{
    match joiner.end() {
        Ok(counts) => Ok(counts),
        Err(fault) => Err(Stop::of_capture(capture, fault)),
    }
}

/// Joins captures in order to the file that was made last, and returns the number of blocks of
/// each. If a capture is refused, the blocks before its fault are written.
pub fn join_captures<S: Source, M: Maker>(
    alloc: Global,
    source: &mut S,
    names: &[&str],
    made: &mut M,
) -> Result<Vec<Counts>, Stop>
    ensures { (texts : List (List ℕ)) → AllZip (λ name text. S.holds source.old name.now ≡ Some text) names.now texts →
        OnOk result (JoinsAll texts (M.taken made.old) (M.taken made.new)) }
{
    let mut joiner = Joiner::new(alloc);
    let mut all = Vec::new(alloc);
    let mut capture = 0u32;
    for name in names {
        let counts = join_capture(alloc, source, name, &mut joiner, capture, made)?;
        all.push(counts)?;
        capture = capture.saturating_add(1);
    }
    Ok(all)
}
