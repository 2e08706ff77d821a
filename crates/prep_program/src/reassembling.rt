//! Reassembles captures that are files.

ghost use Rattle.std.specs.Prelude.{◌≡◌, ℕ, List, Some, OnOk};
ghost use Rattle.prep_blocks.specs.declared.block.Block.{Block};
ghost use Rattle.prep_fragments.specs.Reassembling.{IsDone, IsReassembling};
ghost use Rattle.prep_program.specs.Reassemblies.{Reassembles};
ghost use Rattle.prep_program.specs.Answered.{IsSuccess};

use crate::folder::{check_parts, last_part, path_in};
use crate::maker::Maker;
use crate::source::{PIECE, Source};
use crate::stop::Stop;
use audit_model::{Sink, put_all};
use audit_pcapng::CaptureFault;
use prep_fragments::{ReassembleFault, Reassembled, Reassembler, Refused};
use std::alloc::Global;

/// The arguments of the command `reassemble`.
#[derive(Drop)]
pub struct ReassembleRequest<'a> {
    /// An existing folder.
    pub folder: &'a str,
    pub captures: Vec<&'a str>,
}

/// Reassembles a capture to the file that was made last, and returns the counts. If a capture is
/// refused, the blocks before its fault are written.
pub fn reassemble_capture<S: Source, M: Maker>(
    alloc: Global,
    source: &mut S,
    name: &str,
    capture: u32,
    made: &mut M,
) -> Result<Reassembled, Stop>
    ensures kept { S.holds source.new ≡ S.holds source.old }
    ensures reassembles { (text : List ℕ) → S.holds source.old name.now ≡ Some text →
        OnOk result (Reassembles text (M.taken made.old) (M.taken made.new)) }
{
    let mut reassembler = Reassembler::new(alloc);
    let mut piece = vec![in alloc; 0u8; PIECE]?;
    let mut out = Vec::new(alloc);
    let mut at = 0u64;
    'pieces: for _ in 0..u64::MAX {
        let read = source.piece(name, at, &mut piece)?;
        if read == 0 {
            return end_capture(&reassembler, capture);
        }
        if let Err(fault) = reassembler.feed(&piece[..read], &mut out) {
            // what the capture has before its fault is written
            put_all(made, &out)?;
            return Err(stop_of(capture, fault));
        }
        put_all(made, &out)?;
        out.clear();
        let Some(next) = at.checked_add(read as u64) else {
            return Err(Stop::Read);
        };
        at = next;
    }
    Err(Stop::Read)
}

/// Ends a capture, and returns the counts.
fn end_capture(reassembler: &Reassembler, capture: u32) -> Result<Reassembled, Stop>
    ensures { (text : List ℕ) (blocks : List Block) → IsReassembling reassembler.now text blocks → OnOk result (IsDone text blocks) }
{
    match reassembler.finish() {
        Ok(count) => Ok(count),
        Err(fault) => Err(stop_of(capture, fault)),
    }
}

/// The fault of a capture, by its number.
fn stop_of(capture: u32, fault: ReassembleFault) -> Stop {
    match fault {
        ReassembleFault::Capture(CaptureFault::Memory) => Stop::Memory,
        _ => Stop::Reassemble(Refused { capture, fault }),
    }
}

/// Reassembles captures to files of the same names in a folder, and prints how many fragments were
/// reassembled.
pub fn run_reassemble<S: Source, M: Maker, O: Sink>(
    alloc: Global,
    request: &ReassembleRequest<'_>,
    source: &mut S,
    maker: &mut M,
    out: &mut O,
) -> Result<u8, Stop>
    ensures { IsSuccess result }
{
    check_parts(&request.captures)?;
    let mut report = String::from_str(alloc, "turnprep-reassembled 1\n")?;
    let mut capture = 0u32;
    for name in &request.captures {
        let file = path_in(alloc, request.folder, last_part(name)?)?;
        maker.make(file.as_str())?;
        let count = reassemble_capture(alloc, source, name, capture, maker)?;
        let datagrams = count.datagrams;
        let fragments = count.fragments;
        let line = format!(in alloc;
            "capture {capture} reassembled {datagrams} of {fragments} fragments\n"
        )?;
        report.push_str(line.as_str())?;
        capture = capture.saturating_add(1);
    }
    put_all(out, report.as_bytes())?;
    maker.publish()?;
    Ok(0)
}
