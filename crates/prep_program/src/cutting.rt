//! Cuts captures that are files.

ghost use Rattle.std.specs.Prelude.{◌≡◌, ◌++◌, [], ℕ, List, Option, Some, IfOk, OnOk};
ghost use Rattle.std.specs.List.{AllZip};
ghost use Rattle.sha2.specs.Sha256.{sha256};
ghost use Rattle.prep_blocks.specs.declared.block.Block.{Block};
ghost use Rattle.prep_cut.specs.Cutting.{IsCut, IsCutting};
ghost use Rattle.prep_cut.specs.Marks.{Marked};
ghost use Rattle.prep_cut.specs.declared.plan.Plan.{Plan};
ghost use Rattle.prep_cut.specs.declared.plan.Proposal.{Proposal};
ghost use Rattle.prep_program.specs.AllCuts.{CutsAll};
ghost use Rattle.prep_program.specs.Cuts.{Cuts, CutSoFar};
ghost use Rattle.prep_program.specs.Making.{files_of};

use crate::checksum::Checksum;
use crate::cut_comment::section_of_cut;
use crate::maker::{Maker, append_all};
use crate::source::{PIECE, Source};
use crate::stop::Stop;
use prep_cut::{CauseNumber, Cutter, Plan, Proposal, Tallies, Totals, WasCut};
use std::alloc::Global;

/// Writes a capture without the excluded packets, from its first byte to its last, to the file that
/// was made last, and adds its bytes to a checksum.
pub fn cut_capture<S: Source, M: Maker>(
    alloc: Global,
    source: &mut S,
    name: &str,
    cutter: Cutter<'_>,
    capture: u32,
    made: &mut M,
    checksum: &mut Checksum,
) -> Result<WasCut, Stop>
    ensures kept { S.holds source.new ≡ S.holds source.old }
    ensures others { M.making made.new ≡ M.making made.old }
    ensures cuts { (text : List ℕ) (plan : Plan) (proposals : List Proposal) (earlier : List Marked) → S.holds source.old name.now ≡ Some text →
        IsCutting cutter.entry plan proposals earlier [] [] →
        IfOk result (λ cut. Cuts cut plan proposals earlier text (M.taken made.old) (M.taken made.new)) }
{
    let mut cutter = cutter;
    let mut piece = vec![in alloc; 0u8; PIECE]?;
    let mut out = Vec::new(alloc);
    let mut at = 0u64;
    'pieces: for _ in 0..u64::MAX {
        let read = source.piece(name, at, &mut piece)?;
        if read == 0 {
            return end_capture(cutter, capture);
        }
        let bytes = &piece[..read];
        checksum.update(bytes);
        cut_piece(&mut cutter, capture, bytes, made, &mut out)?;
        let Some(next) = at.checked_add(read as u64) else {
            return Err(Stop::Read);
        };
        at = next;
    }
    Err(Stop::Read)
}

/// Cuts the next piece, and writes what stays of it. It uses the buffer for that.
fn cut_piece<M: Maker>(
    cutter: &mut Cutter<'_>,
    capture: u32,
    piece: &[u8],
    made: &mut M,
    out: &mut Vec<u8>,
) -> Result<(), Stop>
    ensures others { M.making made.new ≡ M.making made.old }
    ensures ok { (plan : Plan) (proposals : List Proposal) (earlier : List Marked) (text : List ℕ) (before : Option (List ℕ)) →
        CutSoFar cutter.old plan proposals earlier text before (M.taken made.old) →
        OnOk result (CutSoFar cutter.new plan proposals earlier (text ++ piece.now) before (M.taken made.new)) }
{
    out.clear();
    if let Err(fault) = cutter.feed(piece, out) {
        return Err(Stop::of_cut(capture, fault));
    }
    append_all(made, out)?;
    Ok(())
}

/// Ends a capture, and returns its result.
fn end_capture(cutter: Cutter<'_>, capture: u32) -> Result<WasCut, Stop>
    ensures { (plan : Plan) (proposals : List Proposal) (earlier : List Marked) (text : List ℕ) (current : List Block) →
        IsCutting cutter.entry plan proposals earlier text current → IfOk result (λ cut. IsCut cut plan proposals earlier text current) }
{
    match cutter.finish() {
        Ok(cut) => Ok(cut),
        Err(fault) => Err(Stop::of_cut(capture, fault)),
    }
}

/// A capture that is to be cut.
#[derive(Debug, Drop)]
pub struct ToCut<'a> {
    pub name: &'a str,
    /// The name of its output file.
    pub file: String,
    /// The proposal for each of its packets.
    pub proposals: Vec<Proposal>,
    /// The SHA-256 of its bytes.
    pub digest: [u8; 32],
    /// The checksum of its bytes.
    pub checksum: u64,
}

/// Captures that were cut.
#[derive(Debug, Drop)]
pub struct AllCut {
    pub totals: Vec<Totals>,
    pub tallies: Tallies,
}

/// Cuts captures one after another, each to its own file. The tallies are those of all captures,
/// with this number of groups of unread packets. A capture whose checksum differs is refused.
pub fn cut_captures<S: Source, M: Maker>(
    alloc: Global,
    source: &mut S,
    captures: &[ToCut<'_>],
    plan: &Plan,
    groups: CauseNumber,
    made: &mut M,
) -> Result<AllCut, Stop>
    ensures { (texts : List (List ℕ)) → AllZip (λ one text. (S.holds source.old one.name.now ≡ Some text) × (one.digest ≡ sha256 text)) captures.now texts →
        IfOk result (λ all. CutsAll all plan.now captures.now texts (files_of (M.making made.old) (M.taken made.old)) (files_of (M.making made.new) (M.taken made.new))) }
{
    let mut tallies = Tallies::new(alloc, plan, groups as usize)?;
    let mut totals = Vec::new(alloc);
    let mut number = 0u32;
    for one in captures {
        made.make(one.file.as_str())?;
        let cutter = Cutter::new(alloc, plan, &one.proposals, tallies);
        let mut checksum = Checksum::new();
        let cut = cut_capture(alloc, source, one.name, cutter, number, made, &mut checksum)?;
        if checksum.value() != one.checksum {
            return Err(Stop::Changed(number));
        }
        let section = section_of_cut(alloc, &cut.totals, &one.digest)?;
        append_all(made, section.as_slice())?;
        tallies = cut.tallies;
        totals.push(cut.totals)?;
        number = number.saturating_add(1);
    }
    Ok(AllCut { totals, tallies })
}
