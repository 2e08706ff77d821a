//! Writes a capture without the excluded packets.

ghost use Rattle.std.specs.Prelude.{◌≡◌, ◌∷◌, ◌++◌, [], ℕ, List, Option, OnOk, IfOk, IfErr};
ghost use Rattle.prep_blocks.specs.declared.block.Block.{Block};
ghost use Rattle.prep_cut.specs.declared.plan.Plan.{Plan};
ghost use Rattle.prep_cut.specs.declared.plan.Proposal.{Proposal};
ghost use Rattle.prep_cut.specs.Marks.{Marked};
ghost use Rattle.prep_cut.specs.Marking.{AreTallies};
ghost use Rattle.prep_cut.specs.Cutting.{IsCutting, GoesOn, IsRefused, IsCut, IsUndone};

use crate::fault::CutFault;
use crate::marker::Marker;
use crate::plan::{Plan, Proposal};
use crate::tallies::Tallies;
use crate::tally::Totals;
use prep_blocks::BlockSplitter;
use std::alloc::Global;

/// Cuts a capture that comes in pieces. It keeps the one block that is not yet complete. After a
/// fault it can't be used any more.
#[derive(Drop)]
pub struct Cutter<'p> {
    splitter: BlockSplitter,
    marker: Marker<'p>,
}

/// A capture that was cut.
#[derive(Debug, Drop)]
pub struct WasCut {
    pub totals: Totals,
    /// The tallies of all captures so far.
    pub tallies: Tallies,
}

impl<'p> Cutter<'p> {
    /// A cutter before the first byte, with the tallies of the earlier captures. The proposal for
    /// each packet is a line of the plan or none.
    pub fn new(alloc: Global, plan: &'p Plan, proposals: &'p [Proposal], tallies: Tallies) -> Self
        ensures { (earlier : List Marked) → AreTallies plan.now earlier tallies →
            IsCutting result plan.now proposals.now earlier [] [] }
    {
        Cutter {
            splitter: BlockSplitter::new(alloc),
            marker: Marker::new(plan, proposals, tallies),
        }
    }

    /// Feeds the next piece of the capture, and adds the blocks that are complete now and not
    /// excluded. C1 to C13 refuse it, and a section that states its length.
    pub fn feed(&mut self, piece: &[u8], out: &mut Vec<u8>) -> Result<(), CutFault>
        ensures ok { (plan : Plan) (proposals : List Proposal) (earlier : List Marked) (text : List ℕ) (current : List Block) →
            IsCutting self.old plan proposals earlier text current →
            OnOk result (GoesOn self.new plan proposals earlier text current piece.now [] out.old.items out.new.items) }
        ensures err { (plan : Plan) (proposals : List Proposal) (earlier : List Marked) (text : List ℕ) (current : List Block) →
            IsCutting self.old plan proposals earlier text current → IfErr result (λ fault. IsRefused fault (text ++ piece.now) current) }
    {
        let mut rest = piece;
        for _ in 0..piece.len() {
            let Some((block, behind)) = self.splitter.next(rest)? else {
                return Ok(());
            };
            if self.marker.take(&block)? {
                out.extend_from_slice(block.bytes.as_slice())?;
            }
            rest = behind;
        }
        Ok(())
    }

    /// Ends the capture, and returns its counts.
    pub fn finish(self) -> Result<WasCut, CutFault>
        ensures ok { (plan : Plan) (proposals : List Proposal) (earlier : List Marked) (text : List ℕ) (current : List Block) →
            IsCutting self.entry plan proposals earlier text current → IfOk result (λ cut. IsCut cut plan proposals earlier text current) }
        ensures err { (plan : Plan) (proposals : List Proposal) (earlier : List Marked) (text : List ℕ) (current : List Block) →
            IsCutting self.entry plan proposals earlier text current → IfErr result (λ fault. IsUndone fault text current) }
    {
        self.splitter.finish()?;
        let (totals, tallies) = self.marker.into_parts();
        Ok(WasCut { totals, tallies })
    }
}
