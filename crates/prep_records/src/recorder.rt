//! Records captures that come in pieces.

ghost use Rattle.std.specs.Prelude.{◌≡◌, [], ◌∷◌, ◌++◌, ℕ, List, Option, OnOk};
ghost use Rattle.audit_model.specs.declared.policy.Policy.{Policy as AnyPolicy};
ghost use Rattle.prep_blocks.specs.declared.block.Block.{Block};
ghost use Rattle.prep_cut.specs.Allocating.{AreNoted};
ghost use Rattle.prep_records.specs.Recording.{IsRecording, GoesOn, Ended, blocks_from, is_from};

use crate::keeper::Keeper;
use crate::record::Records;
use audit_model::Policy;
use audit_pcapng::CaptureFault;
use prep_blocks::{Block, BlockSplitter};
use prep_cut::{Allocations, Stated};
use std::alloc::{AllocError, Global};

/// Records captures, each of which comes in pieces, cut anywhere. After a fault it can't be used
/// any more. Except the allocations, its results are only for proposals. Packets before the stated
/// moment aren't recorded: the captures are treated as if they began there.
#[derive(Drop)]
pub struct Recorder<'p> {
    policy: &'p Policy,
    stated: Stated,
    splitter: BlockSplitter,
    allocations: Allocations,
    keeper: Keeper<'p>,
    alloc: Global,
}

impl<'p> Recorder<'p> {
    /// A recorder before the first capture. It takes no memory.
    pub fn new(alloc: Global, policy: &'p Policy, stated: Stated) -> Self
        ensures { IsRecording result policy.now stated.since [] [] [] }
    {
        Recorder {
            policy,
            stated,
            splitter: BlockSplitter::new(alloc),
            allocations: Allocations::new(alloc),
            keeper: Keeper::new(alloc, policy, stated),
            alloc,
        }
    }

    /// Feeds the next piece of the present capture.
    pub fn feed(&mut self, piece: &[u8]) -> Result<(), CaptureFault>
        ensures { (policy : AnyPolicy) (since : Option ℕ) (earlier : List Block) (text : List ℕ) (current : List Block) →
            IsRecording self.old policy since earlier text current → OnOk result (GoesOn self.new policy since earlier text current piece.now []) }
    {
        let mut rest = piece;
        for _ in 0..piece.len() {
            let Some((block, behind)) = self.splitter.next(rest)? else {
                return Ok(());
            };
            self.note(&block)?;
            self.keeper.take(&block)?;
            rest = behind;
        }
        Ok(())
    }

    /// Records the Allocate, the lease and the sender of a block, unless its packet is before the
    /// stated moment.
    fn note(&mut self, block: &Block) -> Result<(), AllocError>
        ensures noted { (blocks : List Block) → AreNoted self.old.policy.now self.old.allocations (blocks_from self.old.stated.since blocks) →
            OnOk result (AreNoted self.old.policy.now self.new.allocations (blocks_from self.old.stated.since (blocks ++ block.now ∷ []))) }
        ensures policy { self.new.policy ≡ self.old.policy }
        ensures stated { self.new.stated ≡ self.old.stated }
        ensures splitter { self.new.splitter ≡ self.old.splitter }
    {
        if !self.is_from(block) {
            return Ok(());
        }
        self.allocations.note(self.policy, block)?;
        Ok(())
    }

    /// Whether a block has no packet before the stated moment.
    fn is_from(&self, block: &Block) -> bool
        ensures { result ≡ is_from self.now.stated.since block.now.packet }
    {
        match block.packet {
            Some(head) => !self.stated.is_early(head.stamp),
            None => true,
        }
    }

    /// Ends the present capture, and begins the next one.
    pub fn end(&mut self) -> Result<(), CaptureFault>
        ensures { (policy : AnyPolicy) (since : Option ℕ) (earlier : List Block) (text : List ℕ) (current : List Block) →
            IsRecording self.old policy since earlier text current → OnOk result (Ended self.new policy since earlier text current) }
    {
        self.splitter.finish()?;
        self.keeper.end()?;
        self.splitter = BlockSplitter::new(self.alloc);
        Ok(())
    }

    /// The records of the captures that ended.
    pub fn finish(self) -> Records
        ensures { (policy : AnyPolicy) (since : Option ℕ) (earlier : List Block) → IsRecording self.entry policy since earlier [] [] →
            AreNoted policy result.allocations (blocks_from since earlier) }
    {
        self.keeper.finish(self.allocations)
    }
}
