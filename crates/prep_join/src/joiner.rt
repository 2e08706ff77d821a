//! Joins captures that come in pieces.

ghost use Rattle.std.specs.Prelude.{◌≡◌, ◌∷◌, ◌++◌, [], ℕ, List, OnOk, IfOk, IfErr};
ghost use Rattle.prep_blocks.specs.declared.block.Block.{Block};
ghost use Rattle.prep_join.specs.Joined.{IsJoining, GoesOn, IsRefused, IsDone, IsUndone};

use crate::counts::Counts;
use crate::fault::JoinFault;
use crate::ring::Ring;
use prep_blocks::BlockSplitter;
use std::alloc::Global;

/// Joins captures, each of which comes in pieces, cut anywhere. It keeps the one block that is not
/// yet complete, and the interface blocks of the first capture. After a fault it can't be used any
/// more.
#[derive(Debug, Drop)]
pub struct Joiner {
    splitter: BlockSplitter,
    ring: Ring,
    counts: Counts,
    alloc: Global,
}

impl Joiner {
    /// A joiner before the first capture. It takes no memory.
    pub fn new(alloc: Global) -> Self
        ensures { IsJoining result [] [] [] }
    {
        Joiner {
            splitter: BlockSplitter::new(alloc),
            ring: Ring::new(alloc),
            counts: Counts::none(),
            alloc,
        }
    }

    /// Feeds the next piece of the present capture, and adds the output for the blocks that are
    /// complete now.
    pub fn feed(&mut self, piece: &[u8], out: &mut Vec<u8>) -> Result<(), JoinFault>
        ensures ok { (done : List (List Block)) (text : List ℕ) (current : List Block) → IsJoining self.old done text current →
            OnOk result (GoesOn self.new done text current piece.now [] out.old.items out.new.items) }
        ensures err { (done : List (List Block)) (text : List ℕ) (current : List Block) → IsJoining self.old done text current →
            IfErr result (λ fault. IsRefused fault done (text ++ piece.now) current) }
    {
        let mut rest = piece;
        for _ in 0..piece.len() {
            let Some((block, behind)) = self.splitter.next(rest)? else {
                return Ok(());
            };
            if self.ring.take(&block)? {
                out.extend_from_slice(block.bytes.as_slice())?;
            }
            self.counts = self.counts.with(block.kind);
            rest = behind;
        }
        Ok(())
    }

    /// Ends the present capture, returns its numbers of blocks, and begins the next one.
    pub fn end(&mut self) -> Result<Counts, JoinFault>
        ensures ok { (done : List (List Block)) (text : List ℕ) (current : List Block) → IsJoining self.old done text current →
            IfOk result (λ counts. IsDone self.new done text current counts) }
        ensures err { (done : List (List Block)) (text : List ℕ) (current : List Block) → IsJoining self.old done text current →
            IfErr result (λ fault. IsUndone fault done text current) }
    {
        self.splitter.finish()?;
        self.ring.end()?;
        let counts = self.counts;
        self.counts = Counts::none();
        self.splitter = BlockSplitter::new(self.alloc);
        Ok(counts)
    }
}
