//! Reassembles a capture that comes in pieces.

ghost use Rattle.std.specs.Prelude.{◌++◌, [], ℕ, List, OnOk};
ghost use Rattle.prep_blocks.specs.declared.block.Block.{Block};

use crate::fault::ReassembleFault;
use crate::feeding::{Reassembled, take_block};
use crate::opens::Opens;
use prep_blocks::BlockSplitter;
use std::alloc::Global;

/// Reassembles one capture that comes in pieces, cut anywhere. It keeps the one block that is not
/// yet complete, and the fragments of incomplete datagrams. After a fault it can't be used any
/// more.
#[derive(Drop)]
pub struct Reassembler {
    splitter: BlockSplitter,
    opens: Opens,
    count: Reassembled,
    alloc: Global,
}

impl Reassembler {
    ghost use Rattle.prep_fragments.specs.Reassembling.{IsReassembling, GoesOn, IsDone};

    /// Before the first byte. It takes no memory.
    pub fn new(alloc: Global) -> Self
        ensures { IsReassembling result [] [] }
    {
        Reassembler {
            splitter: BlockSplitter::new(alloc),
            opens: Opens::new(alloc),
            count: Reassembled {
                datagrams: 0,
                fragments: 0,
            },
            alloc,
        }
    }

    /// Feeds the next piece of the capture, and adds the output for the blocks that are complete
    /// now.
    pub fn feed(&mut self, piece: &[u8], out: &mut Vec<u8>) -> Result<(), ReassembleFault>
        ensures { (text : List ℕ) (blocks : List Block) → IsReassembling self.old text blocks →
            OnOk result (GoesOn self.new text blocks piece.now [] out.old.items out.new.items) }
    {
        let mut rest = piece;
        for _ in 0..piece.len() {
            let Some((block, behind)) = self.splitter.next(rest)? else {
                return Ok(());
            };
            take_block(self.alloc, &mut self.opens, &mut self.count, block, out)?;
            rest = behind;
        }
        Ok(())
    }

    /// Ends the capture, in which no datagram may have missing fragments, and returns the counts.
    pub fn finish(&self) -> Result<Reassembled, ReassembleFault>
        ensures { (text : List ℕ) (blocks : List Block) → IsReassembling self.now text blocks → OnOk result (IsDone text blocks) }
    {
        self.splitter.finish()?;
        if !self.opens.is_empty() {
            return Err(ReassembleFault::Missing {
                datagrams: self.opens.len(),
            });
        }
        Ok(self.count)
    }
}
