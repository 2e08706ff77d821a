//! Translates a capture that comes in pieces.

ghost use Rattle.std.specs.Prelude.{◌≡◌, ◌++◌, [], ℕ, List, OnOk, IfOk, IfErr};
ghost use Rattle.prep_blocks.specs.declared.block.Block.{Block};

use crate::fault::TranslateFault;
use crate::packet::translate;
use crate::renaming::Renaming;
use crate::tally::Tally;
use prep_blocks::BlockSplitter;
use std::alloc::Global;

/// Translates one capture that comes in pieces, cut anywhere. It keeps the one block that is not
/// yet complete. After a fault it can't be used any more.
#[derive(Debug, Drop)]
pub struct Translator {
    splitter: BlockSplitter,
    tally: Tally,
}

impl Translator {
    ghost use Rattle.prep_translate.specs.declared.renaming.Renaming.{Renaming};
    ghost use Rattle.prep_translate.specs.Translating.{IsTranslating, GoesOn, IsRefused, IsDone, IsUndone};

    /// Before the first byte. It takes no memory.
    pub fn new(alloc: Global) -> Self
        ensures { (renaming : Renaming) → IsTranslating renaming result [] [] }
    {
        Translator {
            splitter: BlockSplitter::new(alloc),
            tally: Tally::none(),
        }
    }

    /// Feeds the next piece of the capture, and adds the blocks that are complete now, translated.
    pub fn feed(
        &mut self,
        renaming: &Renaming,
        piece: &[u8],
        out: &mut Vec<u8>,
    ) -> Result<(), TranslateFault>
        ensures ok { (text : List ℕ) (blocks : List Block) → IsTranslating renaming.now self.old text blocks →
            OnOk result (GoesOn renaming.now self.new text blocks piece.now [] out.old.items out.new.items) }
        ensures err { (text : List ℕ) (blocks : List Block) → IsTranslating renaming.now self.old text blocks →
            IfErr result (λ fault. IsRefused renaming.now fault (text ++ piece.now) blocks) }
    {
        let mut rest = piece;
        for _ in 0..piece.len() {
            let Some((block, behind)) = self.splitter.next(rest)? else {
                return Ok(());
            };
            let moved = translate(renaming, &block, out)?;
            self.tally = self.tally.with(moved);
            rest = behind;
        }
        Ok(())
    }

    /// Ends the capture, and returns its counts.
    pub fn finish(&self) -> Result<Tally, TranslateFault>
        ensures ok { (renaming : Renaming) (text : List ℕ) (blocks : List Block) → IsTranslating renaming self.now text blocks →
            IfOk result (λ tally. IsDone renaming text blocks tally) }
        ensures err { (renaming : Renaming) (text : List ℕ) (blocks : List Block) → IsTranslating renaming self.now text blocks →
            IfErr result (λ fault. IsUndone fault text blocks) }
    {
        self.splitter.finish()?;
        Ok(self.tally)
    }
}
