//! Which blocks continue the earlier captures.

ghost use Rattle.std.specs.Prelude.{◌≡◌, ◌≢◌, ◌∷◌, ◌++◌, [], List, OnOk, IfOk, IfErr};
ghost use Rattle.prep_blocks.specs.declared.block.Block.{Block};
ghost use Rattle.prep_join.specs.Rings.{is_kept, interfaces_of, first_of};
ghost use Rattle.prep_join.specs.Joining.{IsAt, Fits, Refuses};
ghost use Rattle.prep_join.specs.declared.fault.JoinFault.TheVariants.{Interfaces};

use crate::fault::JoinFault;
use crate::shape::Shape;
use crate::stamps::Stamps;
use prep_blocks::Block;
use std::alloc::Global;

/// The requirements of the captures so far on the next block.
#[derive(Debug, Drop)]
pub struct Ring {
    shape: Shape,
    stamps: Stamps,
}

impl Ring {
    /// Before the first block.
    pub fn new(alloc: Global) -> Self
        ensures { IsAt result [] [] }
    {
        Ring {
            shape: Shape::new(alloc),
            stamps: Stamps::new(alloc),
        }
    }

    /// Checks the next block of this capture, and returns whether it is written.
    pub fn take(&mut self, block: &Block) -> Result<bool, JoinFault>
        ensures ok { (done : List (List Block)) (current : List Block) → IsAt self.old done current →
            OnOk result (IsAt self.new done (current ++ block.now ∷ [])) }
        ensures kept { (done : List (List Block)) (current : List Block) → IsAt self.old done current →
            IfOk result (λ kept. kept ≡ is_kept done block.now) }
        ensures fits { (done : List (List Block)) (current : List Block) → IsAt self.old done current →
            OnOk result (Fits done current block.now) }
        ensures err { (done : List (List Block)) (current : List Block) → IsAt self.old done current →
            IfErr result (λ fault. Refuses fault done current block.now) }
    {
        self.shape.take(block)?;
        self.stamps.take(block)?;
        Ok(self.shape.keeps(block))
    }

    /// Ends this capture, so that the next one begins.
    pub fn end(&mut self) -> Result<(), JoinFault>
        ensures ok { (done : List (List Block)) (current : List Block) → IsAt self.old done current →
            OnOk result (IsAt self.new (done ++ current ∷ []) []) }
        ensures same { (done : List (List Block)) (current : List Block) → IsAt self.old done current →
            OnOk result (interfaces_of current ≡ interfaces_of (first_of done current)) }
        ensures err { (done : List (List Block)) (current : List Block) → IsAt self.old done current →
            IfErr result (λ fault. (fault ≡ Interfaces) × (interfaces_of current ≢ interfaces_of (first_of done current))) }
    {
        self.shape.end()?;
        self.stamps.end();
        Ok(())
    }
}
