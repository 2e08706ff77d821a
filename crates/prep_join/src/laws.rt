//! The law of joining one more capture. It does nothing at run time.

ghost use Rattle.std.specs.Prelude.{◌≡◌, ◌∷◌, ◌++◌, [], List};
ghost use Rattle.prep_blocks.specs.declared.block.Block.{Block};
ghost use Rattle.prep_join.specs.Rings.{joined, written_of};

/// Joined captures are the output for each after those before it.
pub fn one_more_capture()
    ensures { (done : List (List Block)) (current : List Block) → joined (done ++ current ∷ []) ≡ joined done ++ written_of done current }
{}
