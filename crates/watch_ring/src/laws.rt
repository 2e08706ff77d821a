//! The law of the next file. It does nothing at run time.

ghost use Rattle.std.specs.Prelude.{◌≡◌, List};
ghost use Rattle.watch_ring.specs.declared.ring_file.RingFile.{RingFile};
ghost use Rattle.watch_ring.specs.declared.next_file.Next.{Next};
ghost use Rattle.watch_ring.specs.Order.{IsNext};

/// For each current file, one result of `after` alone meets its contract.
pub fn one_next()
    ensures { (files : List RingFile) (current : RingFile) (a b : Next) → IsNext files current a → IsNext files current b → a ≡ b }
{}
