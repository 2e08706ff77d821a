//! The source of files.

ghost use Rattle.std.specs.Prelude.{◌≡◌, ◌≤◌, ℕ, IfOk, List, OnErr, Some, length, true};
ghost use Rattle.audit_files.specs.Pieces.{IsPieceAt};

use std::alloc::Global;

/// How many bytes are requested at once.
pub const PIECE: usize = 65_536;

/// A file could not be read.
#[derive(Clone, Copy, Debug, PartialEq, Eq)]
pub struct ReadFailed;

/// Reads files, piece by piece.
pub trait Source: Send + Drop + Sized {
    ghost use Rattle.std.specs.Prelude.{ℕ, Bool, List, Option, true};

    /// The bytes of the file of a name. A source that is None claims nothing of them.
    ghost holds: { Self → List ℕ → Option (List ℕ) };

    /// Whether reading the file of a name may fail. A source that is true of all names claims
    /// nothing.
    ghost may_fail: { Self → List ℕ → Bool } = { λ _ _. true };

    /// Reads bytes of the file from an offset on into the buffer, and returns how many: 0 at the
    /// end of the file, or if the buffer has no room.
    fn piece(&mut self, name: &str, at: u64, into: &mut [u8]) -> Result<usize, ReadFailed>
        ensures within { IfOk result (λ n. n ≤ length into.old) }
        ensures kept { holds self.new ≡ holds self.old }
        ensures steady { may_fail self.new ≡ may_fail self.old }
        ensures failed { OnErr result (may_fail self.old name.now ≡ true) }
        ensures bytes { (bytes : List ℕ) → holds self.old name.now ≡ Some bytes → IfOk result (λ n. IsPieceAt bytes at n into.new) };

    /// A source of the same files, which another thread may read from at the same time. Nothing of
    /// it is read yet.
    fn beside(&self, alloc: Global) -> Self
        ensures kept { holds result ≡ holds self.now }
        ensures steady { may_fail result ≡ may_fail self.now };
}
