//! Reads files.

ghost use Rattle.std.specs.Prelude.{◌≡◌, ◌≤◌, ℕ, IfOk, List, Some, length};
ghost use Rattle.prep_program.specs.Pieces.{IsPieceAt};

use crate::stop::Stop;
use host::Failure;
use std::alloc::Global;

/// How many bytes are read at once.
pub const PIECE: usize = 65_536;

/// A file could not be read.
#[derive(Clone, Copy, Debug, PartialEq, Eq)]
pub struct ReadFailed;

/// Reads the bytes of files, piece by piece.
pub trait Source: Send + Drop + Sized {
    ghost use Rattle.std.specs.Prelude.{ℕ, List, Option};

    /// The bytes of the file of a name. For a source that is `None`, nothing is claimed.
    ghost holds: { Self → List ℕ → Option (List ℕ) };

    /// Reads bytes of the file from an offset on into the buffer, and returns their number: 0 at
    /// the end of the file, or if the buffer is empty.
    fn piece(&mut self, name: &str, at: u64, into: &mut [u8]) -> Result<usize, ReadFailed>
        ensures within { IfOk result (λ n. n ≤ length into.old) }
        ensures kept { holds self.new ≡ holds self.old }
        ensures bytes { (bytes : List ℕ) → holds self.old name.now ≡ Some bytes → IfOk result (λ n. IsPieceAt bytes at n into.new) };

    /// A second source of the same files, from which another thread may read at the same time.
    /// Nothing is read from it yet.
    fn second(&self) -> Self
        ensures { holds result ≡ holds self.now };

    /// Ends a second source. If a failure was recorded in it and none here, it is recorded here.
    fn end_second(&mut self, second: Self)
        ensures { holds self.new ≡ holds self.old };

    /// Whether a file can be read more than once; a pipe can't.
    fn is_repeatable(&self, name: &str) -> bool;

    /// The file that couldn't be read, and why; `None` if none was recorded.
    fn failure(&self) -> Option<&Failure>;
}

/// Refuses captures if one can't be read twice, before any is read.
pub fn check_repeatable<S: Source>(alloc: Global, source: &S, names: &[&str]) -> Result<(), Stop> {
    for name in names {
        if !source.is_repeatable(name) {
            return Err(Stop::ReadOnce(String::from_str(alloc, name)?));
        }
    }
    Ok(())
}
