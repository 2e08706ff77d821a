//! Makes and writes new files.

ghost use Rattle.std.specs.Prelude.{◌≡◌, ◌≤◌, length, take, IfOk, OnOk, OnErr};
ghost use Rattle.audit_model.specs.Sink.{followed_by};
ghost use Rattle.prep_program.specs.Making.{emptied, files_of, opened_by};

use audit_model::{Sink, SinkFailed};
use host::Failure;

/// Why a file could not be made.
#[derive(Clone, Copy, Debug, PartialEq, Eq)]
pub enum MakeFault {
    /// A file of that name exists.
    Exists,
    Failed,
    Memory,
}

/// Makes files, and appends bytes to the file that it made last. The files get their names when all
/// are written: until then, no other program finds one under its name. An existing file is never
/// overwritten.
pub trait Maker: Sink {
    ghost use Rattle.std.specs.Prelude.{Option};
    ghost use Rattle.prep_program.specs.Making.{Making};

    /// The files that it made, except the bytes of the last one. For a maker that is `None`,
    /// nothing is claimed.
    ghost making: { Self → Option Making };

    /// Makes an empty file.
    fn make(&mut self, name: &str) -> Result<(), MakeFault>
        ensures empty { OnOk result (Self.taken self.new ≡ emptied (Self.taken self.old)) }
        ensures opened { OnOk result (making self.new ≡ opened_by name.now (files_of (making self.old) (Self.taken self.old))) };

    /// Writes a prefix of the piece to the file that it made last, and returns its length.
    fn append(&mut self, piece: &[u8]) -> Result<usize, SinkFailed>
        ensures within { IfOk result (λ n. n ≤ length piece.now) }
        ensures took { IfOk result (λ n. Self.taken self.new ≡ followed_by (Self.taken self.old) (take n piece.now)) }
        ensures failed { OnErr result (Self.taken self.new ≡ Self.taken self.old) }
        ensures others { making self.new ≡ making self.old };

    /// Publishes the files under their names: all, or none.
    fn publish(&mut self) -> Result<(), MakeFault>
        ensures files { making self.new ≡ making self.old }
        ensures bytes { Self.taken self.new ≡ Self.taken self.old };

    /// Removes the files that have no names yet.
    fn discard(&mut self);

    /// The file that couldn't be made, written or named, and why; `None` if none was recorded.
    fn failure(&self) -> Option<&Failure>;
}

/// Appends all of the bytes to the file that was made last, piece by piece.
pub fn append_all<M: Maker>(maker: &mut M, bytes: &[u8]) -> Result<(), SinkFailed>
    ensures ok { OnOk result (M.taken maker.new ≡ followed_by (M.taken maker.old) bytes.now) }
    ensures others { M.making maker.new ≡ M.making maker.old }
{
    let mut done = 0;
    while done < bytes.len() {
        let taken = maker.append(&bytes[done..])?;
        if taken == 0 {
            return Err(SinkFailed);
        }
        done += taken;
    }
    Ok(())
}
