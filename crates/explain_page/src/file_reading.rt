//! The digests of a file that is read in pieces, maybe more than once.

ghost use Rattle.std.specs.Prelude.{◌≡◌, ◌≤◌, ℕ, List, drop, length, take, IfOk, IfSome, string_bytes};
ghost use Rattle.explain_page.specs.Hashed.{IsDigestOf};
ghost use Rattle.explain_page.specs.Reading.{IsPiece, IsReadOf};

use crate::hashed::{Digests, Hashing};
use std::alloc::{AllocError, Global};

/// A file, and the progress of reading it.
#[derive(Drop)]
pub struct FileReading {
    name: String,
    /// The hash state of the bytes from the file's start on, during a reading.
    hashing: Option<Hashing>,
    /// The number of these bytes.
    read: u64,
    /// The digests of its first complete reading.
    digests: Option<Digests>,
}

impl FileReading {
    /// A file before its first reading.
    pub fn new(alloc: Global, name: &str) -> Result<Self, AllocError>
        ensures { (bytes : List ℕ) → IfOk result (λ file. IsReadOf file bytes) }
    {
        Ok(FileReading {
            name: String::from_str(alloc, name)?,
            hashing: None,
            read: 0,
            digests: None,
        })
    }

    /// Its name.
    pub fn name(&self) -> &str
        ensures { result.now ≡ string_bytes self.now.name }
    {
        self.name.as_str()
    }

    /// The size and the digest of its bytes at its first reading; `None` if it wasn't read to its
    /// end.
    pub fn digests(&self) -> Option<Digests>
        ensures { (bytes : List ℕ) → IsReadOf self.now bytes → IfSome result (IsDigestOf bytes) }
    {
        self.digests
    }

    /// Records the piece at an offset, an empty one at the file's end. Returns whether the file has
    /// other bytes than at its first reading. It returns false for a pipe, which has no bytes when
    /// it is read again.
    pub fn take(&mut self, at: u64, piece: &[u8]) -> bool
        ensures { (bytes : List ℕ) → IsReadOf self.old bytes → IsPiece bytes at piece.now → IsReadOf self.new bytes }
    {
        if at == 0 {
            self.begin();
        }
        if at != self.read {
            return false;
        }
        if piece.is_empty() {
            return self.end();
        }
        self.add(piece);
        false
    }

    /// Begins a reading.
    fn begin(&mut self)
        ensures reads { (bytes : List ℕ) → IsReadOf self.old bytes → IsReadOf self.new bytes }
        ensures front { self.new.read ≡ 0 }
    {
        self.hashing = Some(Hashing::new());
        self.read = 0;
    }

    /// Adds the next piece.
    fn add(&mut self, piece: &[u8])
        ensures { (bytes : List ℕ) → IsReadOf self.old bytes → piece.now ≡ take (length piece.now) (drop self.old.read bytes) →
            IsReadOf self.new bytes }
    {
        let Some(mut hashing) = self.hashing.take() else {
            return;
        };
        let Some(read) = self.read.checked_add(piece.len() as u64) else {
            return;
        };
        hashing.feed(piece);
        self.hashing = Some(hashing);
        self.read = read;
    }

    /// Ends a reading.
    fn end(&mut self) -> bool
        ensures { (bytes : List ℕ) → IsReadOf self.old bytes → length bytes ≤ self.old.read → IsReadOf self.new bytes }
    {
        let Some(hashing) = self.hashing.take() else {
            return false;
        };
        let digests = hashing.finish();
        match self.digests {
            None => {
                self.digests = Some(digests);
                false
            }
            Some(first) => self.read > 0 && first != digests,
        }
    }
}
