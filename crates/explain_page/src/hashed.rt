//! The size and the SHA-256 of files.

ghost use Rattle.std.specs.Prelude.{◌≡◌, ◌++◌, [], ℕ, List};
ghost use Rattle.sha2.specs.Sha256.{sha256};
ghost use Rattle.explain_page.specs.Hashed.{IsHashed, IsDigestOf};

use sha2::{Digest, Sha256};
use std::fmt;

/// The size and the digest of bytes (FIPS 180-4).
#[derive(Clone, Copy, Debug, PartialEq, Eq)]
pub struct Digests {
    /// In bytes, saturated at 2^64 - 1.
    pub size: u64,
    pub sha256: [u8; 32],
}

/// Hashes bytes in pieces.
#[derive(Drop)]
pub struct Hashing {
    state: Sha256,
    size: u64,
}

impl Hashing {
    /// No bytes.
    pub fn new() -> Hashing
        ensures { IsHashed result [] }
    {
        Hashing {
            state: Sha256::new(),
            size: 0,
        }
    }

    /// Feeds the next piece.
    pub fn feed(&mut self, piece: &[u8])
        ensures { (bytes : List ℕ) → IsHashed self.old bytes → IsHashed self.new (bytes ++ piece.now) }
    {
        self.state.update(piece);
        self.size = self.size.saturating_add(piece.len() as u64);
    }

    /// The digests of the bytes.
    pub fn finish(self) -> Digests
        ensures { (bytes : List ℕ) → IsHashed self bytes → IsDigestOf bytes result }
    {
        Digests {
            size: self.size,
            sha256: self.state.finalize(),
        }
    }
}

/// In hexadecimal digits.
impl fmt::Display for Digests {
    fn fmt<W: fmt::Write>(&self, f: &mut fmt::Formatter<W>) -> fmt::Result {
        for byte in &self.sha256 {
            let byte = *byte;
            write!(f, "{byte:02x}")?;
        }
        Ok(())
    }
}
