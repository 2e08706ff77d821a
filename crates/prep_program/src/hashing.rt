//! Hashes captures that are files.

ghost use Rattle.std.specs.Prelude.{◌≡◌, IfOk, All, map};
ghost use Rattle.prep_program.specs.Hashings.{IsHashed};

use crate::checksum::Checksum;
use crate::source::{PIECE, Source};
use crate::stop::Stop;
use sha2::{Digest, Sha256};
use std::alloc::Global;
use std::sync::atomic::{AtomicBool, Ordering};

/// A capture that was hashed.
#[derive(Clone, Copy, Debug, Drop)]
pub struct Hashed<'a> {
    pub name: &'a str,
    /// The SHA-256 of its bytes.
    pub digest: [u8; 32],
    /// The checksum of its bytes, with which a second reading is compared.
    pub checksum: u64,
}

/// Hashes a capture, from its first byte to its last. The result is an error once `is_over`.
fn hash_capture<'a, S: Source>(
    alloc: Global,
    source: &mut S,
    name: &'a str,
    is_over: &AtomicBool,
) -> Result<Hashed<'a>, Stop>
    ensures kept { S.holds source.new ≡ S.holds source.old }
    ensures named { IfOk result (λ hashed. hashed.name.now ≡ name.now) }
    ensures hashes { IfOk result (λ hashed. IsHashed (S.holds source.old) hashed) }
{
    let mut piece = vec![in alloc; 0u8; PIECE]?;
    let mut hasher = Sha256::new();
    let mut checksum = Checksum::new();
    let mut at = 0u64;
    'pieces: for _ in 0..u64::MAX {
        let read = source.piece(name, at, &mut piece)?;
        if read == 0 {
            return Ok(Hashed {
                name,
                digest: hasher.finalize(),
                checksum: checksum.value(),
            });
        }
        if is_over.load(Ordering::SeqCst) {
            return Err(Stop::Read);
        }
        let bytes = &piece[..read];
        checksum.update(bytes);
        hasher.update(bytes);
        let Some(next) = at.checked_add(read as u64) else {
            return Err(Stop::Read);
        };
        at = next;
    }
    Err(Stop::Read)
}

/// Hashes captures one after another. The result is an error once `is_over`.
pub fn hash_captures<'a, S: Source>(
    alloc: Global,
    source: &mut S,
    names: &[&'a str],
    is_over: &AtomicBool,
) -> Result<Vec<Hashed<'a>>, Stop>
    ensures named { IfOk result (λ all. map (λ one. one.name.now) all.items ≡ map (λ name. name.now) names.now) }
    ensures hashes { IfOk result (λ all. All (λ one. IsHashed (S.holds source.old) one) all.items) }
{
    let mut all = Vec::new(alloc);
    for name in names {
        let hashed = hash_capture(alloc, source, name, is_over)?;
        all.push(hashed)?;
    }
    Ok(all)
}
