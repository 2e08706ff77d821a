//! Reads whole text files, and checks them meanwhile.

ghost use Rattle.std.specs.Prelude.{◌≡◌, ℕ, List, Some, IfOk};

use crate::source::{PIECE, Source};
use crate::stop::Stop;
use crate::text_check::{ConfCheck, PolicyCheck, SecretCheck, TextCheck};
use std::alloc::Global;

/// The bytes of a file, from its first to its last, unless the check refuses a prefix.
fn read_checked<S: Source, C: TextCheck>(
    alloc: Global,
    source: &mut S,
    name: &str,
    check: &mut C,
) -> Result<Vec<u8>, Stop>
    ensures kept { S.holds source.new ≡ S.holds source.old }
    ensures whole { (bytes : List ℕ) → S.holds source.old name.now ≡ Some bytes → IfOk result (λ text. text.items ≡ bytes) }
{
    let mut piece = vec![in alloc; 0u8; PIECE]?;
    let mut text = Vec::new(alloc);
    let mut at = 0u64;
    'pieces: for _ in 0..u64::MAX {
        let read = source.piece(name, at, &mut piece)?;
        if read == 0 {
            return Ok(text);
        }
        text.extend_from_slice(&piece[..read])?;
        check.take(&piece[..read])?;
        let Some(next) = at.checked_add(read as u64) else {
            return Err(Stop::Read);
        };
        at = next;
    }
    Err(Stop::Read)
}

/// The bytes of a policy's file. A wrong file is refused at its first fault, and not read further.
pub fn read_policy_text<S: Source>(
    alloc: Global,
    source: &mut S,
    name: &str,
) -> Result<Vec<u8>, Stop>
    ensures kept { S.holds source.new ≡ S.holds source.old }
    ensures whole { (bytes : List ℕ) → S.holds source.old name.now ≡ Some bytes → IfOk result (λ text. text.items ≡ bytes) }
{
    read_checked(alloc, source, name, &mut PolicyCheck::new(alloc))
}

/// The bytes of a configuration's file. A file that isn't a configuration is refused at its first
/// fault, and not read further.
pub fn read_conf_text<S: Source>(alloc: Global, source: &mut S, name: &str) -> Result<Vec<u8>, Stop>
    ensures kept { S.holds source.new ≡ S.holds source.old }
    ensures whole { (bytes : List ℕ) → S.holds source.old name.now ≡ Some bytes → IfOk result (λ text. text.items ≡ bytes) }
{
    read_checked(alloc, source, name, &mut ConfCheck::new())
}

/// The bytes of a file with a secret: one line. A wrong file is refused at its first fault, and not
/// read further.
pub fn read_secret_text<S: Source>(
    alloc: Global,
    source: &mut S,
    name: &str,
) -> Result<Vec<u8>, Stop>
    ensures kept { S.holds source.new ≡ S.holds source.old }
    ensures whole { (bytes : List ℕ) → S.holds source.old name.now ≡ Some bytes → IfOk result (λ text. text.items ≡ bytes) }
{
    read_checked(alloc, source, name, &mut SecretCheck::new())
}
