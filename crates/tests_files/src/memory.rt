//! Files in memory.

ghost use Rattle.std.specs.Prelude.{◌≡◌, option_map};
ghost use Rattle.tests_files.specs.Held.{held_among};

use audit_files::{ReadFailed, Source};
use audit_model::{Sink, SinkFailed};
use std::alloc::Global;

/// The files "policy", "certificate" and "capture".
#[derive(Clone, Copy)]
pub struct Files<'a> {
    pub policy: &'a [u8],
    pub certificate: &'a [u8],
    pub capture: &'a [u8],
}

impl<'a> Files<'a> {
    /// The bytes of the file with that name.
    pub fn bytes_of(&self, name: &str) -> Option<&'a [u8]>
        ensures { option_map (λ bytes. bytes.now) result ≡ held_among self.now.policy.now self.now.certificate.now self.now.capture.now name.now }
    {
        if name == "policy" {
            return Some(self.policy);
        }
        if name == "certificate" {
            return Some(self.certificate);
        }
        if name == "capture" {
            return Some(self.capture);
        }
        None
    }
}

impl Source for Files<'_> {
    ghost use Rattle.tests_files.specs.Held.{held_among};
    ghost use Rattle.std.specs.Prelude.{is_none};

    ghost holds = { λ files name. held_among files.policy.now files.certificate.now files.capture.now name };

    ghost may_fail = { λ files name. is_none (held_among files.policy.now files.certificate.now files.capture.now name) };

    fn piece(&mut self, name: &str, at: u64, into: &mut [u8]) -> Result<usize, ReadFailed> {
        let Some(file) = self.bytes_of(name) else {
            return Err(ReadFailed);
        };
        if at >= file.len() as u64 {
            return Ok(0);
        }
        let at = at as usize;
        let count = into.len().min(file.len() - at);
        into[..count].copy_from_slice(&file[at..at + count]);
        Ok(count)
    }

    fn beside(&self, _alloc: Global) -> Self {
        *self
    }
}

/// A stream that keeps the bytes that it gets.
#[derive(Drop)]
pub struct Kept {
    pub bytes: Vec<u8>,
}

impl Sink for Kept {
    ghost use Rattle.std.specs.Prelude.{None, Some};

    ghost taken = { λ kept. Some kept.bytes.items };

    ghost failures = { λ _. None };

    fn put(&mut self, piece: &[u8]) -> Result<usize, SinkFailed> {
        match self.bytes.extend_from_slice(piece) {
            Ok(()) => Ok(piece.len()),
            Err(_) => Err(SinkFailed),
        }
    }
}
