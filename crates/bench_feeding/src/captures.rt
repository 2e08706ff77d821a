//! Captures on the machine.

use audit_files::{ReadFailed, Source};
use host::Reader;
use std::alloc::Global;
use std::fs::File;
use std::rt::Files;

/// The captures, each read from start to end, one at a time.
#[derive(Drop)]
pub struct Captures<'r, R: Files<File = File>> {
    reader: Reader<'r, R>,
}

impl<'r, R: Files<File = File>> Captures<'r, R> {
    /// No open capture.
    pub fn new(rt: &'r R) -> Self {
        Captures {
            reader: Reader::new(rt),
        }
    }
}

impl<R: Files<File = File> + Sync> Source for Captures<'_, R> {
    ghost use Rattle.std.specs.Prelude.{None};

    ghost holds = { λ _ _. None };

    fn piece(&mut self, name: &str, at: u64, into: &mut [u8]) -> Result<usize, ReadFailed> {
        match self.reader.piece(name, at, into) {
            Ok(read) => Ok(read),
            Err(_) => Err(ReadFailed),
        }
    }

    fn beside(&self, _alloc: Global) -> Self {
        Captures {
            reader: self.reader.another(),
        }
    }
}
