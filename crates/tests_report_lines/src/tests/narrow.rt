//! A sink that fails.

use audit_model::{Sink, SinkFailed};
use std::alloc::Global;

/// Takes some bytes, one by one, and then fails, once.
#[derive(Drop)]
pub struct Narrow {
    pub bytes: Vec<u8>,
    pub room: usize,
    pub has_failed: bool,
}

impl Narrow {
    pub fn new(alloc: Global, room: usize) -> Narrow {
        Narrow {
            bytes: Vec::new(alloc),
            room,
            has_failed: false,
        }
    }
}

impl Sink for Narrow {
    ghost use Rattle.std.specs.Prelude.{Some, None, if◌then◌else◌};

    ghost taken = { λ _. None };

    ghost failures = { λ narrow. Some (if narrow.has_failed then 1 else 0) };

    fn put(&mut self, piece: &[u8]) -> Result<usize, SinkFailed> {
        if self.has_failed {
            return Ok(piece.len());
        }
        match piece {
            [] => Ok(0),
            [first, ..] => {
                if self.room == 0 || self.bytes.push(*first).is_err() {
                    self.has_failed = true;
                    return Err(SinkFailed);
                }
                self.room -= 1;
                Ok(1)
            }
        }
    }
}
