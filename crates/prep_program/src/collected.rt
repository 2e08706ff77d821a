//! Output that is kept in memory.

ghost use Rattle.std.specs.Prelude.{◌≡◌, None};

use audit_model::{Sink, SinkFailed};
use std::alloc::Global;

/// A sink that keeps the output in memory.
#[derive(Drop)]
pub struct Collected {
    bytes: Vec<u8>,
}

impl Collected {
    /// An empty sink.
    pub fn new(alloc: Global) -> Self {
        Collected {
            bytes: Vec::new(alloc),
        }
    }

    /// The bytes that were written.
    pub fn as_slice(&self) -> &[u8] {
        self.bytes.as_slice()
    }

    /// The first line that begins with these bytes, without its LF.
    pub fn line(&self, begin: &[u8]) -> Option<&[u8]> {
        let mut rest = self.bytes.as_slice();
        for _ in 0..self.bytes.len() {
            let end = rest
                .iter()
                .position(|byte| *byte == b'\n')
                .unwrap_or(rest.len());
            let (line, behind) = rest.split_at(end);
            if line.starts_with(begin) {
                return Some(line);
            }
            rest = behind.get(1..)?;
        }
        None
    }
}

impl Sink for Collected {
    ghost use Rattle.std.specs.Prelude.{None};

    ghost taken = { λ _. None };

    ghost failures = { λ _. None };

    fn put(&mut self, piece: &[u8]) -> Result<usize, SinkFailed> {
        match self.bytes.extend_from_slice(piece) {
            Ok(()) => Ok(piece.len()),
            Err(_) => Err(SinkFailed),
        }
    }
}
