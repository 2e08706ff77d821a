//! The standard streams.

ghost use Rattle.std.specs.Prelude.{◌≡◌};

use audit_model::{Sink, SinkFailed};
use std::fs;
use std::fs::File;
use std::io::Write;
use std::rt::Files;

/// Opens a stream that can't be written to. If a standard stream is closed, this gets its number,
/// the lowest free one, so that no later file gets it, and output to that stream isn't written.
pub fn hold_stream<R: Files<File = File>>(rt: &R) -> Option<File> {
    fs::open(rt, "/dev/null").ok()
}

/// A stream of the system. It has no contract about its output.
#[derive(Drop)]
pub struct HostStream<W: Write> {
    stream: W,
}

impl<W: Write> HostStream<W> {
    /// The stream, before any output.
    pub fn new(stream: W) -> Self
        ensures { result.stream ≡ stream }
    {
        HostStream { stream }
    }
}

impl<W: Write> Sink for HostStream<W> {
    ghost use Rattle.std.specs.Prelude.{None};

    ghost taken = { λ _. None };

    ghost failures = { λ _. None };

    fn put(&mut self, piece: &[u8]) -> Result<usize, SinkFailed> {
        let Ok(taken) = self.stream.write(piece) else {
            return Err(SinkFailed);
        };
        match self.stream.flush() {
            Ok(()) => Ok(taken),
            Err(_) => Err(SinkFailed),
        }
    }
}
