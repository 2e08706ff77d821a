//! Files whose reading is shown on a terminal, and streams that the line there makes room for.

ghost use Rattle.std.specs.Prelude.{◌≡◌, ◌≤◌, length, IfOk};

use crate::progress::Progress;
use audit_model::{Sink, SinkFailed};
use host::{HostStream, Reader};
use std::fs::File;
use std::io;
use std::io::Write;
use std::rt::Files;
use std::time::Clock;

/// Reads files from start to end, one at a time, and shows the progress.
#[derive(Drop)]
pub struct WatchedReader<'r, R: Files<File = File> + Clock> {
    reader: Reader<'r, R>,
    progress: &'r Progress<'r, R>,
}

impl<'r, R: Files<File = File> + Clock> WatchedReader<'r, R> {
    /// No file is open.
    pub fn new(rt: &'r R, progress: &'r Progress<'r, R>) -> Self {
        WatchedReader {
            reader: Reader::new(rt),
            progress,
        }
    }

    /// Another one, which another thread may use. No file is open in it.
    pub fn another(&self) -> Self {
        WatchedReader {
            reader: self.reader.another(),
            progress: self.progress,
        }
    }

    /// Reads the next bytes of a file. At offset 0 the file is opened first.
    pub fn piece(&mut self, name: &str, at: u64, into: &mut [u8]) -> io::Result<usize>
        ensures { IfOk result (λ n. n ≤ length into.old) }
    {
        if at == 0 {
            self.reader.open(name)?;
            self.progress.begin(self.reader.size());
        }
        let read = self.reader.read(into)?;
        self.progress.advance(name, read);
        Ok(read)
    }
}

/// A stream. Before it is written to, the line on the terminal is removed.
#[derive(Drop)]
pub struct WatchedStream<'r, R: Files<File = File> + Clock, W: Write> {
    stream: HostStream<W>,
    progress: &'r Progress<'r, R>,
}

impl<'r, R: Files<File = File> + Clock, W: Write> WatchedStream<'r, R, W> {
    /// The stream, before any output.
    pub fn new(stream: W, progress: &'r Progress<'r, R>) -> Self {
        WatchedStream {
            stream: HostStream::new(stream),
            progress,
        }
    }
}

impl<R: Files<File = File> + Clock, W: Write> Sink for WatchedStream<'_, R, W> {
    ghost use Rattle.std.specs.Prelude.{None};

    ghost taken = { λ _. None };

    ghost failures = { λ _. None };

    fn put(&mut self, piece: &[u8]) -> Result<usize, SinkFailed> {
        self.progress.clear();
        self.stream.put(piece)
    }
}
