//! Files that are read from their first byte to their last.

ghost use Rattle.std.specs.Prelude.{◌≡◌, ◌≤◌, length, IfOk, None};

use std::fs::File;
use std::io::{ErrorKind, Read};
use std::rt::Files;
use std::{fs, io};

/// Reads files of the system from start to end, one at a time.
#[derive(Drop)]
pub struct Reader<'r, R: Files<File = File>> {
    rt: &'r R,
    opened: Option<File>,
}

impl<'r, R: Files<File = File>> Reader<'r, R> {
    /// No file is open.
    pub fn new(rt: &'r R) -> Self
        ensures { result.opened ≡ None }
    {
        Reader { rt, opened: None }
    }

    /// Another one, which another thread may use. No file is open in it.
    pub fn another(&self) -> Self
        ensures { result.opened ≡ None }
    {
        Reader::new(self.rt)
    }

    /// Opens a file, in place of the one that is open.
    pub fn open(&mut self, name: &str) -> io::Result<()> {
        self.opened = Some(fs::open(self.rt, name)?);
        Ok(())
    }

    /// The size of the open file in bytes, 0 if the system doesn't report it.
    pub fn size(&self) -> u64 {
        let Some(file) = &self.opened else {
            return 0;
        };
        match file.metadata() {
            Ok(metadata) => metadata.len(),
            Err(_) => 0,
        }
    }

    /// Reads the next bytes of the open file into the buffer, and returns their number: 0 at its
    /// end, or if the buffer is empty. The error is `NotFound` if no file is open.
    pub fn read(&mut self, into: &mut [u8]) -> io::Result<usize>
        ensures { IfOk result (λ n. n ≤ length into.old) }
    {
        match &mut self.opened {
            Some(file) => file.read(into),
            None => Err(io::Error::from(ErrorKind::NotFound)),
        }
    }

    /// Reads the next bytes of a file. At offset 0 the file is opened first.
    pub fn piece(&mut self, name: &str, at: u64, into: &mut [u8]) -> io::Result<usize>
        ensures { IfOk result (λ n. n ≤ length into.old) }
    {
        if at == 0 {
            self.open(name)?;
        }
        self.read(into)
    }
}
