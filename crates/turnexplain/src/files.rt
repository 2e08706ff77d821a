//! The files of the machine.

use audit_files::{ReadFailed, Source};
use audit_model::{Sink, SinkFailed};
use explain_program::{Explaining, PageFile, Trouble};
use host::{Failure, NewFault, NewFiles, is_repeatable};
use host_progress::{Progress, WatchedReader};
use std::alloc::Global;
use std::fs::File;
use std::io::Read;
use std::rt::Files;
use std::time::Clock;
use std::{fs, io};

/// The files of the machine, read one at a time from start to end.
#[derive(Drop)]
pub struct HostFiles<'r, R: Files<File = File> + Clock> {
    rt: &'r R,
    reader: WatchedReader<'r, R>,
}

impl<'r, R: Files<File = File> + Clock> HostFiles<'r, R> {
    /// No file is open.
    pub fn new(rt: &'r R, progress: &'r Progress<'r, R>) -> Self {
        HostFiles {
            rt,
            reader: WatchedReader::new(rt, progress),
        }
    }
}

impl<R: Files<File = File> + Clock + Sync> Source for HostFiles<'_, R> {
    ghost use Rattle.std.specs.Prelude.{None};

    ghost holds = { λ _ _. None };

    fn piece(&mut self, name: &str, at: u64, into: &mut [u8]) -> Result<usize, ReadFailed> {
        match self.reader.piece(name, at, into) {
            Ok(read) => Ok(read),
            Err(_) => Err(ReadFailed),
        }
    }

    fn beside(&self, _alloc: Global) -> Self {
        HostFiles {
            rt: self.rt,
            reader: self.reader.another(),
        }
    }
}

/// Why a file couldn't be opened or read.
fn trouble_of(error: &io::Error) -> Trouble {
    match error.kind() {
        io::ErrorKind::NotFound => Trouble::Missing,
        io::ErrorKind::PermissionDenied => Trouble::Denied,
        _ => Trouble::Other,
    }
}

impl<R: Files<File = File> + Clock + Sync> Explaining for HostFiles<'_, R> {
    fn trouble(&mut self, name: &str) -> Option<Trouble> {
        if !self.is_repeatable(name) {
            return None;
        }
        let mut file = match fs::open(self.rt, name) {
            Ok(file) => file,
            Err(error) => return Some(trouble_of(&error)),
        };
        let mut byte = [0u8; 1];
        match file.read(&mut byte) {
            Ok(_) => None,
            Err(error) => Some(trouble_of(&error)),
        }
    }

    fn is_repeatable(&self, name: &str) -> bool {
        is_repeatable(self.rt, name)
    }
}

/// A new file of the machine. It has no contract about its output.
#[derive(Drop)]
pub struct HostPage<'r, R: Files<File = File>> {
    files: NewFiles<'r, R>,
}

impl<'r, R: Files<File = File>> HostPage<'r, R> {
    /// No file.
    pub fn new(rt: &'r R, alloc: Global) -> Self {
        HostPage {
            files: NewFiles::new(rt, alloc),
        }
    }
}

impl<R: Files<File = File>> Sink for HostPage<'_, R> {
    ghost use Rattle.std.specs.Prelude.{None};

    ghost taken = { λ _. None };

    ghost failures = { λ _. None };

    fn put(&mut self, piece: &[u8]) -> Result<usize, SinkFailed> {
        match self.files.write(piece) {
            Ok(taken) => Ok(taken),
            Err(_) => Err(SinkFailed),
        }
    }
}

impl<R: Files<File = File>> PageFile for HostPage<'_, R> {
    fn make(&mut self, name: &str) -> Result<(), NewFault> {
        self.files.make(name)
    }

    fn publish(&mut self) -> Result<(), NewFault> {
        self.files.publish()
    }

    fn discard(&mut self) {
        self.files.discard();
    }

    fn failure(&self) -> Option<&Failure> {
        self.files.failure()
    }
}
