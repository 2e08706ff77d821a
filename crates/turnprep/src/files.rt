//! The files of the machine.

use audit_model::{Sink, SinkFailed};
use host::{Failure, NewFault, NewFiles, Reader, is_repeatable};
use host_progress::{Progress, WatchedReader};
use prep_program::{MakeFault, Maker, ReadFailed, Source};
use std::alloc::Global;
use std::fs::File;
use std::io;
use std::rt::Files;
use std::time::Clock;

/// A reader, with the line on a terminal or without it.
#[derive(Drop)]
enum Reading<'r, R: Files<File = File> + Clock> {
    Watched(WatchedReader<'r, R>),
    Plain(Reader<'r, R>),
}

/// The files of the machine, each read from start to end, one at a time.
#[derive(Drop)]
pub struct HostFiles<'r, R: Files<File = File> + Clock> {
    rt: &'r R,
    alloc: Global,
    reader: Reading<'r, R>,
    failure: Option<Failure>,
}

impl<'r, R: Files<File = File> + Clock> HostFiles<'r, R> {
    /// No file is open.
    pub fn new(rt: &'r R, alloc: Global, progress: &'r Progress<'r, R>) -> Self {
        HostFiles {
            rt,
            alloc,
            reader: Reading::Watched(WatchedReader::new(rt, progress)),
            failure: None,
        }
    }

    /// Records why a file can't be read. Without memory for that, it isn't recorded.
    fn fail(&mut self, name: &str, error: io::Error) -> ReadFailed {
        self.failure = Failure::new(self.alloc, name, error).ok();
        ReadFailed
    }
}

impl<R: Files<File = File> + Clock + Sync> Source for HostFiles<'_, R> {
    ghost use Rattle.std.specs.Prelude.{None};

    ghost holds = { λ _ _. None };

    fn piece(&mut self, name: &str, at: u64, into: &mut [u8]) -> Result<usize, ReadFailed> {
        let read = match &mut self.reader {
            Reading::Watched(reader) => reader.piece(name, at, into),
            Reading::Plain(reader) => reader.piece(name, at, into),
        };
        match read {
            Ok(read) => Ok(read),
            Err(error) => Err(self.fail(name, error)),
        }
    }

    fn second(&self) -> Self {
        HostFiles {
            rt: self.rt,
            alloc: self.alloc,
            reader: Reading::Plain(Reader::new(self.rt)),
            failure: None,
        }
    }

    fn end_second(&mut self, second: Self) {
        if self.failure.is_none() {
            self.failure = second.failure;
        }
    }

    fn is_repeatable(&self, name: &str) -> bool {
        is_repeatable(self.rt, name)
    }

    fn failure(&self) -> Option<&Failure> {
        self.failure.as_ref()
    }
}

/// New files of the machine, one at a time.
#[derive(Drop)]
pub struct HostMaker<'r, R: Files<File = File>> {
    files: NewFiles<'r, R>,
}

impl<'r, R: Files<File = File>> HostMaker<'r, R> {
    /// No files.
    pub fn new(rt: &'r R, alloc: Global) -> Self {
        HostMaker {
            files: NewFiles::new(rt, alloc),
        }
    }
}

/// Why a file isn't made, as an error of the program.
fn fault_of(fault: NewFault) -> MakeFault {
    match fault {
        NewFault::Exists => MakeFault::Exists,
        NewFault::Failed => MakeFault::Failed,
        NewFault::Memory => MakeFault::Memory,
    }
}

impl<R: Files<File = File>> Sink for HostMaker<'_, R> {
    ghost use Rattle.std.specs.Prelude.{None};

    ghost taken = { λ _. None };

    ghost failures = { λ _. None };

    fn put(&mut self, piece: &[u8]) -> Result<usize, SinkFailed> {
        match self.files.write(piece) {
            Ok(taken) => Ok(taken),
            Err(_) => Err(SinkFailed),
        }
    }
}

impl<R: Files<File = File>> Maker for HostMaker<'_, R> {
    ghost use Rattle.std.specs.Prelude.{None};

    ghost making = { λ _. None };

    fn make(&mut self, name: &str) -> Result<(), MakeFault> {
        match self.files.make(name) {
            Ok(()) => Ok(()),
            Err(fault) => Err(fault_of(fault)),
        }
    }

    fn append(&mut self, piece: &[u8]) -> Result<usize, SinkFailed> {
        self.put(piece)
    }

    fn publish(&mut self) -> Result<(), MakeFault> {
        match self.files.publish() {
            Ok(()) => Ok(()),
            Err(fault) => Err(fault_of(fault)),
        }
    }

    fn discard(&mut self) {
        self.files.discard();
    }

    fn failure(&self) -> Option<&Failure> {
        self.files.failure()
    }
}
