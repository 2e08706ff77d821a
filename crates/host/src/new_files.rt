//! New files, which get their names when all of them are written.

ghost use Rattle.std.specs.Prelude.{◌≡◌, ◌≤◌, length, IfOk, None};

use crate::failure::Failure;
use std::alloc::{AllocError, AllocFailed, Global};
use std::fs::{File, OpenFile};
use std::io::{ErrorKind, Write};
use std::rt::Files;
use std::{fs, io};

/// The suffix of a file's name until the file is complete.
const PART: &str = ".part";

/// The system's error if a file with that name exists.
const EEXIST: i32 = 17;

/// Why a file couldn't be made, written or named.
#[derive(Clone, Copy, Debug, PartialEq, Eq)]
pub enum NewFault {
    /// A file with that name exists.
    Exists,
    Failed,
    Memory,
}

impl From<AllocError> for NewFault {
    fn from(_error: AllocError) -> NewFault {
        NewFault::Memory
    }
}

impl<T: Drop> From<AllocFailed<T>> for NewFault {
    fn from(_failed: AllocFailed<T>) -> NewFault {
        NewFault::Memory
    }
}

/// A new file: its present name, and its final one.
#[derive(Drop)]
struct Made {
    part: String,
    name: String,
}

/// New files of the system, written one at a time. Until `publish`, each is named `NAME.part`, so
/// that no other program mistakes a part of a file for the whole. An existing file is never
/// replaced.
#[derive(Drop)]
pub struct NewFiles<'r, R: Files<File = File>> {
    rt: &'r R,
    alloc: Global,
    /// The file that was made last.
    current: Option<File>,
    made: Vec<Made>,
    failure: Option<Failure>,
}

/// Renames a file to its final name, unless a file with that name exists.
fn rename_to_final<R: Files>(rt: &R, made: &Made) -> io::Result<()> {
    match fs::hard_link(rt, made.part.as_str(), made.name.as_str()) {
        Ok(()) => Ok(()),
        Err(error) if error.kind() == ErrorKind::AlreadyExists => Err(error),
        Err(_) => rename_new(rt, made),
    }
}

/// The same if the file system has no hard links: an empty file gets the name first, so that no
/// other file is replaced.
fn rename_new<R: Files>(rt: &R, made: &Made) -> io::Result<()> {
    File::create_new(rt, made.name.as_str())?;
    match fs::rename(rt, made.part.as_str(), made.name.as_str()) {
        Ok(()) => Ok(()),
        Err(error) => {
            let _ = fs::remove_file(rt, made.name.as_str());
            Err(error)
        }
    }
}

/// Why an error of the system keeps a file from being made.
fn fault_of(error: &io::Error) -> NewFault {
    match error.kind() {
        ErrorKind::AlreadyExists => NewFault::Exists,
        ErrorKind::OutOfMemory => NewFault::Memory,
        _ => NewFault::Failed,
    }
}

impl<'r, R: Files<File = File>> NewFiles<'r, R> {
    /// No files.
    pub fn new(rt: &'r R, alloc: Global) -> Self
        ensures { result.current ≡ None }
    {
        NewFiles {
            rt,
            alloc,
            current: None,
            made: Vec::new(alloc),
            failure: None,
        }
    }

    /// The file that couldn't be made, written or named, and why.
    pub fn failure(&self) -> Option<&Failure> {
        self.failure.as_ref()
    }

    /// Records why a file couldn't be made, written or named.
    fn fail(&mut self, name: &str, error: io::Error) -> NewFault {
        let fault = fault_of(&error);
        match Failure::new(self.alloc, name, error) {
            Ok(failure) => self.failure = Some(failure),
            Err(_) => return NewFault::Memory,
        }
        fault
    }

    /// The same for the file at an index.
    fn fail_at(&mut self, at: usize, error: io::Error) -> NewFault {
        let name = match self.made.get(at) {
            Some(made) => String::from_str(self.alloc, made.name.as_str()),
            None => String::from_str(self.alloc, "?"),
        };
        match name {
            Ok(name) => self.fail(name.as_str(), error),
            Err(_) => NewFault::Memory,
        }
    }

    /// The same for the file that was made last.
    fn fail_last(&mut self, error: io::Error) -> NewFault {
        let last = self.made.len().saturating_sub(1);
        self.fail_at(last, error)
    }

    /// Makes an empty file for the following bytes. The previous file is synced to disk.
    pub fn make(&mut self, name: &str) -> Result<(), NewFault> {
        self.close()?;
        if fs::symlink_metadata(self.rt, name).is_ok() {
            return Err(self.fail(name, io::Error::from_raw_os_error(EEXIST)));
        }
        let part = format!(in self.alloc; "{name}{PART}")?;
        let made = Made {
            name: String::from_str(self.alloc, name)?,
            part,
        };
        self.made.reserve(1)?;
        match File::create_new(self.rt, made.part.as_str()) {
            Ok(file) => self.current = Some(file),
            Err(error) if error.kind() == ErrorKind::AlreadyExists => {
                return Err(self.fail(made.part.as_str(), error));
            }
            Err(error) => return Err(self.fail(name, error)),
        }
        self.made.push(made)?;
        Ok(())
    }

    /// Writes a prefix of the piece to the file that was made last, and returns its length.
    pub fn write(&mut self, piece: &[u8]) -> Result<usize, NewFault>
        ensures { IfOk result (λ n. n ≤ length piece.now) }
    {
        let Some(file) = &mut self.current else {
            return Err(NewFault::Failed);
        };
        match file.write(piece) {
            Ok(taken) => Ok(taken),
            Err(error) => Err(self.fail_last(error)),
        }
    }

    /// Syncs the file that was made last to disk, and closes it. Errors that the system reports
    /// only then are returned.
    fn close(&mut self) -> Result<(), NewFault> {
        let Some(file) = self.current.take() else {
            return Ok(());
        };
        match file.sync_all() {
            Ok(()) => Ok(()),
            Err(error) => Err(self.fail_last(error)),
        }
    }

    /// Renames the files to their final names: all, or none. If one can't be renamed, returns its
    /// index and the error.
    fn name_all(&self) -> Result<(), (usize, io::Error)> {
        for (at, made) in self.made.iter().enumerate() {
            if let Err(error) = rename_to_final(self.rt, made) {
                for named in self.made.iter().take(at) {
                    let _ = fs::remove_file(self.rt, named.name.as_str());
                }
                return Err((at, error));
            }
        }
        Ok(())
    }

    /// Syncs all files to disk, and renames them to their final names: all, or none.
    pub fn publish(&mut self) -> Result<(), NewFault> {
        self.close()?;
        if let Err((at, error)) = self.name_all() {
            return Err(self.fail_at(at, error));
        }
        self.discard();
        Ok(())
    }

    /// Removes the files that don't have their final names yet.
    pub fn discard(&mut self) {
        self.current = None;
        for made in &self.made {
            let _ = fs::remove_file(self.rt, made.part.as_str());
        }
        self.made.clear();
    }
}
