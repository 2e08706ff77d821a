//! The folders of the machine.

use host::Failure;
use prep_program::{Folders, MakeFault};
use std::alloc::Global;
use std::fs::File;
use std::io::ErrorKind;
use std::rt::Files;
use std::{fs, io};

/// The system's error if a file with that name exists.
const EEXIST: i32 = 17;

/// The folders of the machine, and the last one that couldn't be made or renamed.
#[derive(Drop)]
pub struct HostFolders<'r, R: Files<File = File>> {
    rt: &'r R,
    alloc: Global,
    failure: Option<Failure>,
}

impl<'r, R: Files<File = File>> HostFolders<'r, R> {
    /// Nothing failed yet.
    pub fn new(rt: &'r R, alloc: Global) -> Self {
        HostFolders {
            rt,
            alloc,
            failure: None,
        }
    }

    /// Records why a folder can't be made or renamed. Without memory for that, it isn't recorded.
    fn fail(&mut self, name: &str, error: io::Error) -> MakeFault {
        let fault = match error.kind() {
            ErrorKind::AlreadyExists | ErrorKind::DirectoryNotEmpty => MakeFault::Exists,
            ErrorKind::OutOfMemory => MakeFault::Memory,
            _ => MakeFault::Failed,
        };
        self.failure = Failure::new(self.alloc, name, error).ok();
        fault
    }
}

impl<R: Files<File = File> + AllocGlobal> Folders for HostFolders<'_, R> {
    fn check_new(&mut self, name: &str) -> Result<(), MakeFault> {
        match fs::symlink_metadata(self.rt, name) {
            Ok(_) => Err(self.fail(name, io::Error::from_raw_os_error(EEXIST))),
            Err(_) => Ok(()),
        }
    }

    fn make_folder(&mut self, name: &str) -> Result<(), MakeFault> {
        match fs::create_dir(self.rt, name) {
            Ok(()) => Ok(()),
            Err(error) => Err(self.fail(name, error)),
        }
    }

    fn rename(&mut self, from: &str, to: &str) -> Result<(), MakeFault> {
        self.check_new(to)?;
        match fs::rename(self.rt, from, to) {
            Ok(()) => Ok(()),
            Err(error) => Err(self.fail(to, error)),
        }
    }

    fn remove_folder(&mut self, name: &str) {
        let _ = fs::remove_dir_all(self.rt, name);
    }

    fn failure(&self) -> Option<&Failure> {
        self.failure.as_ref()
    }
}
