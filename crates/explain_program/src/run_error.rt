//! Why a run ended before its answer.

ghost use Rattle.std.specs.Prelude.{◌≡◌};
ghost use Rattle.explain_program.specs.Errors.{status_of_error};

use audit_files::Stop;
use audit_model::{SinkFailed, WriteFault};
use host::NewFault;
use std::alloc::{AllocError, AllocFailed};

/// Why a run ended.
#[derive(Debug, Drop)]
pub enum RunError {
    /// An input is refused or can't be read, the answer can't be written, or memory is out.
    Stopped(Stop),
    /// There is no lane with that number, but this number of lanes.
    NoLane { lane: u32, lanes: usize },
    /// The file of this name can't be read twice.
    ReadOnce(String),
}

impl RunError {
    /// The exit status.
    pub fn status(&self) -> u8
        ensures { result ≡ status_of_error self.now }
    {
        match self {
            RunError::Stopped(stop) => stop.status(),
            RunError::NoLane { .. } => 5,
            RunError::ReadOnce(_) => 2,
        }
    }
}

impl From<Stop> for RunError {
    fn from(stop: Stop) -> RunError {
        RunError::Stopped(stop)
    }
}

impl From<AllocError> for RunError {
    fn from(_error: AllocError) -> RunError {
        RunError::Stopped(Stop::Memory)
    }
}

impl<T: Drop> From<AllocFailed<T>> for RunError {
    fn from(_failed: AllocFailed<T>) -> RunError {
        RunError::Stopped(Stop::Memory)
    }
}

impl From<SinkFailed> for RunError {
    fn from(_failed: SinkFailed) -> RunError {
        RunError::Stopped(Stop::Write)
    }
}

impl From<WriteFault> for RunError {
    fn from(fault: WriteFault) -> RunError {
        RunError::Stopped(Stop::from(fault))
    }
}

impl From<NewFault> for RunError {
    fn from(fault: NewFault) -> RunError {
        match fault {
            NewFault::Memory => RunError::Stopped(Stop::Memory),
            NewFault::Exists | NewFault::Failed => RunError::Stopped(Stop::Write),
        }
    }
}
