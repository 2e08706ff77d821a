//! Why a file can't be read or written.

use std::alloc::{AllocError, Global};
use std::{fmt, io};

/// The name of a file that can't be read or written, and the system's reason.
#[derive(Debug, Drop)]
pub struct Failure {
    pub name: String,
    pub error: io::Error,
}

impl Failure {
    /// The system's error for the file with this name.
    pub fn new(alloc: Global, name: &str, error: io::Error) -> Result<Failure, AllocError> {
        Ok(Failure {
            name: String::from_str(alloc, name)?,
            error,
        })
    }
}

/// The system's reason. The name may have control characters: the caller that prints it escapes it.
impl fmt::Display for Failure {
    fn fmt<W: fmt::Write>(&self, f: &mut fmt::Formatter<W>) -> fmt::Result {
        let error = self.error;
        write!(f, "{error}")
    }
}
