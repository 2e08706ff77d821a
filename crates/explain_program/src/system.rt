//! What the program needs of the system, in addition to the bytes of files.

use crate::command_line::Inputs;
use crate::run_error::RunError;
use audit_files::Source;
use audit_model::Sink;
use host::{Failure, NewFault};
use std::alloc::Global;

/// Why a file can't be read.
#[derive(Clone, Copy)]
pub enum Trouble {
    Missing,
    Denied,
    Other,
}

/// Reads files, and returns why one can't be read.
pub trait Explaining: Source {
    /// Why a file can't be read; `None` if its first byte, or its end, can be read, and for a file
    /// that can't be read twice.
    fn trouble(&mut self, name: &str) -> Option<Trouble>;

    /// Whether a file can be read more than once; a pipe can't.
    fn is_repeatable(&self, name: &str) -> bool;
}

/// Refuses a file that can't be read twice.
fn check_repeatable<S: Explaining>(alloc: Global, source: &S, name: &str) -> Result<(), RunError> {
    if source.is_repeatable(name) {
        return Ok(());
    }
    Err(RunError::ReadOnce(String::from_str(alloc, name)?))
}

/// Refuses captures if one can't be read twice, before any is read.
pub fn check_captures<S: Explaining>(
    alloc: Global,
    source: &S,
    captures: &[&str],
) -> Result<(), RunError> {
    for name in captures {
        check_repeatable(alloc, source, name)?;
    }
    Ok(())
}

/// Refuses the inputs of `evidence` if one can't be read twice, before any is read.
pub fn check_inputs<S: Explaining>(
    alloc: Global,
    source: &S,
    inputs: &Inputs<'_>,
) -> Result<(), RunError> {
    check_repeatable(alloc, source, inputs.policy)?;
    if let Some(name) = inputs.credentials {
        check_repeatable(alloc, source, name)?;
    }
    check_captures(alloc, source, &inputs.captures)
}

/// The file of the page: a new file.
pub trait PageFile: Sink {
    /// Makes an empty file, to which the following bytes go. An existing file is never overwritten.
    fn make(&mut self, name: &str) -> Result<(), NewFault>;

    /// Publishes the file under its name: until then, no other program finds a page under it.
    fn publish(&mut self) -> Result<(), NewFault>;

    /// Removes the file, if it has no name yet.
    fn discard(&mut self);

    /// The file that couldn't be made, written or named, and why; `None` if none was recorded.
    fn failure(&self) -> Option<&Failure>;
}
