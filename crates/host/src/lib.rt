//! The system's side of the programs: arguments, standard streams, files that are read from start
//! to end, and new files that get their names only when all are written.
#![tactic(auto)]

mod failure;
mod new_files;
mod readable;
mod reader;
mod start;
mod stream;

pub use failure::Failure;
pub use new_files::{NewFault, NewFiles};
pub use readable::is_repeatable;
pub use reader::Reader;
pub use start::{arguments, refuse_arguments, refuse_memory, refuse_seed};
pub use stream::{HostStream, hold_stream};
