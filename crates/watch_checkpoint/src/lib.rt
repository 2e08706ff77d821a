//! Writes and reads checkpoints, from which an audit that was stopped goes on.
#![tactic(auto)]

mod checkpoint;
mod client_set;
mod draft;
mod entry;
mod fault;
mod line_reading;
mod reading;
mod spelling;
mod words;
mod writing;

pub use checkpoint::{Checkpoint, Header};
pub use fault::{CheckpointFault, LineKind};
pub use reading::read;
pub use writing::write;
