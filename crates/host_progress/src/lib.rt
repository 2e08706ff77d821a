//! A line on a terminal with the progress of reading a file.
#![tactic(auto)]

mod drawing;
mod progress;
mod terminal;
mod watched;

pub use progress::Progress;
pub use watched::{WatchedReader, WatchedStream};
