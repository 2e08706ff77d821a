//! Joins captures of one ring, in order, to one capture.
#![tactic(auto)]

mod counts;
mod fault;
mod joiner;
mod laws;
mod ring;
mod shape;
mod stamps;

pub use counts::Counts;
pub use fault::{JoinFault, Refused};
pub use joiner::Joiner;
pub use laws::one_more_capture;
