//! Checks a certificate by one thread: placement, then each lane alone.
#![tactic(auto)]

mod lanes;
pub mod laws;
mod verdict;

pub use lanes::job;
pub use verdict::{check, conclude};
