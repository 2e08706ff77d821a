//! Checks a certificate by many workers: threads that judge lanes, and enter their findings into
//! one book.
#![tactic(auto)]

mod gate;
mod inputs;
mod pass;
mod workers;

pub use gate::Gate;
pub use pass::{Judged, check_parallel};
