//! A watch: one server's state over captures that don't end, and the claim that what was captured
//! so far conforms. It keeps what is alive. Its maps are ordered, so it is the same each time.
#![tactic(auto)]

mod advance_error;
pub mod laws;
mod order;
mod turn;
mod watch;

pub use advance_error::AdvanceError;
pub use watch::Watch;
