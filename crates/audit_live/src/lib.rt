//! The verdict while captures grow: a certificate is extended in turns, each up to a horizon, and
//! the first turn that breaks a rule is reported.
#![tactic(auto)]

mod cause;
mod checked_tenancies;
mod fault;
mod front;
mod holders;
mod lane;
mod lanes;
pub mod laws;
mod live;
mod progress;
mod turn;

pub use fault::{LiveEnd, LiveFault};
pub use live::Live;
pub use progress::Progress;
