//! The state of a lane's search, and the constraints on it.
//!
//! `State` is the lane's table, the tables that ended, and the acts so far, all of which can be
//! undone. `Constraint` is what a lane may need, `Constraints` is the set for all lanes, and
//! `Found` is the result of a lane's search. No verdict depends on any of it.
#![tactic(auto)]

mod acted;
mod constraint;
mod constraints;
mod found;
mod pool_ref;
mod previous;
mod progress;
mod refused;
mod state;
mod trail;

pub use acted::{Acted, Turn};
pub use constraint::Constraint;
pub use constraints::Constraints;
pub use found::{Fault, Found};
pub use pool_ref::PoolRef;
pub use previous::{End, Previous};
pub use progress::Progress;
pub use refused::Refused;
pub use state::{State, relayed_of};
