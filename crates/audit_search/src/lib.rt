//! Finds for each departure an arrival and a moment, such that the server kept to its rules.
//!
//! `Reading::new` reads the sightings of captures, and `best_round` searches for an order of them
//! and for the acts of each lane. Its result has one order of all sightings, the moment of each,
//! the acts by their slots in that order, and the lanes without an order that keeps to the rules,
//! each with the departure at which it came farthest. No verdict depends on the result: it is
//! checked.
//! is checked.
#![tactic(auto)]

mod lane_search;
mod rounds;
mod searching;

pub use audit_constraints::{Act, LaneFault, Reading, Round};
pub use audit_search_state::{Constraint, Fault, Refused};
pub use rounds::{BestRound, best_round, best_round_by};
