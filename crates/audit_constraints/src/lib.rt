//! Constraints of the search for a certificate, in addition to the captures: where arrivals are
//! placed, which arrivals departures answer, and when acts occur.
//!
//! `LaneSoFar::constraints` returns what a lane needs to act on a departure. `Settling` keeps the
//! constraints that got lanes further, and tries the next ones. `Prepared` is the input of a
//! round's searches under them, and `Round` the result. No verdict depends on any of it.
#![tactic(auto)]

mod act;
mod first_keys;
mod lane_fault;
mod lane_so_far;
mod prepared;
mod reading;
mod round;
mod searched;
mod settling;

pub use act::Act;
pub use lane_fault::LaneFault;
pub use lane_so_far::LaneSoFar;
pub use prepared::Prepared;
pub use reading::Reading;
pub use round::{Double, Overlap, Round};
pub use searched::{AllSearched, Searched};
pub use settling::Settling;
