//! Judges one lane alone: the datagrams that its client sent, and those that the server sent for
//! them.
#![tactic(auto)]

mod ahead;
mod comparing;
mod concluding;
mod fault;
mod finding;
mod input;
mod job;
mod judging;
mod lane;
pub mod laws;
mod noted;
mod state;
mod users;

pub use concluding::{all_tenancies, count_broken, least_breach};
pub use fault::LaneFault;
pub use finding::{Finding, Outcome, judge};
pub use input::{LaneEvent, LaneInput, lane_input};
pub use job::Job;
pub use lane::Lane;
pub use state::LaneState;
