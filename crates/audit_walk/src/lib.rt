//! Finds events by one walk over the sightings, the least moment first, without backtracking.
//!
//! `Search` keeps the state, so that the walk continues as captures grow. No verdict depends on the
//! result, which is checked.
#![tactic(auto)]

mod ahead;
mod causes;
mod clock;
mod content;
mod datagrams;
mod digests;
mod found;
mod heads;
mod interfaces;
mod judge;
mod kinds;
mod lanes;
mod later;
mod numbers;
mod portion;
mod queues;
mod search;

pub use ahead::{Ahead, Stretch};
pub use judge::Judge;
pub use portion::Portion;
pub use search::Search;
