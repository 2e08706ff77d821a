//! The contents of the captured sightings, each read once.
//!
//! `Sights::read` reads them, and numbers the pools of alike arrivals. `Slot` is a place in an
//! order of all of them. No verdict depends on any of it: the result is checked.
#![tactic(auto)]

mod content;
mod lanes;
mod numbers;
mod pool_numbers;
mod reading;
mod seen;
mod slot;

pub use content::{ArrivalKind, Content, PoolKey, requested_channel};
pub use lanes::Lanes;
pub use numbers::{LaneNumber, PoolNumber, SeenNumber};
pub use pool_numbers::PoolNumbers;
pub use seen::{Says, Seen, Sights};
pub use slot::Slot;
