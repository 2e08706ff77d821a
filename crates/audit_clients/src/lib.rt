//! The clients in captures, in the order in which they are first seen, and their lanes.
#![tactic(auto)]

mod clients;
mod pairs;

pub use clients::Clients;
pub use pairs::Pairs;
