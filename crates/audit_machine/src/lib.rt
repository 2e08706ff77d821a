//! One TURN server's state as data. It judges moves one by one in the order of time, and keeps only
//! what a later move may depend on.
#![tactic(auto)]

mod acts;
mod carry_error;
mod carrying;
mod clients;
mod counts;
mod explaining;
mod forgetting;
mod holders;
mod judged;
mod machine;
mod moves;
mod refusal;
mod tables;
mod times;
mod upkeep;

pub use carry_error::CarryError;
pub use explaining::explains;
pub use machine::Machine;
pub use moves::{Action, Stop};
pub use refusal::Refusal;
pub use upkeep::Upkeep;
