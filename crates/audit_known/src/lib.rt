//! The facts of the captures by which departures are matched with arrivals.
//!
//! `Pools` has the arrivals that are alike for a response, each kind in order. `Tenancies` has
//! which client had which relayed address at which time, by the responses, `Bindings` the channels
//! that were requested, and `Contents` all that is read once. `Known` has all of it. `Matches`,
//! `Order`, `Placed` and `Handover` are the results. No verdict depends on any of it: the results
//! are checked.
#![tactic(auto)]

mod bindings;
mod candidates;
mod changes;
mod contents;
mod handover;
mod matches;
mod order;
mod placed;
mod pools;
mod tenancies;
mod times;

pub use bindings::Bindings;
pub use candidates::Known;
pub use changes::{Changes, LaneResponse, Made};
pub use contents::Contents;
pub use handover::Handover;
pub use matches::Matches;
pub use order::Order;
pub use placed::Placed;
pub use pools::Pools;
pub use tenancies::{Tenancies, Tenancy};
pub use times::{Time, Times};
