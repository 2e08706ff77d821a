//! Writes captures without the excluded packets, and counts the excluded ones.
#![tactic(auto)]

mod allocations;
mod cutter;
mod datagram;
mod edge;
mod events;
mod fault;
mod half;
mod lasting;
mod laws;
mod lease;
mod leases;
mod marker;
mod plan;
mod reason;
mod release;
mod stated;
mod tallies;
mod tally;
mod transaction;
mod unread;

pub use allocations::Allocations;
pub use cutter::{Cutter, WasCut};
pub use datagram::{Datagram, datagram_in};
pub use edge::slack_of;
pub use fault::{CutFault, CutRefused};
pub use laws::{
    edge_is_early, leases_stay, released_is_bounded, shown_allocates_stay, strangers_stay,
};
pub use plan::{LineNumber, Plan, Proposal};
pub use prep_causes::CauseNumber;
pub use reason::{FarEnd, Reason, ReasonKind};
pub use release::Release;
pub use stated::Stated;
pub use tallies::Tallies;
pub use tally::{Count, Tally, Totals};
pub use transaction::Transaction;
