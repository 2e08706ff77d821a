//! The client's leases of a lane before an event, and the acts that granted and renewed them.
#![tactic(auto)]

mod history;
mod lane_at;
mod lease_row;
mod row;

pub use history::{Ended, GrantAct};
pub use lane_at::{LaneAt, lane_before};
pub use lease_row::{LeaseKind, LeaseRow};
pub use row::{LaneRow, Traffic, lane_row};
