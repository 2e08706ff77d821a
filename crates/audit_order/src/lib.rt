//! Checks the placement of a certificate that grows in portions.
#![tactic(auto)]

mod fitting;
mod growing;
mod portions;

pub use audit_placement::{Placement, by_lane_and_place, placed};
pub use portions::Placing;
