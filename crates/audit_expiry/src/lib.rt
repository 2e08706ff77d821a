//! How long allocations, permissions and channels last (RFC 8656).
#![tactic(auto)]

mod lease;
mod leases;

pub use lease::Lease;
pub use leases::{ExactKey, Leases};
