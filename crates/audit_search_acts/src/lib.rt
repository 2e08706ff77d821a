//! The acts of one lane: the ways to act on a departure by which the server keeps to its rules.
//!
//! `Lane` is the search of one lane. `Lane::act_now` acts on a departure as it leaves.
//! `Lane::plans` returns all ways, also earlier ones and those after pending responses, and
//! `Lane::follow` acts in one of them. `audit_rules` judges each act. No verdict depends on any of
//! it.
#![tactic(auto)]

mod lane;

pub use lane::{Draw, Lane, PREVIOUS, Plan};
