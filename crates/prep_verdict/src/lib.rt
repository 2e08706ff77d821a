//! The meaning of an audit of captures that were cut for the original captures. The crate has
//! definitions and laws; no program calls it.
#![tactic(auto)]

pub mod laws;
