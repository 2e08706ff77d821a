//! A run of the server that is judged in segments, each from the cut to which the one before it
//! leads. The crate has definitions and their laws; no program calls it.
#![tactic(auto)]

pub mod laws;
