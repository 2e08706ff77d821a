//! One TURN server as a machine (RFC 8656), the lanes that are runs of it with one client each, and
//! the run of all lanes together. The crate has definitions and their consequences; no program
//! calls it.
#![tactic(auto)]

pub mod laws;
