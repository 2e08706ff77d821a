//! A host in memory for the tests of other crates: files and streams, and the program run with
//! them. Only tests use it.
#![tactic(auto)]

mod answers;
mod binding;
mod files;
mod seed;

pub use answers::{Answer, Output, PLENTY, run_program, text_of};
pub use binding::{Parts, SECTION, binding_capture, binding_parts};
pub use files::Files;

/// A policy of one listen address and the relayed addresses above it.
pub const POLICY: &str = "turnaudit-policy 1\nlisten 192.0.2.1:3478\nrelay 192.0.2.1:49152-65535\n";
