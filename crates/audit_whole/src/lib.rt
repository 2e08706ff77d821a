//! The one run of a certificate, and what it implies about the server (RFC 8656). The crate has
//! definitions and their consequences; no program calls it.
#![tactic(auto)]

pub mod laws;
