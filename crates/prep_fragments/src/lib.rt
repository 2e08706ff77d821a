//! Reassembles the fragments of UDP datagrams over IPv4 in captures (RFC 791).
#![tactic(auto)]

mod begun;
mod fault;
mod feeding;
mod fragment;
mod opens;
mod places;
mod reassembler;
mod whole;

pub use fault::{FragmentFault, ReassembleFault, Refused};
pub use feeding::Reassembled;
pub use fragment::{Fragment, Key};
pub use reassembler::Reassembler;
