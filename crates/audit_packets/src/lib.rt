//! Finds the UDP datagram in a captured Ethernet frame.
#![tactic(auto)]

mod datagrams;
mod ethernet;
mod ipv4;
mod numbers;
mod seen;
mod udp;

pub use datagrams::{datagram, slice_datagram};
pub use seen::Seen;
