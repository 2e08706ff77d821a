//! Captures for tests and benchmarks: STUN messages and ChannelData, the datagrams of a server with
//! its clients and peers, and the bytes of a capture of them. Only tests and benchmarks use it.
#![tactic(auto)]

mod build_fault;
mod captures;
mod messages;
mod sizes;

pub use audit_stun::Class;
pub use audit_stun::numbers::{attribute, method};
pub use build_fault::BuildFault;
pub use captures::{Capture, UdpDatagram};
pub use messages::{MessageBuilder, channel_data};
