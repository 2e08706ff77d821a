//! The datagrams of sessions as data, and captures and certificates that are built from them, for
//! the tests of other crates.
#![tactic(auto)]

mod building;
mod datagrams;
mod messages;
mod openings;

pub use building::Built;
pub use datagrams::{CLIENT, Datagram, LISTEN, OTHER_CLIENT, PEER, RELAYED, Step};
pub use messages::{
    BY_USER, PASSWORD, Part, Payload, SIGNED, THE_REALM, USER, channel_bytes, indication_bytes,
    message_bytes,
};
pub use openings::{
    ALLOCATE, ALLOCATED, ALLOCATED_FOR_1200, ALLOCATED_FOR_NO_TIME, BIND_4001, BIND_SUCCESS,
    BOUND_4FFF, BOUND_4000, BOUND_5000, CHALLENGED, GIVES_RELAYED, OF_PEER, PERMIT, PERMIT_SUCCESS,
    PERMITTED, SEEN_AS_CLIENT, UDP,
};
