//! The contents of datagrams from and to clients, parsed for the finders.
//!
//! No verdict depends on it: the finders' results are judged. The data is borrowed, and nothing
//! takes memory.
#![tactic(auto)]

mod channels;
mod from_client;
mod peers;
mod to_client;

pub use channels::{Channel, named_channel, requested_channel};
pub use from_client::{FromClient, parse_from_client};
pub use peers::names_peer;
pub use to_client::{Success, ToClient, parse_to_client};
