//! Reads STUN messages (RFC 8489) and ChannelData (RFC 8656). Nothing here allocates memory.
#![tactic(auto)]

mod attribute;
mod channel;
mod class;
mod counted;
mod error;
mod messages;
pub mod numbers;
mod parse;
mod peers;
mod transport;

pub use channel::channel_data;
pub use class::Class;
pub use error::error_code;
pub use messages::Message;
pub use parse::message;
pub use peers::Peers;
pub use transport::address;
