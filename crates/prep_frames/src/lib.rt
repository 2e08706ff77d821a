//! The frame of a captured block: its bytes, its content, and the offset of its IPv4 packet.
#![tactic(auto)]

mod frame;
mod laws;
mod place;

pub use frame::{BEFORE_PACKET, frame_of, seen_of};
pub use laws::frame_is_the_packets;
pub use place::{byte_at, content_place, number_at};
