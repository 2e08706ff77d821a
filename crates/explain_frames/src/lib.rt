//! Finds the frame of a capture that shows a sighting, numbered as Wireshark numbers frames.
#![tactic(auto)]

mod counter;
mod frames;
mod granting;
mod tally;

pub use counter::FrameCounter;
pub use frames::{Frame, Frames};
pub use granting::{GrantFrame, GrantSource, granted_address};
