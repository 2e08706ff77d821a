//! The frames of datagrams, by a second pass over the captures.
#![tactic(auto)]

mod pass;

pub use pass::look_up;
