//! Finds clients that hold one relayed address at once.
#![tactic(auto)]

mod first;
mod hold;
mod kept;

pub use first::clash;
