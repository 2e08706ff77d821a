//! Departures that are excluded, each with the arrival that caused it.
//!
//! An untrusted proposal numbers a departure and its arrival alike. Here the two are compared: by
//! their data or their transaction, their peer, and their moments. If the arrival can't be parsed,
//! the departure is compared with the packets that may have carried it: by bytes and moments.
#![tactic(auto)]

mod carried;
mod causes;
mod groups;
mod half;
mod maybe_number;
mod reading;
mod slot;
mod unread;

pub use carried::{Carried, Peer};
pub use causes::{CauseNumber, Causes};
pub use groups::Groups;
pub use half::{Half, Reach};
pub use maybe_number::MaybeNumber;
pub use reading::carried_in;
pub use slot::Slot;
pub use unread::{Group, Part, Unread};
