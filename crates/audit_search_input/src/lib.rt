//! The input of all lanes' searches.
//!
//! `SearchInput` is all of it, shared by reference: the arrivals and the departures of each lane
//! (`Views`), the deadlines of handovers (`Deadlines`), and the constraints. It also computes which
//! responses may help a departure that is refused, and which arrivals a departure may answer. No
//! verdict depends on any of it.
#![tactic(auto)]

mod deadlines;
mod input;
mod ranked;
mod shared;
mod views;

pub use deadlines::{Deadline, Deadlines};
pub use input::{AHEAD, Captured, SearchInput, helps, names, peer_of};
pub use ranked::{Arriving, Ranked};
pub use shared::Shared;
pub use views::{Viewed, Views};
