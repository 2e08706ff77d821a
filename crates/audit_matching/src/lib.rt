//! Which departures may answer which arrivals, and one order of all sightings.
//!
//! `match_up` matches each departure with the oldest arrival that it may answer. `lows` and
//! `places` compute a moment for each sighting, and `ranked` an order. No verdict depends on any of
//! it: the result is checked.
#![tactic(auto)]

mod edges;
mod handing_over;
mod late;
mod low;
mod matching;
mod merge;
mod rank;
mod relayed;

pub use edges::Edges;
pub use handing_over::{handovers, require_handovers};
pub use late::places;
pub use low::lows;
pub use matching::match_up;
pub use rank::ranked;
pub use relayed::{Banned, RelayedLanes};
