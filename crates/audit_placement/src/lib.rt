//! Placement: checks that a certificate places each sighting once, in its window and in order.
#![tactic(auto)]

mod ahead;
mod clean;
mod cuts;
mod entry;
mod events;
mod first;
mod keys;
mod lane_rules;
mod laws;
mod neighbours;
mod next_event;
mod pieces;
mod places;
mod single;
mod table;
mod unplaced;
mod whole;

pub use entry::LaneEnd;
pub use first::FirstPlaces;
pub use keys::PlacedKeys;
pub use laws::by_lane_and_place;
pub use next_event::note_event;
pub use places::Places;
pub use single::event_rule;
pub use unplaced::unplaced_breach;
pub use whole::{Placement, placed, placed_breach, placed_by};
