//! A map with a value for each of the sightings of one lane.
#![tactic(auto)]

mod interface;
mod map;
mod rising;

pub use map::SightMap;
