//! The placement of the sightings: one order of all, and the moments of each.

use crate::order::Order;
use audit_seen::SeenNumber;

/// One order of all sightings, with the least moment of each and the one at which it is placed.
#[derive(Drop)]
pub struct Placed {
    order: Order,
    low: Vec<u64>,
    at: Vec<u64>,
}

impl Placed {
    /// This order, with the moments of all sightings by their numbers.
    pub fn new(order: Order, low: Vec<u64>, at: Vec<u64>) -> Placed {
        Placed { order, low, at }
    }

    /// All sightings, in order.
    pub fn in_order(&self) -> &[SeenNumber] {
        self.order.as_slice()
    }

    /// The rank of a sighting in the order.
    pub fn rank(&self, number: SeenNumber) -> u32 {
        self.order.rank(number)
    }

    /// The least moment of a sighting, in nanoseconds since 1970; 0 if no sighting has that number.
    pub fn low(&self, number: SeenNumber) -> u64 {
        self.low.get(number.index()).copied().unwrap_or(0)
    }

    /// The moment at which a sighting is placed; 0 if no sighting has that number.
    pub fn at(&self, number: SeenNumber) -> u64 {
        self.at.get(number.index()).copied().unwrap_or(0)
    }
}
