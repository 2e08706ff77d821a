//! One order of all sightings.

use audit_seen::SeenNumber;
use std::alloc::{AllocError, Global};

/// One order of all sightings, which keeps that of each interface.
#[derive(Drop)]
pub struct Order {
    order: Vec<SeenNumber>,
    ranks: Vec<u32>,
}

impl Order {
    /// An empty order for this number of sightings.
    pub fn new(alloc: Global, count: usize) -> Result<Order, AllocError> {
        Ok(Order {
            order: Vec::with_capacity(alloc, count)?,
            ranks: vec![in alloc; u32::MAX; count]?,
        })
    }

    /// Appends a sighting.
    pub fn push(&mut self, number: SeenNumber) -> Result<(), AllocError> {
        if let (Some(rank), Ok(place)) = (
            self.ranks.get_mut(number.index()),
            u32::try_from(self.order.len()),
        ) {
            *rank = place;
        }
        self.order.push(number)?;
        Ok(())
    }

    /// All sightings, in order.
    pub fn as_slice(&self) -> &[SeenNumber] {
        self.order.as_slice()
    }

    /// The rank of a sighting in the order.
    pub fn rank(&self, number: SeenNumber) -> u32 {
        self.ranks.get(number.index()).copied().unwrap_or(u32::MAX)
    }
}
