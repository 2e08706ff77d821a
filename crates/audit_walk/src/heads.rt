//! A priority queue of interfaces by their next sightings.

use std::alloc::{AllocError, Global};
use std::cmp::Reverse;
use std::collections::BinaryHeap;

/// Interfaces by the first moment of their next sighting, then by number.
#[derive(Drop)]
pub struct Heads {
    heap: BinaryHeap<Reverse<(u64, u32)>>,
}

impl Heads {
    pub fn new(alloc: Global) -> Heads {
        Heads {
            heap: BinaryHeap::new(alloc),
        }
    }

    /// Adds an interface. It takes logarithmic time in the number of interfaces.
    pub fn push(&mut self, moment: u64, iface: u32) -> Result<(), AllocError> {
        self.heap.push(Reverse((moment, iface)))?;
        Ok(())
    }

    /// The first of them.
    pub fn first(&self) -> Option<(u64, u32)> {
        let Reverse(head) = self.heap.peek()?;
        Some(*head)
    }

    /// Takes out the first, unless its moment is past the horizon.
    pub fn pop(&mut self, horizon: u64) -> Option<(u64, u32)> {
        let Reverse((moment, _)) = self.heap.peek()?;
        if *moment > horizon {
            return None;
        }
        let Reverse(head) = self.heap.pop()?;
        Some(head)
    }
}
