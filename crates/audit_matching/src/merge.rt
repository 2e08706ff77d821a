//! The interfaces as they are merged, each by its next sighting.

use audit_seen::{SeenNumber, Sights};
use std::alloc::{AllocError, Global};
use std::cmp::Reverse;
use std::collections::{BTreeSet, BinaryHeap};

/// The priority of one interface before another, the least first: a moment, whether it is a
/// departure, another moment.
pub(crate) type Urgency = (u64, bool, u64);

/// The arrival for which an interface waits.
#[derive(Clone, Copy)]
struct Parked {
    arrival: SeenNumber,
    urgency: Urgency,
}

/// The interfaces, each with its next sighting, which is ready or waits for an arrival.
#[derive(Drop)]
pub(crate) struct Merge {
    /// The index of the next sighting of each.
    heads: Vec<u32>,
    parked: Vec<Option<Parked>>,
    ready: BinaryHeap<Reverse<(Urgency, u32)>>,
    /// The interfaces that wait, by the arrival that they wait for, and by their urgency.
    by_arrival: BTreeSet<(SeenNumber, u32)>,
    by_urgency: BTreeSet<(Urgency, u32)>,
}

impl Merge {
    /// This number of interfaces at their first sightings, none of them ready.
    pub(crate) fn new(alloc: Global, interfaces: usize) -> Result<Merge, AllocError> {
        Ok(Merge {
            heads: vec![in alloc; 0; interfaces]?,
            parked: vec![in alloc; None; interfaces]?,
            ready: BinaryHeap::new(alloc),
            by_arrival: BTreeSet::new(alloc),
            by_urgency: BTreeSet::new(alloc),
        })
    }

    /// The next sighting of an interface.
    pub(crate) fn next(&self, sights: &Sights, iface: u32) -> Option<SeenNumber> {
        let place = self.heads.get(iface as usize).copied()?;
        sights.at(iface as usize, place)
    }

    /// Moves past the next sighting of an interface.
    pub(crate) fn advance(&mut self, iface: u32) {
        if let Some(head) = self.heads.get_mut(iface as usize) {
            *head = head.saturating_add(1);
        }
    }

    /// Makes an interface ready.
    pub(crate) fn queue(&mut self, iface: u32, urgency: Urgency) -> Result<(), AllocError> {
        self.ready.push(Reverse((urgency, iface)))?;
        Ok(())
    }

    /// Parks an interface until an arrival is placed.
    pub(crate) fn park(
        &mut self,
        iface: u32,
        arrival: SeenNumber,
        urgency: Urgency,
    ) -> Result<(), AllocError> {
        if let Some(place) = self.parked.get_mut(iface as usize) {
            *place = Some(Parked { arrival, urgency });
            self.by_arrival.insert((arrival, iface))?;
            self.by_urgency.insert((urgency, iface))?;
        }
        Ok(())
    }

    /// Removes the most urgent interface that is ready.
    pub(crate) fn pop(&mut self) -> Option<u32> {
        let Reverse((_, iface)) = self.ready.pop()?;
        Some(iface)
    }

    /// Removes an interface that waits for the arrival.
    pub(crate) fn woken(&mut self, arrival: SeenNumber) -> Option<u32> {
        let (other, iface) = *self.by_arrival.range((arrival, 0)..).next()?;
        if other != arrival {
            return None;
        }
        self.unpark(iface);
        Some(iface)
    }

    /// Removes the most urgent interface that waits.
    pub(crate) fn release(&mut self) -> Option<u32> {
        let (_, iface) = *self.by_urgency.first()?;
        self.unpark(iface);
        Some(iface)
    }

    fn unpark(&mut self, iface: u32) {
        if let Some(place) = self.parked.get_mut(iface as usize) {
            if let Some(parked) = place.take() {
                self.by_arrival.remove(&(parked.arrival, iface));
                self.by_urgency.remove(&(parked.urgency, iface));
            }
        }
    }
}
