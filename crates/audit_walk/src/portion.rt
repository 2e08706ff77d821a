//! A portion of the events that the walk finds.

use audit_model::{CertDrop, Event, Key, SightId};
use audit_seen::LaneNumber;
use std::alloc::{AllocError, Global};

/// Events with the numbers of their lanes, and drops.
#[derive(Drop)]
pub struct Portion {
    events: Vec<(u32, Event)>,
    drops: Vec<CertDrop>,
}

impl Portion {
    /// No events and no drops. Allocates no memory.
    pub fn new(alloc: Global) -> Portion {
        Portion::of_drops(alloc, Vec::new(alloc))
    }

    /// These drops, and no events.
    pub(crate) fn of_drops(alloc: Global, drops: Vec<CertDrop>) -> Portion {
        Portion {
            events: Vec::new(alloc),
            drops,
        }
    }

    /// Reserves memory for this number of further events.
    pub fn reserve(&mut self, events: usize) -> Result<(), AllocError> {
        self.events.reserve(events)
    }

    /// Adds an event of a lane.
    pub fn push(&mut self, lane: LaneNumber, event: Event) -> Result<(), AllocError> {
        self.events.push((lane.value(), event))?;
        Ok(())
    }

    /// Adds an arrival that is dropped.
    pub fn push_drop(&mut self, sight: SightId, key: Key) -> Result<(), AllocError> {
        self.drops.push(CertDrop { sight, key })?;
        Ok(())
    }

    /// Sorts the events by their keys.
    pub fn sort(&mut self) {
        self.events.sort_unstable_by_key(|(_, event)| event.key());
    }

    /// The events, with the numbers of their lanes.
    pub fn into_events(self) -> Vec<(u32, Event)> {
        self.events
    }

    /// The events, with the numbers of their lanes, and the drops.
    pub fn into_parts(self) -> (Vec<(u32, Event)>, Vec<CertDrop>) {
        let Portion { events, drops } = self;
        (events, drops)
    }
}
