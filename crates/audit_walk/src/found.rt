//! The result of the walk: events, and whether the server seems to conform.

use crate::later::Later;
use crate::portion::Portion;
use audit_model::{Event, Key, SightId};
use audit_seen::LaneNumber;
use std::alloc::{AllocError, Global};

/// The events that were found, and whether the server seems to conform.
#[derive(Drop)]
pub struct Found {
    /// The events that weren't taken out yet.
    portion: Portion,
    /// The events past the last horizon.
    later: Later,
    /// Whether the server kept its rules in all that was placed, as far as the walk can determine.
    seems_conforming: bool,
    alloc: Global,
}

impl Found {
    pub fn new(alloc: Global) -> Found {
        Found {
            portion: Portion::new(alloc),
            later: Later::new(alloc),
            seems_conforming: true,
            alloc,
        }
    }

    /// Whether the server kept its rules in all that was placed, as far as the walk can determine.
    pub fn seems_conforming(&self) -> bool {
        self.seems_conforming
    }

    /// Notes that a rule may be violated, whatever is found later.
    pub fn mark_suspect(&mut self) {
        self.seems_conforming = false;
    }

    /// Reserves memory for this number of further events.
    pub fn reserve(&mut self, events: usize) -> Result<(), AllocError> {
        self.portion.reserve(events)
    }

    /// Adds an event of a lane.
    pub fn push(&mut self, lane: LaneNumber, event: Event) -> Result<(), AllocError> {
        self.portion.push(lane, event)
    }

    /// Adds an arrival that is dropped.
    pub fn push_drop(&mut self, sight: SightId, key: Key) -> Result<(), AllocError> {
        self.portion.push_drop(sight, key)
    }

    /// Takes out the events that were found since the last call.
    pub fn take_portion(&mut self) -> Portion {
        std::mem::replace(&mut self.portion, Portion::new(self.alloc))
    }

    /// Takes out the events up to the horizon, in the order of their keys. To keep an event until
    /// then takes logarithmic time.
    pub fn take_until(&mut self, horizon: u64) -> Result<Portion, AllocError> {
        let (events, drops) = self.take_portion().into_parts();
        let mut portion = Portion::of_drops(self.alloc, drops);
        for (lane, event) in events {
            let lane = LaneNumber::new(lane);
            if event.key().moment <= horizon {
                portion.push(lane, event)?;
            } else {
                self.later.push(lane, event)?;
            }
        }
        for _ in 0..self.later.count() {
            match self.later.take_first(horizon) {
                Some((lane, event)) => portion.push(lane, event)?,
                None => break,
            }
        }
        portion.sort();
        Ok(portion)
    }
}
