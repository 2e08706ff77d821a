//! Events that wait for a horizon.

use audit_model::{Event, Key};
use audit_seen::LaneNumber;
use std::alloc::{AllocError, Global};
use std::collections::{BTreeMap, VecDeque};

/// Events of lanes, which are taken out in the order of their keys.
///
/// No two have one key: the clock issues each key once, and each key that it keeps free is used
/// once.
#[derive(Drop)]
pub struct Later {
    /// Those that were added in the order of their keys, as most are.
    rising: VecDeque<(LaneNumber, Event)>,
    /// Those that were added after one with a greater key.
    others: BTreeMap<(Key, LaneNumber), Event>,
}

impl Later {
    /// No events. Allocates no memory.
    pub fn new(alloc: Global) -> Later {
        Later {
            rising: VecDeque::new(alloc),
            others: BTreeMap::new(alloc),
        }
    }

    /// The number of events.
    pub fn count(&self) -> usize {
        self.rising.len().saturating_add(self.others.len())
    }

    /// Adds an event of a lane.
    pub fn push(&mut self, lane: LaneNumber, event: Event) -> Result<(), AllocError> {
        match self.rising.back() {
            Some((_, last)) if last.key() > event.key() => {
                self.others.insert((event.key(), lane), event)?;
            }
            _ => self.rising.push_back((lane, event))?,
        }
        Ok(())
    }

    /// Takes out the event with the least key, with its lane, unless it is past the horizon.
    pub fn take_first(&mut self, horizon: u64) -> Option<(LaneNumber, Event)> {
        let rising = self.rising.front().map(|(_, event)| event.key());
        let other = self.others.first_key_value().map(|(key, _)| key.0);
        let is_rising = match (rising, other) {
            (Some(rising), Some(other)) => rising <= other,
            (Some(_), None) => true,
            (None, _) => false,
        };
        let first = if is_rising { rising } else { other };
        if first?.moment > horizon {
            return None;
        }
        if is_rising {
            return self.rising.pop_front();
        }
        let ((_, lane), event) = self.others.pop_first()?;
        Some((lane, event))
    }
}
