//! Reads sightings before they are needed.
//!
//! The sightings of a lane are far apart in memory. If each is read when its event comes, the
//! processor waits for one after the other. If those of the next events are read together, it waits
//! for many at once, and finds them in the cache when they are needed.

use audit_model::{Side, Sighting};
use std::sync::atomic::{AtomicU64, Ordering};

/// How many events are read together: more than a processor fetches from memory at once, and few
/// enough for the sightings to stay in the cache.
const TOGETHER: usize = 64;

/// Reads the sightings that an event names, and returns some of their bits.
pub trait ReadsAhead<E> {
    fn read(&self, event: &E) -> u64;
}

/// Reads ahead of a walk over events.
#[derive(Drop)]
pub struct EventsAhead<'e, E, R> {
    reader: R,
    /// The events after those that were read.
    rest: &'e [E],
    /// How many of the events that were read the walk hasn't reached.
    near: usize,
}

impl<'e, E, R: ReadsAhead<E>> EventsAhead<'e, E, R> {
    /// Before the first event. Nothing is read yet.
    pub fn new(reader: R, events: &'e [E]) -> EventsAhead<'e, E, R> {
        EventsAhead {
            reader,
            rest: events,
            near: 0,
        }
    }

    /// Called before each event. Once the walk is through those that were read, it reads the next
    /// ones. Allocates no memory.
    pub fn advance(&mut self) {
        if self.near == 0 {
            self.read_more();
        }
        self.near = self.near.saturating_sub(1);
    }

    fn read_more(&mut self) {
        let (group, rest) = self.rest.split_at(self.rest.len().min(TOGETHER));
        let mut bits = 0;
        for event in group {
            bits ^= self.reader.read(event);
        }
        keep(bits);
        self.rest = rest;
        self.near = group.len();
    }
}

/// Uses what was read. A compiler may omit reads whose result is unused, but not this atomic
/// operation.
fn keep(bits: u64) {
    AtomicU64::new(0).fetch_xor(bits, Ordering::SeqCst);
}

/// Reads the first and the last of a sighting, and returns some bits of both.
pub fn read_sighting(sighting: &Sighting) -> u64 {
    let side = match sighting.side {
        Side::Arrives => 0,
        Side::Leaves => 1,
    };
    sighting.stamp ^ sighting.hi ^ side
}

/// Reads a sighting and the ends of its payload, and returns some bits of them.
pub fn read_payload(sighting: &Sighting) -> u64 {
    let payload = sighting.payload.as_slice();
    let (Some(first), Some(last)) = (payload.first(), payload.last()) else {
        return read_sighting(sighting);
    };
    read_sighting(sighting) ^ u64::from(*first) ^ u64::from(*last)
}
