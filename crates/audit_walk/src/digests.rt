//! A table from digests, which strangers may choose, to numbers.

use std::alloc::{AllocError, Global};
use std::collections::BTreeMap;

/// How many slots of the table may contain a digest, beginning with its own.
const NEAR: usize = 16;

/// The least number of slots of a table.
const LEAST: usize = 64;

/// A slot of the table: a digest and its number.
#[derive(Clone, Copy)]
struct Place {
    digest: u64,
    number: Option<u32>,
}

/// A map from digests to numbers. An entry never changes.
///
/// The entries are in a table by their last bits. Those that find no free slot near their own are
/// in an ordered map. So a call looks at up to `NEAR` slots and takes at most the logarithm of the
/// map's size, whatever digests are chosen.
#[derive(Drop)]
pub struct Digests {
    /// A power of two of slots, or none.
    places: Vec<Place>,
    others: BTreeMap<u64, u32>,
    count: usize,
    alloc: Global,
}

impl Digests {
    pub fn new(alloc: Global) -> Digests {
        Digests {
            places: Vec::new(alloc),
            others: BTreeMap::new(alloc),
            count: 0,
            alloc,
        }
    }

    /// The number of a digest.
    pub fn get(&self, digest: u64) -> Option<u32> {
        for step in 0..NEAR {
            let place = self.places.get(place_of(digest, step, self.places.len()))?;
            if place.digest == digest && place.number.is_some() {
                return place.number;
            }
            if place.number.is_none() {
                return None;
            }
        }
        self.others.get(&digest).copied()
    }

    /// Adds the number of a digest that has none.
    pub fn insert(&mut self, digest: u64, number: u32) -> Result<(), AllocError> {
        if self.count >= self.places.len() / 2 {
            self.grow()?;
        }
        self.count = self.count.saturating_add(1);
        self.put(digest, number)
    }

    fn put(&mut self, digest: u64, number: u32) -> Result<(), AllocError> {
        let length = self.places.len();
        for step in 0..NEAR {
            if let Some(place) = self.places.get_mut(place_of(digest, step, length)) {
                if place.number.is_none() {
                    place.digest = digest;
                    place.number = Some(number);
                    return Ok(());
                }
            }
        }
        self.others.insert(digest, number)?;
        Ok(())
    }

    /// Doubles the table.
    fn grow(&mut self) -> Result<(), AllocError> {
        let length = self.places.len().saturating_mul(2).max(LEAST);
        let empty = Place {
            digest: 0,
            number: None,
        };
        let places = vec![in self.alloc; empty; length]?;
        let places = std::mem::replace(&mut self.places, places);
        let others = std::mem::replace(&mut self.others, BTreeMap::new(self.alloc));
        for place in places {
            if let Some(number) = place.number {
                self.put(place.digest, number)?;
            }
        }
        for (digest, number) in others {
            self.put(digest, number)?;
        }
        Ok(())
    }
}

/// The slot `step` steps after a digest's own, in a table of `length` slots.
fn place_of(digest: u64, step: usize, length: usize) -> usize {
    (digest as usize).wrapping_add(step) & length.wrapping_sub(1)
}
