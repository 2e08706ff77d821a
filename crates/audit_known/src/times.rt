//! Estimated moments of the sightings.

ghost use Rattle.std.specs.Prelude.{◌≡◌};

use audit_seen::{SeenNumber, Sights};
use std::alloc::{AllocError, Global};

/// The estimated moment of a sighting.
#[derive(Clone, Copy, Debug)]
pub struct Time {
    when: u64,
    early: u64,
    late: u64,
}

impl Time {
    /// The moment by which it is ordered, in nanoseconds since 1970.
    pub fn when(&self) -> u64
        ensures { result ≡ self.now.when }
    {
        self.when
    }

    /// The earliest moment that it may have.
    pub fn early(&self) -> u64
        ensures { result ≡ self.now.early }
    {
        self.early
    }

    /// The latest moment that it may have.
    pub fn late(&self) -> u64
        ensures { result ≡ self.now.late }
    {
        self.late
    }
}

/// The estimated moment of each sighting, by their numbers.
#[derive(Drop)]
pub struct Times {
    list: Vec<Time>,
}

impl Times {
    /// From the captures: the stamp, and the window around it.
    pub fn by_stamps(alloc: Global, sights: &Sights) -> Result<Times, AllocError> {
        let mut list = Vec::with_capacity(alloc, sights.as_slice().len())?;
        for seen in sights.as_slice() {
            list.push(Time {
                when: seen.stamp(),
                early: seen.first_moment(),
                late: seen.last_moment(),
            })?;
        }
        Ok(Times { list })
    }

    /// From computed keys: the least moment, and the moment at which it is placed.
    pub fn by_keys(alloc: Global, low: &[u64], at: &[u64]) -> Result<Times, AllocError> {
        let mut list = Vec::with_capacity(alloc, low.len())?;
        for (early, late) in low.iter().zip(at) {
            list.push(Time {
                when: *early,
                early: *early,
                late: *late,
            })?;
        }
        Ok(Times { list })
    }

    /// The estimated moment of a sighting; the moment 0 if no sighting has that number.
    pub fn of(&self, number: SeenNumber) -> Time {
        let none = Time {
            when: 0,
            early: 0,
            late: 0,
        };
        self.list.get(number.index()).copied().unwrap_or(none)
    }

    /// The moment by which each sighting is ordered.
    pub fn whens(&self, alloc: Global) -> Result<Vec<u64>, AllocError> {
        let mut whens = Vec::with_capacity(alloc, self.list.len())?;
        for time in &self.list {
            whens.push(time.when)?;
        }
        Ok(whens)
    }
}
