//! Pairs of an arrival and the departure that is assumed to answer it.

use audit_seen::SeenNumber;
use std::alloc::{AllocError, Global};

/// Pairs of an arrival and a departure. They bound the keys; a lane's search chooses anew.
#[derive(Drop)]
pub struct Matches {
    of: Vec<Option<SeenNumber>>,
}

impl Matches {
    /// No match, for this number of sightings.
    pub fn none(alloc: Global, count: usize) -> Result<Matches, AllocError> {
        Ok(Matches {
            of: vec![in alloc; None; count]?,
        })
    }

    /// The match of each sighting.
    pub fn as_slice(&self) -> &[Option<SeenNumber>] {
        self.of.as_slice()
    }

    pub fn of(&self, number: SeenNumber) -> Option<SeenNumber> {
        self.of.get(number.index()).copied().flatten()
    }

    /// Matches a departure with an arrival, and unmatches both from others.
    pub fn join_anew(&mut self, departure: SeenNumber, arrival: SeenNumber) {
        if let Some(other) = self.of(arrival) {
            self.set(other, None);
        }
        self.part(departure);
        self.join(departure, arrival);
    }

    /// Unmatches a departure from its arrival.
    pub fn part(&mut self, departure: SeenNumber) {
        if let Some(matched) = self.of(departure) {
            self.set(matched, None);
        }
        self.set(departure, None);
    }

    /// Matches a departure with an arrival, neither of which has a match.
    pub fn join(&mut self, departure: SeenNumber, arrival: SeenNumber) {
        self.set(departure, Some(arrival));
        self.set(arrival, Some(departure));
    }

    fn set(&mut self, number: SeenNumber, matched: Option<SeenNumber>) {
        if let Some(place) = self.of.get_mut(number.index()) {
            *place = matched;
        }
    }
}
