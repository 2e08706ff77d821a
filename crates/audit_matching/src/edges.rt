//! Which arrivals must come before which departures.

use audit_known::Matches;
use audit_seen::SeenNumber;
use std::alloc::{AllocError, Global};
use std::collections::BTreeSet;

/// At most this number of arrivals, in addition to its match, must come before a departure.
const MORE: usize = 16;

/// The match of each departure, which is a guess, and arrivals that constraints place before it.
#[derive(Drop)]
pub struct Edges {
    matches: Matches,
    /// Departures, and arrivals that must come before them.
    asked: BTreeSet<(SeenNumber, SeenNumber)>,
    alloc: Global,
}

impl Edges {
    /// The matches, without further arrivals.
    pub fn of(alloc: Global, matches: Matches) -> Edges {
        Edges {
            matches,
            asked: BTreeSet::new(alloc),
            alloc,
        }
    }

    /// The match of each departure.
    pub fn matches(&self) -> &Matches {
        &self.matches
    }

    /// The matches, by value.
    pub fn into_matches(self) -> Matches {
        self.matches
    }

    /// Matches a departure with another arrival, and unmatches both from others.
    pub fn join_anew(&mut self, departure: SeenNumber, arrival: SeenNumber) {
        self.matches.join_anew(departure, arrival);
    }

    /// Adds the requirement that an arrival comes before a departure.
    pub fn require(
        &mut self,
        arrival: SeenNumber,
        departure: SeenNumber,
    ) -> Result<(), AllocError> {
        self.asked.insert((departure, arrival))?;
        Ok(())
    }

    /// The number of added requirements.
    pub fn required(&self) -> usize {
        self.asked.len()
    }

    /// The arrivals that were added for a departure.
    pub fn required_of(&self, departure: SeenNumber) -> Result<Vec<SeenNumber>, AllocError> {
        let mut arrivals = Vec::new(self.alloc);
        if self.asked.is_empty() {
            return Ok(arrivals);
        }
        for (other, arrival) in self
            .asked
            .range((departure, SeenNumber::new(0))..)
            .take(MORE)
        {
            if *other == departure {
                arrivals.push(*arrival)?;
            }
        }
        Ok(arrivals)
    }

    /// The arrivals that must come before a departure, its match first.
    pub fn of_departure(&self, departure: SeenNumber) -> Result<Vec<SeenNumber>, AllocError> {
        let mut arrivals = self.required_of(departure)?;
        if let Some(matched) = self.matches.of(departure) {
            arrivals.insert(0, matched)?;
        }
        Ok(arrivals)
    }

    /// Drops a departure's match if the match wasn't placed, or else an added arrival that wasn't.
    pub fn drop_match(&mut self, departure: SeenNumber, placed: &[bool]) {
        let is_placed = |number: SeenNumber| placed.get(number.index()).copied().unwrap_or(false);
        if self
            .matches
            .of(departure)
            .is_some_and(|matched| !is_placed(matched))
        {
            self.matches.part(departure);
            return;
        }
        let mut given_up = None;
        for (other, arrival) in self
            .asked
            .range((departure, SeenNumber::new(0))..)
            .take(MORE)
        {
            if *other == departure && !is_placed(*arrival) {
                given_up = Some(*arrival);
            }
        }
        if let Some(arrival) = given_up {
            self.asked.remove(&(departure, arrival));
        }
    }
}
