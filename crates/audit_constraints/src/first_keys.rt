//! The first estimate of the moments of all sightings.

use crate::reading::Reading;
use audit_known::{Known, Matches, Pools, Tenancies, Times};
use audit_matching::{Edges, lows, match_up, places};
use audit_seen::{PoolNumber, SeenNumber};
use std::alloc::AllocError;

/// The first estimate: a key of each sighting's moment, the arrivals of each pool in the order of
/// their keys, and the arrival that each departure answers.
#[derive(Drop)]
pub struct FirstKeys {
    times: Times,
    pools: Pools,
    matches: Matches,
}

impl FirstKeys {
    /// Computes the keys from stamps alone. `shifts` has, for each interface, how far after the
    /// starts of their windows its sightings are.
    pub fn of(reading: &Reading<'_>, shifts: &[u64]) -> Result<FirstKeys, AllocError> {
        let alloc = reading.alloc();
        let contents = reading.contents();
        let sights = contents.sights();
        let policy = reading.policy();
        let none = Matches::none(alloc, sights.as_slice().len())?;
        let times = Times::by_stamps(alloc, sights)?;
        let pools = Pools::by(alloc, sights, contents.numbers(), &times.whens(alloc)?)?;
        let tenancies = Tenancies::of(alloc, sights, &times, none.as_slice(), policy.grace)?;
        let known = Known::new(alloc, contents, &times, &pools, &tenancies, policy.hold);
        let mut edges = Edges::of(alloc, match_up(&known, &[])?);
        let low = lows(alloc, sights, &mut edges, shifts, policy.hold)?;
        let at = places(alloc, sights, &edges, &low, policy.hold)?;
        let times = Times::by_keys(alloc, &low, &at)?;
        let pools = Pools::by(alloc, sights, contents.numbers(), &times.whens(alloc)?)?;
        Ok(FirstKeys {
            times,
            pools,
            matches: edges.into_matches(),
        })
    }

    /// The estimated moment of each sighting.
    pub fn times(&self) -> &Times {
        &self.times
    }

    /// The arrival that each departure answers.
    pub fn matches(&self) -> &Matches {
        &self.matches
    }

    /// The arrivals of a pool, in the order of their keys.
    pub fn arrivals(&self, pool: PoolNumber) -> &[SeenNumber] {
        self.pools.get(pool)
    }

    /// Which client had which relayed address at which time, by these keys.
    pub fn tenancies(&self, reading: &Reading<'_>) -> Result<Tenancies, AllocError> {
        let grace = reading.policy().grace;
        let matches = self.matches.as_slice();
        Tenancies::of(
            reading.alloc(),
            reading.sights(),
            &self.times,
            matches,
            grace,
        )
    }

    /// The facts by which departures are matched.
    pub fn known<'a>(&'a self, reading: &'a Reading<'_>, tenancies: &'a Tenancies) -> Known<'a> {
        let hold = reading.policy().hold;
        let contents = reading.contents();
        Known::new(
            reading.alloc(),
            contents,
            &self.times,
            &self.pools,
            tenancies,
            hold,
        )
    }
}
