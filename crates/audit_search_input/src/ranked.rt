//! Sightings of a lane, with their ranks in the order of all.

ghost use Rattle.std.specs.Prelude.{◌≡◌};

use audit_search_state::PoolRef;
use audit_seen::{LaneNumber, SeenNumber};

/// An arrival of a lane's pool. The arrivals of a lane are ordered by pool, then by rank.
#[derive(Clone, Copy, Debug, PartialEq, Eq, PartialOrd, Ord)]
pub struct Arriving {
    lane: LaneNumber,
    pool: PoolRef,
    rank: u32,
    number: SeenNumber,
}

impl Arriving {
    /// An arrival in a lane's pool, with its rank in the order of all.
    pub fn new(lane: LaneNumber, pool: PoolRef, rank: u32, number: SeenNumber) -> Arriving {
        Arriving {
            lane,
            pool,
            rank,
            number,
        }
    }

    /// The lane.
    pub fn lane(&self) -> LaneNumber
        ensures { result ≡ self.now.lane }
    {
        self.lane
    }

    /// The pool.
    pub fn pool(&self) -> PoolRef
        ensures { result ≡ self.now.pool }
    {
        self.pool
    }

    /// Its rank in the order of all.
    pub fn rank(&self) -> u32
        ensures { result ≡ self.now.rank }
    {
        self.rank
    }

    /// The sighting's number.
    pub fn number(&self) -> SeenNumber
        ensures { result ≡ self.now.number }
    {
        self.number
    }
}

/// A sighting of a lane. The sightings of a lane are ordered by rank.
#[derive(Clone, Copy, Debug, PartialEq, Eq, PartialOrd, Ord)]
pub struct Ranked {
    lane: LaneNumber,
    rank: u32,
    number: SeenNumber,
}

impl Ranked {
    /// A sighting of a lane, with its rank in the order of all.
    pub fn new(lane: LaneNumber, rank: u32, number: SeenNumber) -> Ranked {
        Ranked { lane, rank, number }
    }

    /// The lane.
    pub fn lane(&self) -> LaneNumber
        ensures { result ≡ self.now.lane }
    {
        self.lane
    }

    /// Its rank in the order of all.
    pub fn rank(&self) -> u32
        ensures { result ≡ self.now.rank }
    {
        self.rank
    }

    /// The sighting's number.
    pub fn number(&self) -> SeenNumber
        ensures { result ≡ self.now.number }
    {
        self.number
    }
}
