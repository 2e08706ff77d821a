//! The numbers of lanes, sightings and pools, each from 0.

ghost use Rattle.std.specs.Prelude.{◌≡◌};

/// The number of a lane, as in certificates.
#[derive(Clone, Copy, Debug, PartialEq, Eq, PartialOrd, Ord, Hash)]
pub struct LaneNumber(u32);

/// The number of a sighting among all of them, interface by interface.
#[derive(Clone, Copy, Debug, PartialEq, Eq, PartialOrd, Ord, Hash)]
pub struct SeenNumber(u32);

/// The number of a pool.
#[derive(Clone, Copy, Debug, PartialEq, Eq, PartialOrd, Ord)]
pub struct PoolNumber(u32);

impl LaneNumber {
    /// The lane number of an integer.
    pub fn new(number: u32) -> LaneNumber
        ensures { result.0 ≡ number }
    {
        LaneNumber(number)
    }

    /// The number as an integer.
    pub fn value(self) -> u32
        ensures { result ≡ self.0 }
    {
        self.0
    }

    /// Its index among the lanes.
    pub fn index(self) -> usize
        ensures { result ≡ self.0 }
    {
        let LaneNumber(place) = self;
        place as usize
    }
}

impl SeenNumber {
    /// The sighting number of an integer.
    pub fn new(number: u32) -> SeenNumber
        ensures { result.0 ≡ number }
    {
        SeenNumber(number)
    }

    /// The number as an integer.
    pub fn value(self) -> u32
        ensures { result ≡ self.0 }
    {
        self.0
    }

    /// Its index among the sightings.
    pub fn index(self) -> usize
        ensures { result ≡ self.0 }
    {
        let SeenNumber(place) = self;
        place as usize
    }
}

impl PoolNumber {
    /// The number of the first pool.
    pub(crate) const FIRST: PoolNumber = PoolNumber(0);

    /// The pool number of an integer.
    pub fn new(number: u32) -> PoolNumber
        ensures { result.0 ≡ number }
    {
        PoolNumber(number)
    }

    /// The number as an integer.
    pub fn value(self) -> u32
        ensures { result ≡ self.0 }
    {
        self.0
    }

    /// Its index among the pools.
    pub fn index(self) -> usize
        ensures { result ≡ self.0 }
    {
        let PoolNumber(place) = self;
        place as usize
    }
}
