//! Places in the order of all sightings, finer than their ranks.

ghost use Rattle.std.specs.Prelude.{◌≡◌, ◌/◌, ◌%◌, ◌<◌};

/// A place right before or right after a sighting, in the order of all: four for each sighting.
#[derive(Clone, Copy, Debug, PartialEq, Eq, PartialOrd, Ord)]
pub struct Slot(u32);

impl Slot {
    /// Before all sightings.
    pub fn least() -> Slot
        ensures { result.0 ≡ 0 }
    {
        Slot(0)
    }

    /// The slot's number among all slots.
    pub fn value(self) -> u32
        ensures { result ≡ self.0 }
    {
        self.0
    }

    /// One of the four slots of a rank: two before the sighting, its own, and one after it.
    pub fn part(rank: u32, place: u32) -> Slot {
        Slot(rank.saturating_mul(4).saturating_add(place))
    }

    /// The first slot of a rank.
    pub fn first(rank: u32) -> Slot {
        Slot::part(rank, 0)
    }

    /// Right before the sighting of a rank.
    pub fn before(rank: u32) -> Slot {
        Slot::part(rank, 1)
    }

    /// The slot of the sighting.
    pub fn own(rank: u32) -> Slot {
        Slot::part(rank, 2)
    }

    /// The slot right after the sighting of a rank.
    pub fn after(rank: u32) -> Slot {
        Slot::part(rank, 3)
    }

    /// The rank of its sighting.
    pub fn rank(self) -> u32
        ensures { result ≡ self.0 / 4 }
    {
        self.0 / 4
    }

    /// Which of the four slots of its rank it is.
    pub fn place(self) -> u32
        ensures which { result ≡ self.0 % 4 }
        ensures few { result < 4 }
    {
        self.0 % 4
    }

    /// The next slot.
    pub fn next(self) -> Slot {
        Slot(self.0.saturating_add(1))
    }
}
