//! The records under one number.

ghost use Rattle.std.specs.Prelude.{◌≡◌, ◌⊎◌};
ghost use Rattle.prep_causes.specs.Slots.{Becomes};

use crate::half::{Half, Reach};

/// The records under one number.
#[derive(Clone, Copy, Debug, PartialEq, Eq)]
pub enum Slot {
    Empty,
    /// An arrival or a departure without its counterpart.
    One(Half),
    /// A departure and its arrival.
    Pair,
}

impl Slot {
    /// With the next record. Nothing is added to a pair.
    pub fn with(self, half: Half, reach: Reach) -> Slot
        ensures { Becomes reach self half result }
    {
        match self {
            Slot::Empty => Slot::One(half),
            Slot::One(first) => {
                if first.can_cause(&half, reach) || half.can_cause(&first, reach) {
                    Slot::Pair
                } else {
                    self
                }
            }
            Slot::Pair => self,
        }
    }
}
