//! The act that sends a departure.

ghost use Rattle.std.specs.Prelude.{◌≡◌};

use crate::previous::End;
use audit_seen::{SeenNumber, Slot};

/// The order of the acts of one slot: by the act that they follow, and then by their own turns.
#[derive(Clone, Copy, Debug, PartialEq, Eq, PartialOrd, Ord)]
pub struct Turn {
    behind: u32,
    own: u32,
}

impl Turn {
    /// The turn of the next act in the present table.
    pub fn now(turn: u32) -> Turn {
        Turn {
            behind: turn,
            own: 0,
        }
    }

    /// The turn of an act right before the act that ended a table, after all acts that are already
    /// there.
    pub fn before_end(end: End, own: u32) -> Turn {
        Turn {
            behind: end.turn().saturating_sub(1),
            own,
        }
    }
}

/// The act that sends a departure.
#[derive(Clone, Copy, Debug)]
pub struct Acted {
    slot: Slot,
    turn: Turn,
    arrival: SeenNumber,
}

impl Acted {
    /// An act in a slot, by its turn there and the arrival that it answers.
    pub fn new(slot: Slot, turn: Turn, arrival: SeenNumber) -> Acted {
        Acted {
            slot,
            turn,
            arrival,
        }
    }

    /// The slot of the act.
    pub fn slot(&self) -> Slot
        ensures { result ≡ self.now.slot }
    {
        self.slot
    }

    /// The order of the acts of one slot.
    pub fn turn(&self) -> Turn
        ensures { result ≡ self.now.turn }
    {
        self.turn
    }

    /// The arrival that it answers.
    pub fn arrival(&self) -> SeenNumber
        ensures { result ≡ self.now.arrival }
    {
        self.arrival
    }

    /// Whether the act comes before the act that ended a table.
    pub fn is_before(&self, end: End) -> bool {
        (self.slot, self.turn.behind) < (end.slot(), end.turn())
    }
}
