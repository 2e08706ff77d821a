//! The acts of all lanes.

ghost use Rattle.std.specs.Prelude.{◌≡◌};

use audit_search_state::Turn;
use audit_seen::{LaneNumber, SeenNumber, Slot};

/// An act of a lane. Acts are ordered by slot, then by lane, then by turn.
#[derive(Clone, Copy, Debug, PartialEq, Eq, PartialOrd, Ord)]
pub struct Act {
    slot: Slot,
    lane: LaneNumber,
    turn: Turn,
    arrival: SeenNumber,
    departure: SeenNumber,
}

impl Act {
    /// An act of a lane in a slot: its turn there, the arrival, and the departure sent for it.
    pub fn new(
        slot: Slot,
        lane: LaneNumber,
        turn: Turn,
        arrival: SeenNumber,
        departure: SeenNumber,
    ) -> Act {
        Act {
            slot,
            lane,
            turn,
            arrival,
            departure,
        }
    }

    /// The slot of the act.
    pub fn slot(&self) -> Slot
        ensures { result ≡ self.now.slot }
    {
        self.slot
    }

    /// The lane of the act.
    pub fn lane(&self) -> LaneNumber
        ensures { result ≡ self.now.lane }
    {
        self.lane
    }

    /// The arrival that it answers.
    pub fn arrival(&self) -> SeenNumber
        ensures { result ≡ self.now.arrival }
    {
        self.arrival
    }

    /// The departure that it sends.
    pub fn departure(&self) -> SeenNumber
        ensures { result ≡ self.now.departure }
    {
        self.departure
    }
}
