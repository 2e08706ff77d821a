//! The constraints of a lane on the search, in addition to the captures.

use audit_seen::{LaneNumber, SeenNumber};

/// A constraint on where arrivals are placed, which arrivals departures answer, when acts are, or
/// whose a sighting is. Constraints are ordered by kind, then by the sighting that they are about.
#[derive(Clone, Copy, Debug, PartialEq, Eq, PartialOrd, Ord, Hash)]
pub enum Constraint {
    /// A departure answers this arrival, which is placed late enough for that.
    Answers {
        departure: SeenNumber,
        arrival: SeenNumber,
    },
    /// An arrival is placed before a departure.
    Before {
        arrival: SeenNumber,
        departure: SeenNumber,
    },
    /// The act of a response that grants a lease is at its request, so that the lease ends as early
    /// as possible.
    AtRequest {
        answer: SeenNumber,
    },
    /// The lease that a response grants expires before a departure, but no earlier than necessary.
    OverBefore {
        answer: SeenNumber,
        departure: SeenNumber,
    },
    /// An allocation ends before another lane's allocation of the same address begins, wherever the
    /// two responses that granted them leave.
    Precedes {
        maker: SeenNumber,
        next: SeenNumber,
    },
    /// A response is sent in the allocation that ended before it left, not in the present one.
    Earlier {
        answer: SeenNumber,
    },
    /// An address which another client had before is granted to this one before a departure, not
    /// when the response leaves.
    HandedOver {
        answer: SeenNumber,
        departure: SeenNumber,
    },
    /// A response is sent in the allocation that another response granted, not in an earlier one.
    Within {
        answer: SeenNumber,
        maker: SeenNumber,
    },
    /// A sighting of a relayed address belongs to another lane.
    NotHere {
        sighting: SeenNumber,
        lane: LaneNumber,
    },
}

impl Constraint {
    /// Whether the constraint moves the act of a response before the response leaves.
    pub fn is_of_early_act(self) -> bool {
        matches!(
            self,
            Constraint::AtRequest { .. }
                | Constraint::OverBefore { .. }
                | Constraint::Precedes { .. }
        )
    }

    /// Whether it moves another departure's arrival, so that a lane may get further only by the
    /// next constraint of the kind.
    pub fn is_of_answers(self) -> bool {
        matches!(self, Constraint::Answers { .. })
    }

    /// The sighting that it takes from a lane.
    pub fn taken_away(self) -> Option<SeenNumber> {
        match self {
            Constraint::NotHere { sighting, .. } => Some(sighting),
            _ => None,
        }
    }
}
