//! The lanes that fail in a round.

ghost use Rattle.std.specs.Prelude.{◌≡◌};

use audit_search_state::{Constraint, Fault};
use audit_seen::LaneNumber;

/// A lane that can't act on a departure in any order that was tried, and what it needs.
#[derive(Drop)]
pub struct LaneFault {
    lane: LaneNumber,
    fault: Fault,
    /// The constraints that may help, the likeliest first.
    constraints: Vec<Constraint>,
}

impl LaneFault {
    /// A lane, the first departure that it can't act on, and the constraints that may help, the
    /// likeliest first.
    pub fn new(lane: LaneNumber, fault: Fault, constraints: Vec<Constraint>) -> LaneFault {
        LaneFault {
            lane,
            fault,
            constraints,
        }
    }

    /// The lane.
    pub fn lane(&self) -> LaneNumber
        ensures { result ≡ self.now.lane }
    {
        self.lane
    }

    /// The first departure that it can't act on.
    pub fn fault(&self) -> Fault
        ensures { result ≡ self.now.fault }
    {
        self.fault
    }

    /// The constraints that may help, the likeliest first.
    pub fn constraints(&self) -> &[Constraint] {
        self.constraints.as_slice()
    }
}
