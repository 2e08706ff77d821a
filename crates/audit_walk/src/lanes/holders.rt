//! The lanes that had a relayed address, one after another.

use audit_seen::LaneNumber;

/// The last lane that had a relayed address, and another lane that had it before.
#[derive(Clone, Copy)]
pub struct Holders {
    last: LaneNumber,
    previous: Option<LaneNumber>,
}

impl Holders {
    /// The first lane that has it.
    pub fn new(lane: LaneNumber) -> Holders {
        Holders {
            last: lane,
            previous: None,
        }
    }

    /// The holders after a lane gets the address.
    pub fn followed_by(&self, lane: LaneNumber) -> Holders {
        let previous = if self.last == lane {
            self.previous
        } else {
            Some(self.last)
        };
        Holders {
            last: lane,
            previous,
        }
    }

    pub fn last(&self) -> LaneNumber {
        self.last
    }

    /// The holder before the last one.
    pub fn previous(&self) -> Option<LaneNumber> {
        self.previous
    }
}
