//! An arrival, or the departure that it caused.

ghost use Rattle.std.specs.Prelude.{◌≡◌, ◌↔◌, IsTrue};
ghost use Rattle.prep_causes.specs.Causing.{IsCause, IsInReach};

use crate::carried::Carried;
use audit_model::Side;

/// How far apart the moments of an arrival and of its departure may be, in nanoseconds.
#[derive(Clone, Copy, Debug, PartialEq, Eq)]
pub struct Reach {
    /// The longest time from an arrival to its departure.
    pub hold: u64,
    /// Twice the greatest skew between two interfaces' clocks.
    pub slack: u64,
}

impl Reach {
    /// Whether a departure at one moment can be caused by an arrival at another.
    fn has(self, arrival: u64, departure: u64) -> bool
        ensures { IsTrue result ↔ IsInReach self arrival departure }
    {
        let (arrival, departure) = (u128::from(arrival), u128::from(departure));
        let slack = u128::from(self.slack);
        arrival <= departure + slack && departure <= arrival + u128::from(self.hold) + slack
    }
}

/// An excluded arrival or departure.
#[derive(Clone, Copy, Debug, PartialEq, Eq)]
pub struct Half {
    /// Nanoseconds since 1970.
    pub stamp: u64,
    pub side: Side,
    pub carried: Carried,
}

impl Half {
    /// Whether this is an arrival that can have caused that departure.
    pub(crate) fn can_cause(&self, departure: &Half, reach: Reach) -> bool
        ensures { IsTrue result ↔ IsCause reach self.now departure.now }
    {
        match (self.side, departure.side) {
            (Side::Arrives, Side::Leaves) => {
                reach.has(self.stamp, departure.stamp)
                    && self.carried.is_answered(&departure.carried)
            }
            _ => false,
        }
    }
}
