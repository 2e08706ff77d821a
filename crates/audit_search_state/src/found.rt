//! The result of a lane's search.

ghost use Rattle.std.specs.Prelude.{◌≡◌};

use crate::acted::Acted;
use crate::constraint::Constraint;
use crate::refused::Refused;
use audit_seen::SeenNumber;

/// A departure on which a lane can't act, and why.
#[derive(Clone, Copy, Debug)]
pub struct Fault {
    departure: SeenNumber,
    refused: Refused,
    low: u64,
    is_hopeless: bool,
}

impl Fault {
    /// A departure that is refused, with its least moment, and whether no order helps.
    pub fn new(departure: SeenNumber, refused: Refused, low: u64, is_hopeless: bool) -> Fault {
        Fault {
            departure,
            refused,
            low,
            is_hopeless,
        }
    }

    /// The departure.
    pub fn departure(&self) -> SeenNumber
        ensures { result ≡ self.now.departure }
    {
        self.departure
    }

    /// Why it is refused.
    pub fn refused(&self) -> Refused
        ensures { result ≡ self.now.refused }
    {
        self.refused
    }

    /// The least moment of the departure, in nanoseconds since 1970.
    pub fn low(&self) -> u64
        ensures { result ≡ self.now.low }
    {
        self.low
    }

    /// Whether no order helps.
    pub fn is_hopeless(&self) -> bool
        ensures { result ≡ self.now.is_hopeless }
    {
        self.is_hopeless
    }
}

/// The result of a lane's search: the act for each departure, and the first departure on which the
/// lane couldn't act in any order that was tried.
#[derive(Drop)]
pub struct Found {
    acts: Vec<(SeenNumber, Acted)>,
    fault: Option<Fault>,
    constraints: Vec<Constraint>,
}

impl Found {
    /// The acts of departures, the first departure that the lane couldn't act on, and the
    /// constraints that may help, the likeliest first.
    pub fn new(
        acts: Vec<(SeenNumber, Acted)>,
        fault: Option<Fault>,
        constraints: Vec<Constraint>,
    ) -> Found {
        Found {
            acts,
            fault,
            constraints,
        }
    }

    /// Departures, and their acts.
    pub fn acts(&self) -> &[(SeenNumber, Acted)] {
        self.acts.as_slice()
    }

    /// The first departure that the lane couldn't act on.
    pub fn fault(&self) -> Option<Fault>
        ensures { result ≡ self.now.fault }
    {
        self.fault
    }

    /// The constraints that may help the lane, the likeliest first.
    pub fn into_constraints(self) -> Vec<Constraint> {
        self.constraints
    }
}
