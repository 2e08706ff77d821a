//! The constraints of a round, in addition to the captures.

ghost use Rattle.std.specs.Prelude.{◌≡◌};

use crate::constraint::Constraint;
use audit_seen::{LaneNumber, SeenNumber};
use std::alloc::{AllocError, Global};
use std::collections::{BTreeSet, btree_set};

/// The constraints and the options of a round. Each call takes the logarithm of their number.
#[derive(Drop)]
pub struct Constraints {
    all: BTreeSet<Constraint>,
    /// Whether acts that make or keep an allocation are at their requests.
    is_early: bool,
    /// How far after the starts of their windows the sightings of each interface are.
    shifts: Vec<u64>,
}

impl Constraints {
    /// No constraints. `shifts` has how far after the starts of their windows the sightings of each
    /// interface are.
    pub fn none(alloc: Global, shifts: Vec<u64>) -> Constraints {
        Constraints {
            all: BTreeSet::new(alloc),
            is_early: false,
            shifts,
        }
    }

    /// How far after the starts of their windows the sightings of each interface are, in
    /// nanoseconds.
    pub fn shifts(&self) -> &[u64] {
        self.shifts.as_slice()
    }

    /// Sets whether acts that make or keep an allocation are at their requests.
    pub fn set_early(&mut self, is_early: bool)
        ensures { self.new.is_early ≡ is_early }
    {
        self.is_early = is_early;
    }

    /// Withdraws all constraints.
    pub fn clear(&mut self) {
        self.all.clear();
    }

    /// Adds a constraint.
    pub fn add(&mut self, constraint: Constraint) -> Result<(), AllocError> {
        self.all.insert(constraint)?;
        Ok(())
    }

    /// Withdraws a constraint.
    pub fn take_back(&mut self, constraint: Constraint) {
        self.all.remove(&constraint);
    }

    /// All constraints, in the order of kinds.
    pub fn iter(&self) -> btree_set::Iter<'_, Constraint> {
        self.all.iter()
    }

    /// Whether a constraint is there.
    pub fn contains(&self, constraint: Constraint) -> bool {
        self.all.contains(&constraint)
    }

    /// Sightings of relayed addresses, and lanes to which they don't belong.
    pub fn banned(&self, alloc: Global) -> Result<BTreeSet<(SeenNumber, LaneNumber)>, AllocError> {
        let mut banned = BTreeSet::new(alloc);
        for constraint in &self.all {
            if let Constraint::NotHere { sighting, lane } = constraint {
                banned.insert((*sighting, *lane))?;
            }
        }
        Ok(banned)
    }

    /// The first constraint from this one on.
    fn first_from(&self, constraint: Constraint) -> Option<Constraint> {
        self.all.range(constraint..).next().copied()
    }

    /// The departure before which a response is to be sent, the first one by its number.
    pub fn handed_over_before(&self, answer: SeenNumber) -> Option<SeenNumber> {
        let least = SeenNumber::new(0);
        match self.first_from(Constraint::HandedOver {
            answer,
            departure: least,
        }) {
            Some(
                Constraint::HandedOver {
                    answer: other,
                    departure,
                },
            ) if other == answer => Some(departure),
            _ => None,
        }
    }

    /// The response by which another lane's allocation begins, before which the allocation of this
    /// response is to end; the first one by its number.
    pub fn next_of(&self, maker: SeenNumber) -> Option<SeenNumber> {
        let least = SeenNumber::new(0);
        match self.first_from(Constraint::Precedes { maker, next: least }) {
            Some(Constraint::Precedes { maker: other, next }) if other == maker => Some(next),
            _ => None,
        }
    }

    /// The response that granted the allocation in which a response is to be sent, the first one by
    /// its number.
    pub fn maker_of(&self, answer: SeenNumber) -> Option<SeenNumber> {
        let least = SeenNumber::new(0);
        match self.first_from(Constraint::Within {
            answer,
            maker: least,
        }) {
            Some(
                Constraint::Within {
                    answer: other,
                    maker,
                },
            ) if other == answer => Some(maker),
            _ => None,
        }
    }

    /// The departure before which the lease of a response is to expire, the first one by its
    /// number.
    pub fn over_before(&self, answer: SeenNumber) -> Option<SeenNumber> {
        let least = SeenNumber::new(0);
        match self.first_from(Constraint::OverBefore {
            answer,
            departure: least,
        }) {
            Some(
                Constraint::OverBefore {
                    answer: other,
                    departure,
                },
            ) if other == answer => Some(departure),
            _ => None,
        }
    }

    /// Whether a constraint on this response places its act before the response leaves.
    pub fn is_early_itself(&self, answer: SeenNumber) -> bool {
        self.contains(Constraint::AtRequest { answer })
            || self.next_of(answer).is_some()
            || self.over_before(answer).is_some()
    }

    /// Whether there are such responses.
    pub fn has_early(&self) -> bool {
        let first = self.first_from(Constraint::AtRequest {
            answer: SeenNumber::new(0),
        });
        first.is_some_and(|constraint| constraint.is_of_early_act())
    }

    /// Whether the act of a response is to be at its request, not where the response leaves.
    pub fn is_at_request(&self, answer: SeenNumber) -> bool {
        self.is_early || self.is_early_itself(answer)
    }

    /// How far after the starts of their windows the sightings of an interface are, in nanoseconds.
    pub fn shift(&self, iface: u32) -> u64 {
        self.shifts.get(iface as usize).copied().unwrap_or(0)
    }

    /// Sets how far after the starts of their windows the sightings of an interface are.
    pub fn set_shift(&mut self, iface: u32, shift: u64) {
        if let Some(place) = self.shifts.get_mut(iface as usize) {
            *place = shift;
        }
    }
}
