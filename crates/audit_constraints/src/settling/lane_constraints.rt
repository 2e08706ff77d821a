//! The constraints of one lane, of which one is tried in each round.

use crate::lane_fault::LaneFault;
use audit_search_state::{Constraint, Constraints};
use std::alloc::{AllocError, Global};
use std::hash::{DefaultHasher, Hash, Hasher};

/// A constraint that got its lane further, the others that were open then, and the lane's level.
#[derive(Drop)]
struct Kept {
    constraint: Constraint,
    open: Vec<Constraint>,
    level: u64,
}

/// The constraints of one lane.
#[derive(Drop)]
pub struct LaneConstraints {
    /// The constraints that are open, the next one last; `None` until they are computed.
    open: Option<Vec<Constraint>>,
    /// The least moment of the departure at which the lane failed when these were computed.
    level: u64,
    /// The constraint that the round tries.
    current: Option<Constraint>,
    kept: Vec<Kept>,
}

impl LaneConstraints {
    /// No constraints.
    pub fn none(alloc: Global) -> LaneConstraints {
        LaneConstraints {
            open: None,
            level: 0,
            current: None,
            kept: Vec::new(alloc),
        }
    }

    /// Sets the constraint that the round tries.
    pub fn set_current(&mut self, constraint: Constraint) {
        self.current = Some(constraint);
    }

    /// Takes the constraint that the round tried.
    pub fn take_current(&mut self) -> Option<Constraint> {
        self.current.take()
    }

    /// Keeps a constraint that got the lane further.
    pub fn keep(&mut self, alloc: Global, constraint: Constraint) -> Result<(), AllocError> {
        self.kept.push(Kept {
            constraint,
            open: self.open.take().unwrap_or(Vec::new(alloc)),
            level: self.level,
        })?;
        Ok(())
    }

    /// Opens the constraints that the failed lane needs, unless there are open ones.
    pub fn open(&mut self, alloc: Global, failed: &LaneFault) -> Result<(), AllocError> {
        if self.open.is_none() {
            let mut open = Vec::from_slice(alloc, failed.constraints())?;
            open.reverse();
            self.open = Some(open);
            self.level = failed.fault().low();
        }
        Ok(())
    }

    /// Whether a constraint got the lane no further, and can't together with another one.
    pub fn is_stuck(&self, constraint: Constraint, failed: &LaneFault) -> bool {
        failed.fault().low() <= self.level && !self.is_half(constraint, failed.constraints())
    }

    /// Whether a constraint that didn't get its lane further may do so together with a new one of
    /// its kind: a departure that got an older arrival left its own arrival to another departure.
    fn is_half(&self, constraint: Constraint, told: &[Constraint]) -> bool {
        let is_new = |other: &Constraint| {
            let is_open = self.open.as_ref().is_some_and(|open| open.contains(other));
            let is_kept = self.kept.iter().any(|kept| kept.constraint == *other);
            other.is_of_answers() && *other != constraint && !is_open && !is_kept
        };
        constraint.is_of_answers() && told.iter().any(is_new)
    }

    /// The next open constraint. If none is open, withdraws the last one that was kept, and
    /// continues with those that were open then.
    pub fn next(&mut self, round: &mut Constraints) -> Option<Constraint> {
        for _ in 0..=self.kept.len() {
            if let Some(constraint) = self.open.as_mut().and_then(|open| open.pop()) {
                return Some(constraint);
            }
            let kept = self.kept.pop()?;
            round.take_back(kept.constraint);
            self.open = Some(kept.open);
            self.level = kept.level;
        }
        None
    }

    /// A digest of the constraints that were kept.
    pub fn digest(&self) -> u64 {
        let mut hasher = DefaultHasher::new();
        for kept in &self.kept {
            kept.constraint.hash(&mut hasher);
        }
        hasher.finish()
    }
}
