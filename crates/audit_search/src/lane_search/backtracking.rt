//! Backtracking to a choice, or to the farthest departure that no way passes.

use super::{Choice, Farthest, LaneSearch, STEPS};
use audit_constraints::LaneSoFar;
use audit_model::Rule;
use audit_search_acts::Lane;
use audit_search_input::AHEAD;
use audit_search_state::{Constraint, Fault, Refused};
use audit_seen::{Content, SeenNumber};
use std::alloc::AllocError;
use std::collections::BTreeMap;

/// How long a choice is kept, in multiples of the hold.
const REACH: u64 = 64;

/// The approximate number of steps and table entries that are kept for backtracking.
const TRAIL: u64 = 65_536;

/// The most constraints of a lane.
const CONSTRAINTS: usize = 64;

impl LaneSearch<'_> {
    /// Forgets the choices that were made long ago, and those followed by too many recorded steps.
    pub fn forget_old_choices(&mut self, departure: SeenNumber, budget: u64) {
        if self.lane.steps() >= budget {
            self.stack.clear();
        }
        let input = self.lane.input();
        let moment = input.at(departure);
        for _ in 0..self.stack.len() {
            let Some(choice) = self.stack.front().copied() else {
                break;
            };
            let made = match self.lane.departure(choice.place) {
                Some(other) => input.at(other),
                None => 0,
            };
            let until = made.saturating_add(input.hold().saturating_mul(REACH));
            if (until >= moment || choice.is_of_end) && self.lane.state().trail_weight() <= TRAIL {
                break;
            }
            let _forgotten = self.stack.pop_front();
            let mark = self.stack.front().map_or(usize::MAX, |next| next.mark);
            self.lane.state_mut().forget_before(mark);
        }
    }

    /// Records the constraints that may help the lane to act on a departure.
    pub fn record_constraints(
        &mut self,
        departure: SeenNumber,
        refused: Refused,
    ) -> Result<(), AllocError> {
        let is_new = self.asked.iter().all(|asked| asked.0 != departure);
        if is_new && self.asked.len() < AHEAD {
            let constraints = needed(&self.lane, departure, refused)?;
            self.asked.push((departure, constraints))?;
        }
        Ok(())
    }

    /// The constraints of the lane: for the departure where it came farthest, and then for the
    /// others.
    pub fn constraints(&self) -> Result<Vec<Constraint>, AllocError> {
        let mut constraints: Vec<Constraint> = Vec::new(self.lane.input().alloc());
        let Some(fault) = self.fault else {
            return Ok(constraints);
        };
        for is_fault in [true, false] {
            for (departure, asked) in &self.asked {
                if (*departure == fault.departure()) == is_fault {
                    for constraint in asked {
                        if constraints.len() < CONSTRAINTS && !constraints.contains(constraint) {
                            constraints.push(*constraint)?;
                        }
                    }
                }
            }
        }
        Ok(constraints)
    }

    /// Goes back to the newest choice, or takes the ways to the farthest departure again.
    pub fn backtrack(&mut self, departure: SeenNumber, budget: u64) -> Result<(), AllocError> {
        let was_noting = self.lane.state_mut().set_noting(true);
        let refused = self.lane.refused_now(departure)?;
        let _is_noting = self.lane.state_mut().set_noting(was_noting);
        let refused = refused.unwrap_or(Refused::NoArrival);
        self.record_constraints(departure, refused)?;
        let is_farther = self.far.as_ref().is_none_or(|far| self.place > far.place);
        if is_farther {
            self.note_farthest()?;
        }
        self.lane.add_step();
        let since = self.far.as_ref().map_or(0, |far| far.steps);
        let steps = self.lane.steps();
        let is_left = steps < budget && steps.saturating_sub(since) <= STEPS;
        match self.newest_choice(refused) {
            Some(choice) if is_left && self.is_near(choice, departure) => {
                self.lane.state_mut().undo(choice.mark);
                self.place = choice.place;
                self.passed = choice.passed;
                self.skip = choice.tried;
                self.forget_behind(choice.place);
                Ok(())
            }
            _ => {
                self.start_again();
                Ok(())
            }
        }
    }

    /// Records that this is the farthest departure, and the ways to it.
    fn note_farthest(&mut self) -> Result<(), AllocError> {
        let mut chosen = BTreeMap::new(self.lane.input().alloc());
        for (place, number) in &self.chosen {
            chosen.insert(*place, *number)?;
        }
        self.far = Some(Farthest {
            place: self.place,
            chosen,
            steps: self.lane.steps(),
        });
        Ok(())
    }

    /// Removes the newest choice that may avoid the refusal: if that is about the allocation, one
    /// that makes or ends an allocation.
    fn newest_choice(&mut self, refused: Refused) -> Option<Choice> {
        let is_of_allocation = is_of_allocation(refused);
        for _ in 0..self.stack.len() {
            let choice = self.stack.pop_back()?;
            if choice.is_of_end || !is_of_allocation {
                return Some(choice);
            }
        }
        None
    }

    /// Forgets which ways were taken from an index on.
    fn forget_behind(&mut self, place: usize) {
        self.chosen.retain(|other, _| *other < place);
    }

    /// Whether a choice may have led to a departure on which the lane can't act.
    fn is_near(&self, choice: Choice, departure: SeenNumber) -> bool {
        let input = self.lane.input();
        let Some(other) = self.lane.departure(choice.place) else {
            return false;
        };
        if matches!(
            input.content(other),
            Some(Content::Allocated { .. } | Content::Deleted)
        ) {
            return true;
        }
        input.held_until(other).saturating_add(input.hold()) >= input.at(departure)
    }

    /// Takes the ways to the farthest departure again.
    fn start_again(&mut self) {
        self.lane.start_again();
        self.place = 0;
        self.passed = 0;
        self.skip = 0;
        self.stack.clear();
        self.chosen.clear();
        self.is_replaying = true;
    }

    /// Records the departure on which the lane couldn't act, and acts on it nevertheless.
    pub fn blame(&mut self, departure: SeenNumber) -> Result<(), AllocError> {
        let refused = self.lane.act_likely(departure)?;
        self.record_constraints(departure, refused)?;
        let low = self.lane.input().low(departure);
        let is_hopeless = self.lane.is_hopeless(departure, refused);
        self.fault = Some(Fault::new(departure, refused, low, is_hopeless));
        Ok(())
    }
}

/// The constraints that may help a lane to act on a departure.
fn needed(
    lane: &Lane<'_>,
    departure: SeenNumber,
    refused: Refused,
) -> Result<Vec<Constraint>, AllocError> {
    let so_far = LaneSoFar::new(lane.input(), lane.number(), lane.changes(), lane.state());
    so_far.constraints(departure, refused)
}

/// Whether a rule requires an allocation, no allocation, or another one.
fn is_of_allocation(refused: Refused) -> bool {
    matches!(
        refused,
        Refused::Rule(
            Rule::NoAllocation
                | Rule::AllocationPresent
                | Rule::ErrorCondition
                | Rule::RelayedAddress
                | Rule::OtherUser
        )
    )
}
