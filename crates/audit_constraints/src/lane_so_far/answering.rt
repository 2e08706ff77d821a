//! Constraints about which arrival a departure answers.

use super::{EACH, LaneSoFar};
use audit_search_input::AHEAD;
use audit_search_state::{Constraint, PoolRef};
use audit_seen::SeenNumber;
use std::alloc::AllocError;

impl LaneSoFar<'_> {
    /// Adds constraints by which an older unanswered arrival is answered by the match of the next
    /// arrival, so that the next arrival is free for this departure.
    pub(crate) fn require_older_answered(
        &self,
        departure: SeenNumber,
        pools: &[PoolRef],
        constraints: &mut Vec<Constraint>,
    ) -> Result<(), AllocError> {
        let mut older: Option<SeenNumber> = None;
        for (_, arrival) in self.near_of(departure, pools)? {
            let matched = self.input.matched_to(arrival);
            if let (Some(older), Some(matched)) = (older, matched) {
                let constraint = Constraint::Answers {
                    arrival: older,
                    departure: matched,
                };
                if matched != departure
                    && self.may_answer(matched, older)
                    && !constraints.contains(&constraint)
                {
                    constraints.push(constraint)?;
                }
            }
            let is_free = matched.is_none_or(|matched| matched == departure);
            older = if is_free { Some(arrival) } else { None };
        }
        Ok(())
    }

    /// The last arrivals of some pools before a departure, by rank.
    fn near_of(
        &self,
        departure: SeenNumber,
        pools: &[PoolRef],
    ) -> Result<Vec<(u32, SeenNumber)>, AllocError> {
        let rank = self.input.rank(departure);
        let mut found = Vec::new(self.input.alloc());
        for pool in pools {
            let all = self.input.views().arrivals(self.number, *pool);
            let behind = all.partition_point(|one| one.rank() < rank);
            for one in all.get(behind.saturating_sub(AHEAD)..behind).unwrap_or(&[]) {
                found.push((one.rank(), one.number()))?;
            }
        }
        found.sort_unstable();
        Ok(found)
    }

    /// Whether an arrival may be placed so late that the departure is within the hold after it,
    /// whatever arrival the departure answers now.
    fn may_answer(&self, departure: SeenNumber, arrival: SeenNumber) -> bool {
        let (Some(leaves), Some(arrives)) = (self.input.seen(departure), self.input.seen(arrival))
        else {
            return false;
        };
        let shift = self.input.constraints().shift(leaves.id().iface);
        arrives.last_moment().saturating_add(self.input.hold())
            >= leaves.first_moment().saturating_add(shift)
    }

    /// Adds constraints by which the last arrivals of a pool, too early for a departure, are placed
    /// later, if their windows permit.
    pub(crate) fn require_late_arrivals(
        &self,
        departure: SeenNumber,
        pool: PoolRef,
        constraints: &mut Vec<Constraint>,
    ) -> Result<(), AllocError> {
        let all = self.input.views().arrivals(self.number, pool);
        let rank = self.input.rank(departure);
        let moment = self.input.at(departure);
        let behind = all.partition_point(|one| one.rank() < rank);
        let near = all.get(behind.saturating_sub(EACH)..behind).unwrap_or(&[]);
        for one in near {
            let arrival = one.number();
            let constraint = Constraint::Answers { departure, arrival };
            let is_late = self.input.held_until(arrival) < moment;
            let may_stand = self.may_answer(departure, arrival) && !self.state.is_used(arrival);
            if is_late && may_stand && !constraints.contains(&constraint) {
                constraints.push(constraint)?;
            }
        }
        Ok(())
    }
}
