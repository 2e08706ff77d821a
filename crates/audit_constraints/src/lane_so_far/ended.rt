//! Constraints about allocations that were ended shortly before departures.

use super::LaneSoFar;
use audit_search_input::AHEAD;
use audit_search_state::Constraint;
use audit_seen::{Content, SeenNumber};
use std::alloc::AllocError;

impl LaneSoFar<'_> {
    /// The responses that delete allocations and leave before a departure, within the hold, the
    /// last one first.
    pub(crate) fn ends_before(&self, departure: SeenNumber) -> Result<Vec<SeenNumber>, AllocError> {
        let moment = self.input.at(departure);
        let mut found = Vec::new(self.input.alloc());
        for (_, answer) in self.changes_before(departure).iter().rev().take(AHEAD) {
            let is_end = self.input.content(*answer) == Some(Content::Deleted);
            if is_end && self.input.held_until(*answer) >= moment {
                found.push(*answer)?;
            }
        }
        Ok(found)
    }

    /// Adds constraints by which the arrivals that a departure may answer are placed before the
    /// responses that deleted allocations before it.
    pub(crate) fn require_before_deletions(
        &self,
        departure: SeenNumber,
        constraints: &mut Vec<Constraint>,
    ) -> Result<(), AllocError> {
        for answer in self.ends_before(departure)? {
            for pool in self.any_pools(departure)? {
                self.require_arrivals_before(answer, pool, 1, constraints)?;
            }
        }
        Ok(())
    }

    /// Adds constraints by which channels that were bound before a departure belong to allocations
    /// that were deleted before the ChannelBind responses left.
    pub(crate) fn require_earlier_bindings(
        &self,
        departure: SeenNumber,
        constraints: &mut Vec<Constraint>,
    ) -> Result<(), AllocError> {
        for (_, answer) in self.changes_before(departure).iter().rev().take(AHEAD) {
            let is_bound = self.input.content(*answer) == Some(Content::Bound);
            let constraint = Constraint::Earlier { answer: *answer };
            if is_bound
                && !constraints.contains(&constraint)
                && !self.ends_before(*answer)?.is_empty()
            {
                constraints.push(constraint)?;
            }
        }
        Ok(())
    }
}
