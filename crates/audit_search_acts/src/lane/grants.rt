//! Plans in which pending responses grant what a departure needs, before they leave.

use super::Lane;
use super::drawing::Draw;
use super::plans::Plan;
use audit_model::Rule;
use audit_search_state::Refused;
use audit_seen::{Content, SeenNumber};
use std::alloc::AllocError;

impl Lane<'_> {
    /// Adds the plan that pending responses are sent at their requests, and the departure at its
    /// arrival after them, before a lease expired.
    pub(crate) fn add_at_arrivals(
        &mut self,
        departure: SeenNumber,
        plans: &mut Vec<Plan>,
    ) -> Result<(), AllocError> {
        let mark = self.state.mark();
        let mut draw = Vec::new(self.input.alloc());
        let mut is_found = false;
        for answer in self.pending(departure, Refused::Rule(Rule::NoPermission))? {
            if !is_found && self.act_at_arrival(answer)?.is_none() {
                draw.push(answer)?;
                is_found = self.act_at_arrival(departure)?.is_none();
            }
        }
        self.state.undo(mark);
        if is_found {
            plans.push(Plan::BehindAtArrivals(draw))?;
        }
        Ok(())
    }

    /// Acts by such a plan; returns whether it could.
    pub(crate) fn follow_at_arrivals(
        &mut self,
        departure: SeenNumber,
        draw: &[SeenNumber],
    ) -> Result<bool, AllocError> {
        for answer in draw {
            if self.act_at_arrival(*answer)?.is_some() {
                return Ok(false);
            }
        }
        Ok(self.act_at_arrival(departure)?.is_none())
    }

    /// Adds the plan that pending responses are sent before a table ended, and the departure after
    /// them.
    pub(crate) fn add_grants_before_end(
        &mut self,
        departure: SeenNumber,
        which: usize,
        plans: &mut Vec<Plan>,
    ) -> Result<(), AllocError> {
        let mark = self.state.mark();
        let mut draw = Vec::new(self.input.alloc());
        let mut is_found = false;
        for answer in self.pending(departure, Refused::Rule(Rule::NoPermission))? {
            let is_grant = matches!(
                self.input.content(answer),
                Some(Content::Permitted | Content::Bound)
            );
            if is_grant && !is_found && self.act_before_end(answer, which)?.is_none() {
                draw.push(answer)?;
                is_found = self.act_before_end(departure, which)?.is_none();
            }
        }
        self.state.undo(mark);
        if is_found {
            plans.push(Plan::BehindBeforeEnd(draw, which))?;
        }
        Ok(())
    }

    /// Acts by such a plan; returns whether it could.
    pub(crate) fn follow_before_end(
        &mut self,
        departure: SeenNumber,
        draw: &[SeenNumber],
        which: usize,
    ) -> Result<bool, AllocError> {
        for answer in draw {
            if self.act_before_end(*answer, which)?.is_some() {
                return Ok(false);
            }
        }
        Ok(self.act_before_end(departure, which)?.is_none())
    }
}

/// Whether a rule requires a permission or a channel.
pub(crate) fn is_of_grants(refused: Refused) -> bool {
    matches!(refused, Refused::Rule(Rule::NoPermission | Rule::NoChannel))
}
