//! Acting on a departure by a plan.

use super::Lane;
use super::plans::Plan;
use audit_seen::{SeenNumber, Slot};
use std::alloc::AllocError;

impl Lane<'_> {
    /// Acts by a plan; returns whether it could.
    pub fn follow(&mut self, departure: SeenNumber, plan: &Plan) -> Result<bool, AllocError> {
        match plan {
            Plan::Now => self.follow_draw(departure, &[]),
            Plan::Behind(draw) => self.follow_draw(departure, draw),
            Plan::AtArrival => Ok(self.act_at_arrival(departure)?.is_none()),
            Plan::BehindAtArrivals(draw) => self.follow_at_arrivals(departure, draw),
            Plan::BeforeEnd(which) => Ok(self.act_before_end(departure, *which)?.is_none()),
            Plan::AtArrivalBeforeEnd(which) => {
                Ok(self.act_at_arrival_before_end(departure, *which)?.is_none())
            }
            Plan::BehindBeforeEnd(draw, which) => self.follow_before_end(departure, draw, *which),
        }
    }

    fn follow_draw(
        &mut self,
        departure: SeenNumber,
        draw: &[SeenNumber],
    ) -> Result<bool, AllocError> {
        let slot = Slot::before(self.input.rank(departure));
        let moment = self.input.at(departure);
        for answer in draw {
            if self.act_now(*answer, slot, moment)?.is_some() {
                return Ok(false);
            }
        }
        Ok(self.act_now(departure, slot, moment)?.is_none())
    }
}
