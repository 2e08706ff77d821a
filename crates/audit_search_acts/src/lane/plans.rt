//! The ways to act on a departure.

use super::Lane;
use super::drawing::Draw;
use super::grants::is_of_grants;
use audit_model::Rule;
use audit_search_state::{Constraint, Refused};
use audit_seen::{Content, SeenNumber, Slot};
use std::alloc::AllocError;

/// How many tables that ended are looked at.
pub const PREVIOUS: usize = 16;

/// One way to act on a departure.
#[derive(Debug, Drop)]
pub enum Plan {
    /// Right before it leaves.
    Now,
    /// At its arrival.
    AtArrival,
    /// At its arrival, after pending responses at their requests.
    BehindAtArrivals(Draw),
    /// Right before a table ended.
    BeforeEnd(usize),
    /// At its arrival, in a table that ended later.
    AtArrivalBeforeEnd(usize),
    /// Right before a table ended, after pending responses.
    BehindBeforeEnd(Draw, usize),
    /// Right before it leaves, after pending responses.
    Behind(Draw),
}

impl Lane<'_> {
    /// Why a departure can't be acted on now, or `None`.
    pub fn refused_now(&mut self, departure: SeenNumber) -> Result<Option<Refused>, AllocError> {
        let mark = self.state.mark();
        let slot = Slot::before(self.input.rank(departure));
        let refused = self.act_now(departure, slot, self.input.at(departure))?;
        self.state.undo(mark);
        Ok(refused)
    }

    /// The ways to act on a departure, the best first.
    pub fn plans(&mut self, departure: SeenNumber, limit: u64) -> Result<Vec<Plan>, AllocError> {
        let mut plans = Vec::new(self.input.alloc());
        let content = self.input.content(departure).unwrap_or(Content::Other);
        let refused = self.refused_now(departure)?;
        let is_earlier = refused.is_none() && self.is_earlier(departure, content)?;
        if refused.is_none() && !is_earlier {
            plans.push(Plan::Now)?;
            if !content.is_change() {
                return Ok(plans);
            }
        }
        let draws_first = self.draws_first(departure, content, refused)?;
        if draws_first {
            self.add_draws(departure, refused, limit, &mut plans)?;
        }
        if refused.is_some_and(|refused| !content.is_change() || is_over(refused)) {
            let mark = self.state.mark();
            let is_late = self.act_at_arrival(departure)?.is_some();
            self.state.undo(mark);
            if !is_late {
                plans.push(Plan::AtArrival)?;
            } else if refused.is_some_and(is_over) {
                self.add_at_arrivals(departure, &mut plans)?;
            }
        }
        self.add_previous(departure, content, &mut plans)?;
        if refused.is_none() && is_earlier {
            plans.push(Plan::Now)?;
        }
        if !draws_first {
            self.add_draws(departure, refused, limit, &mut plans)?;
        }
        Ok(plans)
    }

    /// Adds the tables that ended in which the departure may be acted on, the last one first.
    fn add_previous(
        &mut self,
        departure: SeenNumber,
        content: Content,
        plans: &mut Vec<Plan>,
    ) -> Result<(), AllocError> {
        for which in self.recent()? {
            self.steps = self.steps.saturating_add(1);
            let mark = self.state.mark();
            let refused = self.act_before_end(departure, which)?;
            self.state.undo(mark);
            match refused {
                None => {
                    plans.push(Plan::BeforeEnd(which))?;
                    if !content.is_change() {
                        return Ok(());
                    }
                }
                Some(refused) if is_over(refused) => {
                    if self.act_at_arrival_before_end(departure, which)?.is_none() {
                        plans.push(Plan::AtArrivalBeforeEnd(which))?;
                    }
                    self.state.undo(mark);
                }
                Some(refused) if is_of_grants(refused) => {
                    self.add_grants_before_end(departure, which, plans)?;
                }
                Some(_) => {}
            }
        }
        Ok(())
    }

    /// The tables that ended no longer than the hold ago, at most `PREVIOUS`, the last one first.
    fn recent(&self) -> Result<Vec<usize>, AllocError> {
        let mut found = Vec::new(self.input.alloc());
        let count = self.state.ended();
        for which in count.saturating_sub(PREVIOUS)..count {
            if let Some(previous) = self.state.previous(which) {
                if previous.end().moment().saturating_add(self.input.hold()) >= self.clock {
                    found.push(which)?;
                }
            }
        }
        found.reverse();
        Ok(found)
    }

    fn add_draws(
        &mut self,
        departure: SeenNumber,
        refused: Option<Refused>,
        limit: u64,
        plans: &mut Vec<Plan>,
    ) -> Result<(), AllocError> {
        let refused = refused.unwrap_or(Refused::Rule(Rule::ErrorCondition));
        for draw in self.draws(departure, refused, limit)? {
            plans.push(Plan::Behind(draw))?;
        }
        Ok(())
    }

    /// Whether a response that makes or ends an allocation more likely answers a request before the
    /// one that ended the last table.
    pub(crate) fn is_earlier(
        &mut self,
        departure: SeenNumber,
        content: Content,
    ) -> Result<bool, AllocError> {
        let earlier = Constraint::Earlier { answer: departure };
        if self.input.constraints().contains(earlier) {
            return Ok(true);
        }
        if !matches!(content, Content::Allocated { .. } | Content::Deleted) {
            return Ok(false);
        }
        let Some(pool) = self.input.response_ref(departure) else {
            return Ok(false);
        };
        let (Some(which), slot) = (
            self.recent()?.first().copied(),
            Slot::before(self.input.rank(departure)),
        ) else {
            return Ok(false);
        };
        let newest = self.unused(departure, pool, slot)?.last().copied();
        let input = self.input;
        let (Some(newest), Some(last)) = (newest, self.state.previous(which)) else {
            return Ok(false);
        };
        let (end, by) = (last.end().slot(), last.end().arrival());
        // If a constraint makes an allocation early, its end is early, too.
        let is_asked = match input.matched_to(by) {
            Some(answer) => input.constraints().is_early_itself(answer),
            None => false,
        };
        if is_asked && content == Content::Deleted {
            return Ok(false);
        }
        let rank = input.rank(newest);
        Ok(Slot::after(rank) < end && rank < input.rank(by))
    }

    /// Whether the requests of pending responses come before the request of a refused response.
    fn draws_first(
        &mut self,
        departure: SeenNumber,
        content: Content,
        refused: Option<Refused>,
    ) -> Result<bool, AllocError> {
        let is_one = matches!(
            content,
            Content::Permitted | Content::Bound | Content::Refreshed { .. }
        );
        let slot = Slot::before(self.input.rank(departure));
        let (true, Some(refused)) = (is_one, refused) else {
            return Ok(false);
        };
        let Some(own) = self.oldest(departure, slot)? else {
            return Ok(false);
        };
        for answer in self.pending(departure, refused)? {
            if let Some(request) = self.oldest(answer, slot)? {
                if self.input.rank(request) < self.input.rank(own) {
                    return Ok(true);
                }
            }
        }
        Ok(false)
    }
}

/// Whether the refusal is an expired lease.
fn is_over(refused: Refused) -> bool {
    matches!(
        refused,
        Refused::Rule(Rule::AllocationOver | Rule::PermissionOver | Rule::ChannelOver)
    )
}
