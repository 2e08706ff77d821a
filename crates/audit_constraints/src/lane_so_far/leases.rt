//! Constraints for acts at the moments of their requests, so that leases end as early as possible.

use super::{EACH, LaneSoFar};
use audit_model::Rule;
use audit_search_input::AHEAD;
use audit_search_state::{Constraint, Refused};
use audit_seen::{Content, SeenNumber};
use std::alloc::AllocError;

impl LaneSoFar<'_> {
    /// Adds constraints by which an address that another client had before is granted before the
    /// departure, or at its request, if the response leaves after the departure.
    pub(crate) fn require_early_grants(
        &self,
        departure: SeenNumber,
        constraints: &mut Vec<Constraint>,
    ) -> Result<(), AllocError> {
        for answer in self.pending_behind(departure)? {
            if self.input.deadlines().is_second(answer) {
                for constraint in [
                    Constraint::HandedOver { answer, departure },
                    Constraint::AtRequest { answer },
                ] {
                    if !constraints.contains(&constraint) {
                        constraints.push(constraint)?;
                    }
                }
            }
        }
        Ok(())
    }

    /// Adds a constraint by which a lease is renewed at its request, before the old lease expires.
    pub(crate) fn require_early_renewal(
        &self,
        departure: SeenNumber,
        constraints: &mut Vec<Constraint>,
    ) -> Result<(), AllocError> {
        if let Some(Content::Refreshed { .. } | Content::Bound | Content::Permitted) = self
            .input
            .content(departure)
        {
            constraints.push(Constraint::AtRequest { answer: departure })?;
        }
        Ok(())
    }

    /// Adds constraints by which the lane's leases were granted at their requests, the latest
    /// leases first, so that they may have expired.
    pub(crate) fn require_grants_at_requests(
        &self,
        departure: SeenNumber,
        constraints: &mut Vec<Constraint>,
    ) -> Result<(), AllocError> {
        let before = self.changes_before(departure);
        for is_of_allocation in [true, false] {
            let most = constraints.len().saturating_add(EACH.saturating_mul(2));
            for (_, answer) in before.iter().rev().take(AHEAD) {
                let content = self.input.content(*answer);
                let is_one = content.is_some_and(|content| is_lease(content, is_of_allocation));
                if is_one && self.state.is_acted(*answer) && constraints.len() < most {
                    let may_be_over = self.may_be_over(*answer, departure);
                    if may_be_over {
                        constraints.push(Constraint::OverBefore {
                            answer: *answer,
                            departure,
                        })?;
                    }
                    if may_be_over || !self.ends_before(*answer)?.is_empty() {
                        constraints.push(Constraint::AtRequest { answer: *answer })?;
                    }
                }
            }
        }
        Ok(())
    }

    /// Whether the lease of a response expires before a departure if it is granted at its request,
    /// but not if it is granted as the response leaves.
    fn may_be_over(&self, answer: SeenNumber, departure: SeenNumber) -> bool {
        let (Some(latest), Some(request)) = (
            self.input.latest_before(answer, departure),
            self.input.matched_to(answer),
        ) else {
            return false;
        };
        self.input.at(request) <= latest && latest < self.input.at(answer)
    }
}

/// Whether a response grants an allocation for a time, or else a lease within an allocation.
fn is_lease(content: Content, is_of_allocation: bool) -> bool {
    match content {
        Content::Allocated { .. } | Content::Refreshed { .. } => is_of_allocation,
        Content::Bound | Content::Permitted => !is_of_allocation,
        _ => false,
    }
}

/// Whether a rule requires an allocation.
pub(crate) fn is_of_lease(refused: Refused) -> bool {
    matches!(
        refused,
        Refused::Rule(Rule::NoAllocation | Rule::AllocationOver)
    )
}

/// Whether a rule is violated by something that is in the table, or in another lane's table.
pub(crate) fn is_of_what_is_there(refused: Refused) -> bool {
    matches!(
        refused,
        Refused::Rule(
            Rule::ErrorCondition
                | Rule::AllocationPresent
                | Rule::RelayedAddress
                | Rule::OtherUser
                | Rule::ChannelConflict
                | Rule::AddressHeld
        )
    )
}
