//! The constraints that a lane needs to act on a departure.

use super::leases::{is_of_lease, is_of_what_is_there};
use super::within::is_of_what_was_granted;
use super::{EACH, LaneSoFar};
use audit_model::Rule;
use audit_search_input::{AHEAD, helps};
use audit_search_state::{Constraint, PoolRef, Refused};
use audit_seen::{Content, SeenNumber};
use std::alloc::AllocError;

impl LaneSoFar<'_> {
    /// The constraints under which the lane may act on a departure, the likeliest first: arrivals
    /// placed before it, its own or those of responses that may help; or that it is another lane's.
    pub fn constraints(
        &self,
        departure: SeenNumber,
        refused: Refused,
    ) -> Result<Vec<Constraint>, AllocError> {
        let mut constraints = Vec::new(self.input.alloc());
        if refused == Refused::Rule(Rule::ChannelConflict) {
            self.require_earlier_bindings(departure, &mut constraints)?;
        }
        if is_of_what_was_granted(refused) {
            self.require_grants_within(departure, &mut constraints)?;
        }
        if is_of_what_is_there(refused) {
            self.require_grants_at_requests(departure, &mut constraints)?;
        }
        if is_of_lease(refused) {
            self.require_early_renewal(departure, &mut constraints)?;
        }
        self.require_early_grants(departure, &mut constraints)?;
        self.require_before_deletions(departure, &mut constraints)?;
        if is_of_table(refused) {
            self.require_changes(departure, refused, &mut constraints)?;
            self.require_own_arrivals(departure, &mut constraints)?;
        } else {
            self.require_own_arrivals(departure, &mut constraints)?;
            self.require_changes(departure, refused, &mut constraints)?;
        }
        if is_of_table(refused) {
            self.require_earlier_bindings(departure, &mut constraints)?;
        }
        if self.has_other_holders(departure)? {
            let place = constraints.len().min(EACH);
            let constraint = Constraint::NotHere {
                sighting: departure,
                lane: self.number,
            };
            constraints.insert(place, constraint)?;
        }
        Ok(constraints)
    }

    /// Adds constraints for arrivals that the departure may answer.
    fn require_own_arrivals(
        &self,
        departure: SeenNumber,
        constraints: &mut Vec<Constraint>,
    ) -> Result<(), AllocError> {
        let pools = self.any_pools(departure)?;
        for pool in &pools {
            self.require_late_arrivals(departure, *pool, constraints)?;
            self.require_arrivals_before(departure, *pool, EACH, constraints)?;
        }
        self.require_older_answered(departure, &pools, constraints)
    }

    /// Adds constraints for the requests of responses that may help.
    fn require_changes(
        &self,
        departure: SeenNumber,
        refused: Refused,
        constraints: &mut Vec<Constraint>,
    ) -> Result<(), AllocError> {
        let reasons = [
            refused,
            Refused::Rule(Rule::NoPermission),
            Refused::Rule(Rule::NoAllocation),
            Refused::Rule(Rule::ErrorCondition),
        ];
        for reason in reasons {
            self.require_changes_for(departure, reason, constraints)?;
        }
        Ok(())
    }

    fn require_changes_for(
        &self,
        departure: SeenNumber,
        reason: Refused,
        constraints: &mut Vec<Constraint>,
    ) -> Result<(), AllocError> {
        let rank = self.input.rank(departure);
        let hi = self
            .input
            .seen(departure)
            .map_or(0, |seen| seen.last_moment());
        let until = hi.saturating_add(self.input.hold());
        let behind = self.changes.partition_point(|change| change.0 <= rank);
        let near = self
            .changes
            .get(behind.saturating_sub(AHEAD)..)
            .unwrap_or(&[]);
        for (_, answer) in near.iter().take(AHEAD.saturating_mul(3)) {
            let may_help = self
                .input
                .content(*answer)
                .is_some_and(|content| helps(reason, content));
            if may_help && !self.state.is_acted(*answer) && self.input.low(*answer) <= until {
                if let Some(pool) = self.input.response_ref(*answer) {
                    self.require_arrivals_before(departure, pool, 1, constraints)?;
                }
            }
        }
        Ok(())
    }

    /// Adds constraints for the first arrivals of a pool that are placed after a departure and
    /// might be placed before it.
    pub(crate) fn require_arrivals_before(
        &self,
        departure: SeenNumber,
        pool: PoolRef,
        count: usize,
        constraints: &mut Vec<Constraint>,
    ) -> Result<(), AllocError> {
        let all = self.input.views().arrivals(self.number, pool);
        let rank = self.input.rank(departure);
        let hi = self
            .input
            .seen(departure)
            .map_or(0, |seen| seen.last_moment());
        let behind = all.partition_point(|one| one.rank() < rank);
        for one in all.get(behind..).unwrap_or(&[]).iter().take(count) {
            let arrival = one.number();
            let constraint = Constraint::Before { arrival, departure };
            let may_stand = self.input.low(arrival) <= hi && !self.state.is_used(arrival);
            if may_stand && !constraints.contains(&constraint) {
                constraints.push(constraint)?;
            }
        }
        Ok(())
    }

    /// Whether a departure leaves from a relayed address that another lane had.
    fn has_other_holders(&self, departure: SeenNumber) -> Result<bool, AllocError> {
        let input = self.input;
        let Some(Content::Relayed { relayed, .. }) = input.content(departure) else {
            return Ok(false);
        };
        let tenancies = input.known().tenancies();
        let lane = self.number;
        let of = tenancies.of_address(relayed);
        Ok(of.iter().any(|tenancy| tenancy.lane() != lane))
    }
}

/// Whether a rule requires an entry of the table.
fn is_of_table(refused: Refused) -> bool {
    matches!(
        refused,
        Refused::Rule(
            Rule::NoAllocation
                | Rule::AllocationOver
                | Rule::NoPermission
                | Rule::PermissionOver
                | Rule::NoChannel
                | Rule::ChannelOver
                | Rule::PeerDiffers
        )
    )
}
