//! Allocations that must end by a deadline.

use super::Lane;
use audit_search_input::{AHEAD, Deadline};
use audit_search_state::relayed_of;
use audit_seen::Content;
use std::alloc::AllocError;

impl Lane<'_> {
    /// Ends an allocation by its deadline, if the response that deletes it is pending.
    pub fn meet(&mut self, deadline: Deadline) -> Result<(), AllocError> {
        let (slot, moment, maker) = (deadline.slot(), deadline.moment(), deadline.maker());
        if !self.state.is_acted(maker) && self.state.table().running().is_none() {
            let _refused = self.act_now(maker, slot, moment)?;
        }
        let Some(Content::Allocated { relayed, .. }) = self.input.content(maker) else {
            return Ok(());
        };
        let is_over = self
            .state
            .table()
            .running()
            .is_none_or(|tenancy| tenancy.last < moment);
        if is_over || relayed_of(self.state.table()) != Some(relayed) {
            return Ok(());
        }
        let rank = slot.rank();
        let behind = self.changes.partition_point(|change| change.0 < rank);
        for place in 0..AHEAD {
            let change = self.changes.get(behind.saturating_add(place)).copied();
            let Some((_, answer)) = change else {
                return Ok(());
            };
            let is_end = self.input.content(answer) == Some(Content::Deleted);
            if is_end && !self.state.is_acted(answer) {
                if self.act_now(answer, slot, moment)?.is_none() {
                    return Ok(());
                }
            }
        }
        Ok(())
    }
}
