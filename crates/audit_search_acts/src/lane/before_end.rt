//! Acts of a lane in tables that ended.

use super::acting::Does;
use super::{Attempt, Lane};
use audit_model::Rule;
use audit_rules::LaneTable;
use audit_search_state::{Acted, End, Refused, Turn, relayed_of};
use audit_seen::{Content, Seen, SeenNumber, Slot};
use std::alloc::AllocError;

/// Why a response can't be sent before a table ended, whichever request it answers.
fn refused_before_end(content: Option<Content>, does: Does, is_usable: bool) -> Option<Refused> {
    match content {
        Some(Content::Deleted) if is_usable => Some(Refused::Rule(Rule::NoAllocation)),
        Some(Content::Allocated { .. }) if does == Does::Ends => {
            Some(Refused::Rule(Rule::AllocationPresent))
        }
        _ => None,
    }
}

impl Lane<'_> {
    /// Acts on a departure right before a table ended; returns why it can't.
    pub(crate) fn act_before_end(
        &mut self,
        departure: SeenNumber,
        which: usize,
    ) -> Result<Option<Refused>, AllocError> {
        let input = self.input;
        let (Some(seen), Some(end)) = (input.seen(departure), self.state.end_of(which)) else {
            return Ok(Some(Refused::NoArrival));
        };
        if self.is_behind_end(departure, which) {
            return Ok(Some(Refused::Rule(Rule::NoAllocation)));
        }
        let empty = self.empty_table();
        let Some(mut table) = self.state.swap_previous(which, empty) else {
            return Ok(Some(Refused::NoArrival));
        };
        let attempt = self.attempt_before_end(&mut table, departure, seen, end)?;
        let _empty = self.state.swap_previous(which, table);
        let (arrival, kept) = match attempt {
            Ok(found) => found,
            Err(refused) => return Ok(Some(refused)),
        };
        let progress = self.state.progress().with_act();
        self.state.set_progress(progress)?;
        if let Some(before) = kept {
            self.state.previous_changed_from(which, before)?;
        }
        let turn = Turn::before_end(end, progress.turn());
        let acted = Acted::new(end.slot(), turn, arrival);
        self.state.act(departure, acted)?;
        Ok(None)
    }

    /// Acts on a departure in a table that ended; returns the arrival, and the copy of the table
    /// before the act.
    fn attempt_before_end(
        &mut self,
        table: &mut LaneTable,
        departure: SeenNumber,
        seen: &Seen,
        end: End,
    ) -> Result<Result<(SeenNumber, Option<LaneTable>), Refused>, AllocError> {
        let (slot, moment) = (end.slot(), end.moment());
        let is_usable = table
            .running()
            .is_some_and(|tenancy| moment <= tenancy.last);
        let does = self.does(table, seen, moment);
        if let Some(refused) = refused_before_end(seen.content(), does, is_usable) {
            return Ok(Err(refused));
        }
        let kept = self.kept(table, does)?;
        match self.attempt(table, departure, slot, moment)? {
            Attempt::Accepted(arrival) if does == Does::Changes => Ok(Ok((arrival, kept))),
            Attempt::Accepted(arrival) => Ok(Ok((arrival, None))),
            Attempt::Refused(refused) => Ok(Err(refused)),
        }
    }

    /// Acts on a departure that changes nothing at its arrival, or right after the last change
    /// since then, in a table that ended after that; returns why it can't.
    pub(crate) fn act_at_arrival_before_end(
        &mut self,
        departure: SeenNumber,
        which: usize,
    ) -> Result<Option<Refused>, AllocError> {
        let input = self.input;
        let (Some(seen), Some(previous)) = (input.seen(departure), self.state.previous(which))
        else {
            return Ok(Some(Refused::NoArrival));
        };
        let (end, changed, relayed) = (
            previous.end().slot(),
            previous.changed(),
            relayed_of(previous.table()),
        );
        for pool in input.pools_of(self.number, seen, relayed)? {
            if let Some(arrival) = self.unused(departure, pool, end)?.first().copied() {
                let own = (Slot::after(input.rank(arrival)), input.at(arrival));
                let (slot, moment) = own.max(changed);
                if slot < end && self.judge_before_end(departure, arrival, which, slot, moment)? {
                    return Ok(None);
                }
            }
        }
        Ok(Some(Refused::NoArrival))
    }

    /// Acts on a departure that changes nothing in a table that ended; returns whether it could.
    fn judge_before_end(
        &mut self,
        departure: SeenNumber,
        arrival: SeenNumber,
        which: usize,
        slot: Slot,
        moment: u64,
    ) -> Result<bool, AllocError> {
        let empty = self.empty_table();
        let (Some(seen), Some(end)) = (self.input.seen(departure), self.state.end_of(which)) else {
            return Ok(false);
        };
        let Some(mut table) = self.state.swap_previous(which, empty) else {
            return Ok(false);
        };
        let does = self.does(&table, seen, moment);
        let is_right = does == Does::Nothing
            && self
                .judge(&mut table, arrival, departure, slot, moment)?
                .is_none();
        let _empty = self.state.swap_previous(which, table);
        if !is_right {
            return Ok(false);
        }
        let progress = self.state.progress().with_act();
        self.state.set_progress(progress)?;
        let turn = Turn::before_end(end, progress.turn());
        let acted = Acted::new(slot, turn, arrival);
        self.state.act(departure, acted)?;
        Ok(true)
    }
}
