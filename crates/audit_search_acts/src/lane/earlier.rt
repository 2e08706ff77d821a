//! Acts of a lane before its departures leave: at their arrivals, or before a table ended.

use super::Lane;
use super::acting::Does;
use audit_model::Rule;
use audit_rules::LaneTable;
use audit_search_state::{Acted, Refused, Turn, relayed_of};
use audit_seen::{Content, Seen, SeenNumber, Slot};
use std::alloc::AllocError;

impl Lane<'_> {
    /// Acts on a response that makes or keeps an allocation, or binds a channel, at its request, or
    /// right after the last act; returns whether it did.
    pub(crate) fn act_early(
        &mut self,
        departure: SeenNumber,
        seen: &Seen,
        before: Slot,
    ) -> Result<bool, AllocError> {
        let is_one = matches!(
            seen.content(),
            Some(
                Content::Allocated { .. }
                    | Content::Refreshed { .. }
                    | Content::Bound
                    | Content::Permitted
            )
        );
        let input = self.input;
        let is_asked = input.constraints().is_early_itself(departure);
        if !is_one
            || self.is_before_its_maker(departure)
            || (input.deadlines().is_second(departure) && !is_asked)
        {
            return Ok(false);
        }
        let Some(arrival) = self.oldest(departure, before)? else {
            return Ok(false);
        };
        let own = (
            Slot::after(self.input.rank(arrival)),
            self.input.at(arrival),
        );
        let late = match input.constraints().over_before(departure) {
            Some(by) => self.input.slot_before(departure, by),
            None => None,
        };
        let own = late.map_or(own, |late| own.max(late));
        let (slot, moment) = own.max(self.state.progress().last());
        if slot >= before || slot < input.deadlines().not_before(departure) {
            return Ok(false);
        }
        let does = self.does(self.state.table(), seen, moment);
        match self.judge_here(departure, arrival, slot, moment, does)? {
            Ok(kept) => {
                self.accept(departure, arrival, slot, moment, does, kept)?;
                Ok(true)
            }
            Err(_) => Ok(false),
        }
    }

    /// Acts, at their requests, on the responses that leave after a departure and that constraints
    /// require so early.
    pub fn act_on_asked(&mut self, departure: SeenNumber) -> Result<(), AllocError> {
        let input = self.input;
        if !input.constraints().has_early() {
            return Ok(());
        }
        let before = Slot::before(input.rank(departure));
        for answer in self.pending_behind(departure)? {
            if input.constraints().is_early_itself(answer) {
                if let Some(seen) = input.seen(answer) {
                    let _is_acted = self.act_early(answer, seen, before)?;
                }
            }
        }
        Ok(())
    }

    /// Judges an act in the lane's table, and changes the table by it; returns the copy of the
    /// table before it, or the rule that the act violates.
    fn judge_here(
        &mut self,
        departure: SeenNumber,
        arrival: SeenNumber,
        slot: Slot,
        moment: u64,
        does: Does,
    ) -> Result<Result<Option<LaneTable>, Refused>, AllocError> {
        let empty = self.empty_table();
        let mut table = self.state.take_table(empty);
        let kept = self.kept(&table, does)?;
        let refused = self.judge(&mut table, arrival, departure, slot, moment)?;
        self.state.put_table(table);
        match refused {
            Some(refused) => Ok(Err(refused)),
            None => Ok(Ok(kept)),
        }
    }

    /// Acts on a departure at its arrival, or right after the last act, when a lease hadn't
    /// expired; returns why it can't.
    pub(crate) fn act_at_arrival(
        &mut self,
        departure: SeenNumber,
    ) -> Result<Option<Refused>, AllocError> {
        let Some(seen) = self.input.seen(departure) else {
            return Ok(Some(Refused::NoArrival));
        };
        if self.is_before_its_maker(departure) {
            return Ok(Some(Refused::Rule(Rule::NoAllocation)));
        }
        let relayed = relayed_of(self.state.table());
        for pool in self.input.pools_of(self.number, seen, relayed)? {
            let before = Slot::before(self.input.rank(departure));
            if let Some(arrival) = self.unused(departure, pool, before)?.first().copied() {
                if self.act_at(departure, seen, arrival)? {
                    return Ok(None);
                }
            }
        }
        Ok(Some(Refused::NoArrival))
    }

    /// Acts on a departure right after an arrival; or, if the table changed since then, right after
    /// that change, and after the last act if it changes the table itself. Returns whether it did.
    fn act_at(
        &mut self,
        departure: SeenNumber,
        seen: &Seen,
        arrival: SeenNumber,
    ) -> Result<bool, AllocError> {
        let own = (
            Slot::after(self.input.rank(arrival)),
            self.input.at(arrival),
        );
        let does = self.does(self.state.table(), seen, own.1);
        let (changed, last) = (
            self.state.progress().changed(),
            self.state.progress().last(),
        );
        let (slot, moment) = if own.0 > changed.0 {
            own
        } else if does == Does::Nothing {
            own.max(changed)
        } else {
            own.max(last)
        };
        let is_late = slot >= Slot::before(self.input.rank(departure));
        if is_late || does == Does::Ends {
            return Ok(false);
        }
        let Ok(kept) = self.judge_here(departure, arrival, slot, moment, does)? else {
            return Ok(false);
        };
        let mut progress = self.state.progress().with_act_at(slot, moment);
        if does == Does::Changes {
            self.state.changed_from(kept)?;
            progress = progress.with_change(slot, moment, 0);
        }
        self.state.set_progress(progress)?;
        let acted = Acted::new(slot, Turn::now(progress.turn()), arrival);
        self.state.act(departure, acted)?;
        Ok(true)
    }
}
