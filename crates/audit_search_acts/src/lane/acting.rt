//! Acts of a lane, in the present table or in a table that ended.

use super::{Attempt, Lane};
use audit_model::Rule;
use audit_rules::LaneTable;
use audit_search_state::{Acted, End, Previous, Refused, Turn};
use audit_seen::{Content, Seen, SeenNumber, Slot};
use std::alloc::AllocError;

/// The effect of an act on the table.
#[derive(Clone, Copy, Debug, PartialEq, Eq)]
pub(crate) enum Does {
    Nothing,
    Changes,
    /// It makes an allocation, or ends one.
    Ends,
}

impl Lane<'_> {
    pub(crate) fn does(&self, table: &LaneTable, departure: &Seen, moment: u64) -> Does {
        match departure.content() {
            Some(Content::Allocated { .. }) if self.is_repeated(table, departure, moment) => {
                Does::Nothing
            }
            Some(Content::Allocated { .. } | Content::Deleted) => Does::Ends,
            Some(content) if content.is_change() => Does::Changes,
            _ => Does::Nothing,
        }
    }

    /// Acts on a departure at a slot, in the present table, or earlier if a constraint requires
    /// that; returns why it can't.
    pub fn act_now(
        &mut self,
        departure: SeenNumber,
        slot: Slot,
        moment: u64,
    ) -> Result<Option<Refused>, AllocError> {
        let Some(seen) = self.input.seen(departure) else {
            return Ok(Some(Refused::NoArrival));
        };
        if self.is_before_its_maker(departure) {
            return Ok(Some(Refused::Rule(Rule::NoAllocation)));
        }
        if self.input.constraints().is_at_request(departure)
            && self.act_early(departure, seen, slot)?
        {
            return Ok(None);
        }
        let empty = self.empty_table();
        let mut table = self.state.take_table(empty);
        let does = self.does(&table, seen, moment);
        if does == Does::Ends && slot < self.input.deadlines().not_before(departure) {
            self.state.put_table(table);
            return Ok(Some(Refused::Rule(Rule::AddressHeld)));
        }
        let before = self.kept(&table, does)?;
        let attempt = self.attempt(&mut table, departure, slot, moment)?;
        self.state.put_table(table);
        match attempt {
            Attempt::Refused(refused) => Ok(Some(refused)),
            Attempt::Accepted(arrival) => {
                self.accept(departure, arrival, slot, moment, does, before)?;
                Ok(None)
            }
        }
    }

    /// A copy of a table as it was before an act, which counts as steps. If there were too many
    /// steps, the table before an allocation's end isn't kept.
    pub(crate) fn kept(
        &mut self,
        table: &LaneTable,
        does: Does,
    ) -> Result<Option<LaneTable>, AllocError> {
        let is_kept = match does {
            Does::Nothing => false,
            Does::Changes => self.state.is_noting(),
            Does::Ends => self.state.is_noting() || self.steps < self.budget,
        };
        if !is_kept {
            return Ok(None);
        }
        self.steps = self
            .steps
            .saturating_add(self.state.progress().weight() / 16);
        Ok(Some(table.copied(self.input.alloc())?))
    }

    /// Records an accepted act in the present table.
    pub(crate) fn accept(
        &mut self,
        departure: SeenNumber,
        arrival: SeenNumber,
        slot: Slot,
        moment: u64,
        does: Does,
        before: Option<LaneTable>,
    ) -> Result<(), AllocError> {
        let mut progress = self.state.progress().with_act_at(slot, moment);
        let turn = progress.turn();
        match (does, before) {
            (Does::Nothing, _) => {}
            (Does::Changes, before) => {
                progress = progress.with_change(slot, moment, self.weight_of(arrival));
                self.state.changed_from(before)?;
            }
            (Does::Ends, Some(table))
                if table.running().is_some() || self.state.table().running().is_some() => {
                let end = End::new(slot, turn, moment, arrival);
                let previous = Previous::new(table, end, progress.changed());
                progress = progress.with_end(slot, moment);
                self.state.ended_from(previous)?;
            }
            (Does::Ends, _) => {}
        }
        self.state.set_progress(progress)?;
        let acted = Acted::new(slot, Turn::now(turn), arrival);
        self.state.act(departure, acted)
    }

    /// The approximate number of entries that a request adds to the table.
    fn weight_of(&self, arrival: SeenNumber) -> u64 {
        match self.input.sighting(arrival) {
            Some(sighting) => (sighting.payload.as_slice().len() / 12) as u64,
            None => 0,
        }
    }
}
