//! A walk that begins at what was carried over a cut.

use super::Search;
use crate::interfaces::Interfaces;
use crate::judge::Judge;
use crate::kinds::{Kind, kind_of};
use crate::lanes::Lanes;
use crate::numbers::ArrivalNumber;
use audit_cuts::{Came, Carried};
use audit_model::{Key, Sighting};
use audit_seen::LaneNumber;
use std::alloc::{AllocError, Global};

impl Search {
    /// A walk that begins at what was carried over a cut. The intake has the sightings from the
    /// bases of the interfaces on; those that are placed get no event. No event is before the
    /// cut's moment. It takes n log n time in what was carried.
    pub fn resume(
        alloc: Global,
        judge: &Judge<'_>,
        carried: &Carried,
    ) -> Result<Search, AllocError> {
        let mut search = Search::new(alloc);
        search.placed_to = carried.moment.checked_sub(1);
        search.clock.reach(carried.moment);
        search.interfaces = Interfaces::resume(alloc, &carried.interfaces)?;
        search.lanes = Lanes::resume(alloc, judge, &carried.clients)?;
        for came in &carried.owed {
            search.owed.insert(came.sight)?;
        }
        let mut waiting = Vec::from_slice(alloc, &carried.waiting)?;
        waiting.sort_unstable_by_key(|came| (came.moment, came.sight));
        for came in waiting {
            search.note_waiting(judge, came)?;
        }
        Ok(search)
    }

    /// Notes an arrival that waits, with its key, if the server may still act on it.
    fn note_waiting(&mut self, judge: &Judge<'_>, came: Came) -> Result<(), AllocError> {
        let until = judge.latest_answer(came.moment);
        let Some(sighting) = judge.sighting(came.sight) else {
            return Ok(());
        };
        if until < self.clock.moment() {
            return Ok(());
        }
        if let Kind::Arrival {
            lane,
            is_sent_on,
            asks,
        } = kind_of(judge, sighting)
        {
            let number = self.note_arrival(came.sight, lane, is_sent_on, asks)?;
            let key = Key {
                moment: came.moment,
                tie: self.clock.tick().tie,
            };
            // As for each arrival, the next key is for an act at it.
            let _spare = self.clock.tick();
            self.datagrams.place(number, key, until)?;
            // Its event is before the cut.
            let _key = self.datagrams.emit(number);
            self.waiting.push(number)?;
        }
        Ok(())
    }

    /// Acts on the arrivals from before the cut, as if they arrived now, once the first sightings
    /// after the cut are noted.
    pub(super) fn place_waiting(&mut self, judge: &Judge<'_>) -> Result<(), AllocError> {
        if self.waiting.is_empty() {
            return Ok(());
        }
        let waiting = std::mem::replace(&mut self.waiting, Vec::new(self.alloc));
        for number in waiting {
            self.place_waiting_arrival(judge, number)?;
        }
        Ok(())
    }

    fn place_waiting_arrival(
        &mut self,
        judge: &Judge<'_>,
        number: ArrivalNumber,
    ) -> Result<(), AllocError> {
        if !self
            .datagrams
            .may_act_at(judge, self.clock.moment(), number)
        {
            return Ok(());
        }
        match self.datagrams.arrives(judge, number) {
            Some(sighting) => self.place_with_lane(judge, number, sighting),
            None => Ok(()),
        }
    }

    /// The lane of a departure, if its act is before the cut: that of its ends.
    pub(super) fn lane_of_owed(
        &mut self,
        judge: &Judge<'_>,
        leaves: &Sighting,
    ) -> Option<LaneNumber> {
        if self.owed.remove(&leaves.id) {
            judge.lane_of(leaves.to, leaves.from)
        } else {
            None
        }
    }
}
