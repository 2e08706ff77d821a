//! Runs the walk, stretch by stretch.

use super::Search;
use crate::ahead::{Ahead, Stretch};
use crate::judge::Judge;
use crate::kinds::Kind;
use crate::portion::Portion;
use audit_model::SightId;
use std::alloc::AllocError;

impl Search {
    /// Places the new sightings, and earlier ones that weren't placed, up to the horizon.
    pub(super) fn walk(
        &mut self,
        judge: &Judge<'_>,
        ahead: &mut Ahead,
        horizon: u64,
    ) -> Result<(), AllocError> {
        self.begin(judge)?;
        ahead.begin(judge)?;
        let (_, sightings) = judge.intake().counts();
        // Each stretch has at least one sighting.
        for _ in 0..sightings {
            let Some(stretch) = ahead.next(judge)? else {
                break;
            };
            self.go_through(judge, stretch, horizon)?;
        }
        self.go_on(judge, horizon)
    }

    /// Adds the clients, and queues each interface that has a sighting without a key.
    pub fn begin(&mut self, judge: &Judge<'_>) -> Result<(), AllocError> {
        self.lanes.add_all(judge.clients())?;
        self.interfaces.renew_data_waits();
        for iface in 0..judge.intake().interfaces() {
            self.interfaces.add(iface)?;
            self.interfaces.queue_next(judge, &self.clock, iface)?;
        }
        Ok(())
    }

    /// Returns the events of the next sightings, after `begin`. The keys of a lane don't always
    /// increase from one call to the next.
    pub fn place(&mut self, judge: &Judge<'_>, stretch: Stretch) -> Result<Portion, AllocError> {
        self.go_through(judge, stretch, u64::MAX)?;
        Ok(self.found.take_portion())
    }

    /// Returns the last events, once all sightings are noted.
    pub fn finish(&mut self, judge: &Judge<'_>) -> Result<Portion, AllocError> {
        self.go_on(judge, u64::MAX)?;
        self.decide(judge, u64::MAX)?;
        if !self.interfaces.are_placed() {
            self.found.mark_suspect();
        }
        Ok(self.found.take_portion())
    }

    /// Notes the sightings of a stretch, and places those up to the horizon that come early enough
    /// before the sightings after the stretch.
    fn go_through(
        &mut self,
        judge: &Judge<'_>,
        stretch: Stretch,
        horizon: u64,
    ) -> Result<(), AllocError> {
        let placed_until = stretch.until().saturating_sub(judge.look_ahead());
        for (_, row) in stretch.rows() {
            // Half of them may be arrivals, each with an act.
            self.found.reserve(row.len().saturating_mul(3) / 2)?;
        }
        for (iface, row) in stretch.into_rows() {
            self.note_row(judge, iface, row)?;
            self.interfaces.queue_unqueued(judge, &self.clock, iface)?;
        }
        self.place_waiting(judge)?;
        self.go_on(judge, horizon.min(placed_until))?;
        let moment = self.clock.moment();
        self.datagrams.tidy(moment, judge.earliest_arrival(moment))
    }

    /// Notes the kinds of the next sightings of an interface.
    fn note_row(
        &mut self,
        judge: &Judge<'_>,
        iface: u32,
        row: Vec<Kind>,
    ) -> Result<(), AllocError> {
        let noted = self.interfaces.noted(iface);
        for (index, kind) in (noted..).zip(row) {
            let sight = SightId { iface, index };
            if let Some(sighting) = judge.sighting(sight) {
                self.note(judge, sighting, kind)?;
            }
        }
        Ok(())
    }
}
