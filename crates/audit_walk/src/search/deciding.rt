//! Decides arrivals for which nothing was sent.

use super::Search;
use crate::judge::Judge;
use crate::numbers::ArrivalNumber;
use audit_model::Event;
use std::alloc::AllocError;

impl Search {
    /// Emits the events of arrivals up to the horizon for which nothing was sent. At the end of all
    /// captures such arrivals are dropped. Before it, those of clients are events of their lanes,
    /// since the server may still act on them.
    pub(super) fn decide(&mut self, judge: &Judge<'_>, horizon: u64) -> Result<(), AllocError> {
        for _ in 0..self.datagrams.undecided() {
            let Some(number) = self.datagrams.take_undecided(horizon) else {
                break;
            };
            self.decide_arrival(judge, horizon == u64::MAX, number)?;
        }
        Ok(())
    }

    fn decide_arrival(
        &mut self,
        judge: &Judge<'_>,
        is_last: bool,
        number: ArrivalNumber,
    ) -> Result<(), AllocError> {
        let Some(arrival) = self.datagrams.arrival(number).copied() else {
            return Ok(());
        };
        let Some(key) = self.datagrams.emit(number) else {
            return Ok(());
        };
        let sight = arrival.sight();
        let lane = match arrival.lane() {
            Some(lane) => Some(lane),
            None => match judge.sighting(sight) {
                Some(sighting) => self.lanes.last_holder(sighting.to),
                None => None,
            },
        };
        match lane {
            Some(lane) if !is_last => self.found.push(lane, Event::In { sight, key }),
            _ => self.found.push_drop(sight, key),
        }
    }
}
