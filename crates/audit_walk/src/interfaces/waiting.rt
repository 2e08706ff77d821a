//! Queues interfaces by their next sightings, and lets departures wait.

use super::Interfaces;
use super::rows::Wait;
use crate::clock::Clock;
use crate::judge::Judge;
use crate::numbers::ArrivalNumber;
use std::alloc::AllocError;

impl Interfaces {
    /// Takes out the interface that is queued at the least moment, with that moment, unless it is
    /// past the horizon.
    pub fn pop(&mut self, horizon: u64) -> Option<(u64, u32)> {
        self.heads.pop(horizon)
    }

    /// Queues an interface by the first moment of its next sighting, or now if that has waited.
    pub fn queue_next(
        &mut self,
        judge: &Judge<'_>,
        clock: &Clock,
        iface: u32,
    ) -> Result<(), AllocError> {
        let Some(row) = self.rows.get(iface as usize) else {
            return Ok(());
        };
        if row.is_queued() && !row.is_waiting() {
            return Ok(());
        }
        let Some((sight, _)) = row.next(iface) else {
            return Ok(());
        };
        let Some(sighting) = judge.sighting(sight) else {
            return Ok(());
        };
        self.queue(clock, iface, judge.first_moment(sighting))
    }

    /// Queues an interface that isn't queued, by the first moment of its next sighting.
    pub fn queue_unqueued(
        &mut self,
        judge: &Judge<'_>,
        clock: &Clock,
        iface: u32,
    ) -> Result<(), AllocError> {
        match self.rows.get(iface as usize) {
            Some(row) if !row.is_queued() => self.queue_next(judge, clock, iface),
            _ => Ok(()),
        }
    }

    /// Queues an interface at a moment, or now if that has passed.
    pub fn queue(&mut self, clock: &Clock, iface: u32, moment: u64) -> Result<(), AllocError> {
        let moment = moment.max(clock.moment());
        if let Some(row) = self.rows.get_mut(iface as usize) {
            row.queue_at(moment);
        }
        self.heads.push(moment, iface)
    }

    /// Whether an interface is queued at that moment, and wasn't queued at another one later.
    pub fn is_queued_at(&self, iface: u32, moment: u64) -> bool {
        match self.rows.get(iface as usize) {
            Some(row) => row.is_queued_at(moment),
            None => false,
        }
    }

    /// Lets the next departure of an interface wait, at most until its latest moment. If another
    /// departure waits for the same arrival, this one waits for the next sighting of any interface,
    /// which wakes it only in its first `WAITS` waits.
    pub fn wait(&mut self, clock: &Clock, iface: u32, wait: Wait) -> Result<(), AllocError> {
        let mut wait = wait;
        if let Wait::Arrival(number) = wait {
            if self.waiting.contains_key(&number) {
                wait = Wait::Next;
            } else {
                self.waiting.insert(number, iface)?;
            }
        }
        if let Some(row) = self.rows.get_mut(iface as usize) {
            if row.wait_for(wait, clock.latest()) {
                self.expecting.push(iface)?;
            }
        }
        match wait {
            Wait::Data(_) => self.begin_data_wait(iface)?,
            Wait::Arrival(_) | Wait::Next => self.hasten(clock)?,
        }
        self.queue(clock, iface, clock.latest())
    }

    /// Queues the interfaces whose next departures wait for an arrival.
    pub fn wake(&mut self, clock: &Clock, number: ArrivalNumber) -> Result<(), AllocError> {
        self.wake_for_data(clock, number)?;
        match self.waiting.remove(&number) {
            Some(iface) => self.wake_row(clock, iface, Wait::Arrival(number)),
            None => Ok(()),
        }
    }

    /// Queues the interfaces whose next departures wait for the next sighting of any interface.
    pub fn wake_expecting(&mut self, clock: &Clock) -> Result<(), AllocError> {
        if self.expecting.is_empty() {
            return Ok(());
        }
        let expecting = std::mem::replace(&mut self.expecting, Vec::new(self.alloc));
        for iface in expecting {
            self.wake_row(clock, iface, Wait::Next)?;
        }
        Ok(())
    }

    /// Queues an interface now, if its next departure waits for that.
    pub(super) fn wake_row(
        &mut self,
        clock: &Clock,
        iface: u32,
        wait: Wait,
    ) -> Result<(), AllocError> {
        match self.rows.get(iface as usize) {
            Some(row) if row.is_waiting_for(wait) => self.queue(clock, iface, 0),
            _ => Ok(()),
        }
    }
}
