//! Departures that wait for data: responses to deletions before which data may still be relayed.

use super::Interfaces;
use super::rows::{Role, Row, Wait};
use crate::clock::Clock;
use crate::numbers::ArrivalNumber;
use std::alloc::AllocError;

/// How many interfaces may wait for data at once.
pub const DATA_WAITING: u32 = 8;

impl Interfaces {
    /// Whether the next departure of an interface may wait for data, once more.
    pub fn may_wait_for_data(&self, iface: u32) -> bool {
        let has_room = self.for_data.len() < DATA_WAITING as usize;
        has_room && self.row(iface).is_some_and(|row| row.may_wait_for_data())
    }

    /// How many interfaces have sightings without a key.
    pub fn unplaced(&self) -> usize {
        let mut count: usize = 0;
        for row in &self.rows {
            if !row.is_placed() {
                count = count.saturating_add(1);
            }
        }
        count
    }

    /// The role of the sighting of an interface that comes `count` sightings after the next one.
    pub fn role_after(&self, iface: u32, count: usize) -> Option<Role> {
        self.row(iface)?.role_after(count)
    }

    /// The moment before the first one until which another interface waits, unless for data.
    pub fn others_wait_until(&self, iface: u32) -> u64 {
        let mut until = u64::MAX;
        for (other, row) in self.rows.iter().enumerate() {
            if other != iface as usize {
                if let Some(moment) = row.waits_until() {
                    until = until.min(moment.saturating_sub(1));
                }
            }
        }
        until
    }

    /// Notes that the next departure of an interface waits for data.
    pub(super) fn begin_data_wait(&mut self, iface: u32) -> Result<(), AllocError> {
        self.for_data.push(iface)?;
        Ok(())
    }

    /// Notes that the next departure of an interface doesn't wait for data any more.
    pub(super) fn end_data_wait(&mut self, iface: u32) {
        if !self.for_data.is_empty() {
            self.for_data.retain(|other| *other != iface);
        }
    }

    /// Lets the departures that wait for data wait as often again, since more is captured now.
    pub fn renew_data_waits(&mut self) {
        for place in 0..self.for_data.len() {
            if let Some(iface) = self.for_data.get(place).copied() {
                if let Some(row) = self.rows.get_mut(iface as usize) {
                    row.renew_waits();
                }
            }
        }
    }

    /// Queues the interfaces whose next departures wait for an arrival of data.
    pub(super) fn wake_for_data(
        &mut self,
        clock: &Clock,
        number: ArrivalNumber,
    ) -> Result<(), AllocError> {
        for place in 0..self.for_data.len() {
            if let Some(iface) = self.for_data.get(place).copied() {
                self.wake_row(clock, iface, Wait::Data(number))?;
            }
        }
        Ok(())
    }

    /// Has the departures that wait for data placed before the latest moment of the current one,
    /// which may depend on what comes after them on their interfaces.
    pub(super) fn hasten(&mut self, clock: &Clock) -> Result<(), AllocError> {
        let until = clock.latest().saturating_sub(1);
        for place in 0..self.for_data.len() {
            if let Some(iface) = self.for_data.get(place).copied() {
                let is_later = self
                    .row(iface)
                    .is_some_and(|row| row.is_queued_after(until));
                if is_later {
                    self.queue(clock, iface, until)?;
                }
            }
        }
        Ok(())
    }

    fn row(&self, iface: u32) -> Option<&Row> {
        self.rows.get(iface as usize)
    }
}
