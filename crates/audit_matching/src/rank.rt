//! One order of all sightings.

use crate::edges::Edges;
use crate::merge::Merge;
use audit_known::Order;
use audit_seen::{SeenNumber, Sights};
use std::alloc::{AllocError, Global};

/// The interfaces, as they are merged into one order.
#[derive(Drop)]
struct RankPass<'a> {
    sights: &'a Sights,
    edges: &'a Edges,
    low: &'a [u64],
    at: &'a [u64],
    merge: Merge,
    placed: Vec<bool>,
    order: Order,
}

/// Orders the sightings by the moments at which they are placed. At one moment arrivals come first,
/// except after departures that precede them on their interface, and a departure comes after its
/// arrivals. It takes n log n.
pub fn ranked(
    alloc: Global,
    sights: &Sights,
    edges: &Edges,
    low: &[u64],
    at: &[u64],
) -> Result<Order, AllocError> {
    let count = sights.as_slice().len();
    let mut pass = RankPass {
        sights,
        edges,
        low,
        at,
        merge: Merge::new(alloc, sights.interfaces())?,
        placed: vec![in alloc; false; count]?,
        order: Order::new(alloc, count)?,
    };
    pass.start()?;
    for _ in 0..count.saturating_mul(2).saturating_add(1) {
        if !pass.step()? {
            break;
        }
    }
    Ok(pass.order)
}

impl RankPass<'_> {
    fn start(&mut self) -> Result<(), AllocError> {
        for iface in 0..self.sights.interfaces() {
            if let Ok(iface) = u32::try_from(iface) {
                self.queue(iface, true)?;
            }
        }
        Ok(())
    }

    /// Places a sighting, or ends the waiting of one; returns whether there was one.
    fn step(&mut self) -> Result<bool, AllocError> {
        if let Some(iface) = self.merge.pop() {
            self.place(iface)?;
            return Ok(true);
        }
        let Some(iface) = self.merge.release() else {
            return Ok(false);
        };
        self.queue(iface, false)?;
        Ok(true)
    }

    /// Places the next sighting of an interface.
    fn place(&mut self, iface: u32) -> Result<(), AllocError> {
        let Some(number) = self.merge.next(self.sights, iface) else {
            return Ok(());
        };
        if let Some(placed) = self.placed.get_mut(number.index()) {
            *placed = true;
        }
        self.order.push(number)?;
        self.merge.advance(iface);
        for _ in 0..self.sights.interfaces() {
            let Some(other) = self.merge.woken(number) else {
                break;
            };
            self.queue(other, true)?;
        }
        self.queue(iface, true)
    }

    /// Whether an arrival isn't placed and its moment is at most this one.
    fn has_to_wait(&self, arrival: SeenNumber, at: u64) -> bool {
        let is_placed = self.placed.get(arrival.index()).copied().unwrap_or(true);
        !is_placed && moment(self.at, arrival) <= at
    }

    /// Queues an interface by the moment of its next sighting, or parks it, if it may wait, until
    /// an arrival is placed that comes before that sighting.
    fn queue(&mut self, iface: u32, may_wait: bool) -> Result<(), AllocError> {
        let Some(number) = self.merge.next(self.sights, iface) else {
            return Ok(());
        };
        let arrives = self.sights.get(number).is_none_or(|seen| seen.arrives());
        let at = moment(self.at, number);
        if may_wait && !arrives {
            if let Some(matched) = self.edges.matches().of(number) {
                if self.has_to_wait(matched, at) {
                    return self.merge.park(iface, matched, (at, false, 0));
                }
            }
            for arrival in self.edges.required_of(number)? {
                if self.has_to_wait(arrival, at) {
                    return self.merge.park(iface, arrival, (at, false, 0));
                }
            }
        }
        let low = moment(self.low, number);
        self.merge.queue(iface, (at, !arrives, low))
    }
}

/// The moment of a sighting.
fn moment(moments: &[u64], number: SeenNumber) -> u64 {
    moments.get(number.index()).copied().unwrap_or(0)
}
