//! The least moment of each sighting.

use crate::edges::Edges;
use crate::merge::Merge;
use audit_seen::{Seen, SeenNumber, Sights};
use std::alloc::{AllocError, Global};

/// How often arrivals are raised for their departures.
const TURNS: u32 = 3;

/// The computation of the least moments under the windows, the order of each interface, and the
/// edges.
#[derive(Drop)]
struct LowPass<'a> {
    sights: &'a Sights,
    edges: &'a mut Edges,
    /// How far after the start of its window the sightings of each interface are.
    shifts: &'a [u64],
    /// The moments before which arrivals may not be, because their departures are so late.
    raised: &'a [u64],
    merge: Merge,
    low: Vec<u64>,
    placed: Vec<bool>,
}

/// The least moment of each sighting. It is in its window, not before the previous sighting on its
/// interface, not before an arrival that must come before it, and no longer than the hold after its
/// match, if all of that is possible. Edges in a circle are dropped. `shifts` has, by interface,
/// how far after the starts of their windows all sightings are. It takes n log n.
pub fn lows(
    alloc: Global,
    sights: &Sights,
    edges: &mut Edges,
    shifts: &[u64],
    hold: u64,
) -> Result<Vec<u64>, AllocError> {
    let count = sights.as_slice().len();
    let mut raised: Vec<u64> = vec![in alloc; 0; count]?;
    let mut low: Vec<u64> = Vec::new(alloc);
    for _ in 0..TURNS {
        low = least(alloc, sights, edges, shifts, &raised)?;
        if !raise(sights, edges, &low, hold, &mut raised) {
            return Ok(low);
        }
    }
    Ok(low)
}

fn least(
    alloc: Global,
    sights: &Sights,
    edges: &mut Edges,
    shifts: &[u64],
    raised: &[u64],
) -> Result<Vec<u64>, AllocError> {
    let count = sights.as_slice().len();
    let turns = count
        .saturating_mul(2)
        .saturating_add(edges.required())
        .saturating_add(sights.interfaces());
    let mut pass = LowPass {
        sights,
        edges,
        shifts,
        raised,
        merge: Merge::new(alloc, sights.interfaces())?,
        low: vec![in alloc; 0; count]?,
        placed: vec![in alloc; false; count]?,
    };
    pass.start()?;
    for _ in 0..turns {
        if !pass.step()? {
            break;
        }
    }
    Ok(pass.low)
}

/// Raises arrivals to the least moments at which their departures are within the hold, and returns
/// whether there are any.
fn raise(sights: &Sights, edges: &Edges, low: &[u64], hold: u64, raised: &mut [u64]) -> bool {
    let mut is_any = false;
    for (departure, (matched, moment)) in sights
        .as_slice()
        .iter()
        .zip(edges.matches().as_slice().iter().zip(low))
    {
        if let (false, Some(matched)) = (departure.arrives(), matched) {
            let need = moment.saturating_sub(hold);
            let has = low.get(matched.index()).copied().unwrap_or(0);
            let hi = sights.get(*matched).map_or(0, |seen| seen.last_moment());
            if need > has && need <= hi {
                if let Some(place) = raised.get_mut(matched.index()) {
                    *place = need;
                    is_any = true;
                }
            }
        }
    }
    is_any
}

impl LowPass<'_> {
    fn start(&mut self) -> Result<(), AllocError> {
        for iface in 0..self.sights.interfaces() {
            if let Ok(iface) = u32::try_from(iface) {
                self.queue(iface)?;
            }
        }
        Ok(())
    }

    /// Places a sighting, or drops an edge; returns whether there was one.
    fn step(&mut self) -> Result<bool, AllocError> {
        if let Some(iface) = self.merge.pop() {
            self.place(iface)?;
            return Ok(true);
        }
        let Some(iface) = self.merge.release() else {
            return Ok(false);
        };
        if let Some(number) = self.merge.next(self.sights, iface) {
            self.edges.drop_match(number, &self.placed);
        }
        self.queue(iface)?;
        Ok(true)
    }

    /// Places the next sighting of an interface.
    fn place(&mut self, iface: u32) -> Result<(), AllocError> {
        let Some(number) = self.merge.next(self.sights, iface) else {
            return Ok(());
        };
        if let Some(placed) = self.placed.get_mut(number.index()) {
            *placed = true;
        }
        self.merge.advance(iface);
        for _ in 0..self.sights.interfaces() {
            let Some(other) = self.merge.woken(number) else {
                break;
            };
            self.queue(other)?;
        }
        self.queue(iface)
    }

    fn is_placed(&self, number: SeenNumber) -> bool {
        self.placed.get(number.index()).copied().unwrap_or(false)
    }

    fn low_of(&self, number: SeenNumber) -> u64 {
        self.low.get(number.index()).copied().unwrap_or(0)
    }

    /// Whether a departure must wait for an arrival that isn't placed.
    fn has_to_wait(&self, arrival: SeenNumber, departure: &Seen) -> bool {
        let lo = self
            .sights
            .get(arrival)
            .map_or(0, |arrives| arrives.first_moment());
        !self.is_placed(arrival) && lo <= departure.last_moment()
    }

    /// The moment of a placed arrival that comes before a departure.
    fn bound(&self, arrival: SeenNumber, departure: &Seen) -> u64 {
        let low = self.low_of(arrival);
        if self.is_placed(arrival) && low <= departure.last_moment() {
            low
        } else {
            0
        }
    }

    /// Queues an interface by the least moment of its next sighting, or parks it until an arrival
    /// is placed that comes before that sighting.
    fn queue(&mut self, iface: u32) -> Result<(), AllocError> {
        let Some(number) = self.merge.next(self.sights, iface) else {
            return Ok(());
        };
        let Some(seen) = self.sights.get(number) else {
            return Ok(());
        };
        let mut low = self.alone(number, seen);
        if !seen.arrives() {
            if let Some(matched) = self.edges.matches().of(number) {
                if self.has_to_wait(matched, seen) {
                    return self
                        .merge
                        .park(iface, matched, (seen.last_moment(), false, 0));
                }
                low = low.max(self.bound(matched, seen));
            }
            for arrival in self.edges.required_of(number)? {
                if self.has_to_wait(arrival, seen) {
                    return self
                        .merge
                        .park(iface, arrival, (seen.last_moment(), true, 0));
                }
                low = low.max(self.bound(arrival, seen));
            }
        }
        if let Some(place) = self.low.get_mut(number.index()) {
            *place = low;
        }
        self.merge.queue(iface, (low, !seen.arrives(), 0))
    }

    /// The least moment of a sighting by its window, its interface and the raising.
    fn alone(&self, number: SeenNumber, seen: &Seen) -> u64 {
        let shift = match usize::try_from(seen.id().iface) {
            Ok(iface) => self.shifts.get(iface).copied().unwrap_or(0),
            Err(_) => 0,
        };
        let raised = self.raised.get(number.index()).copied().unwrap_or(0);
        let low = seen
            .first_moment()
            .saturating_add(shift)
            .max(raised)
            .min(seen.last_moment());
        match number.value().checked_sub(1) {
            Some(before) if seen.id().index > 0 => low.max(self.low_of(SeenNumber::new(before))),
            _ => low,
        }
    }
}
