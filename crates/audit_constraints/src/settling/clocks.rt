//! How far the clocks of interfaces are slow, by what their departures have to answer.

use super::Settling;
use crate::round::Round;
use audit_seen::SeenNumber;
use std::alloc::AllocError;

/// How many arrivals of one pool are looked at.
const COPIES: usize = 16;

impl Settling<'_> {
    /// Computes clock shifts from the constraints that helped and from the pairs that are unique.
    /// If one departure of an interface must be at some distance after the start of its window, all
    /// sightings of the interface are. Returns whether any shift is new.
    pub fn shift_clocks(&mut self, round: &Round) -> Result<bool, AllocError> {
        let mut is_new = false;
        let sights = self.reading.sights();
        for (place, leaves) in sights.as_slice().iter().enumerate() {
            let (false, Ok(number)) = (leaves.arrives(), u32::try_from(place)) else {
                continue;
            };
            let number = SeenNumber::new(number);
            for arrival in round.edges().of_departure(number)? {
                let Some(arrives) = sights.get(arrival) else {
                    continue;
                };
                let is_matched = round.edges().matches().of(number) == Some(arrival);
                let is_sure = self.helped.contains(&(arrival, number))
                    || is_matched && self.is_alone(arrival);
                if arrives.id().iface != leaves.id().iface && is_sure {
                    let lo = arrives
                        .first_moment()
                        .saturating_add(self.constraints.shift(arrives.id().iface));
                    let need = lo
                        .min(leaves.last_moment())
                        .saturating_sub(leaves.first_moment());
                    if need > self.constraints.shift(leaves.id().iface) {
                        self.constraints.set_shift(leaves.id().iface, need);
                        is_new = true;
                    }
                }
            }
        }
        Ok(is_new)
    }

    /// Whether no other arrival of its pool may be the one that is answered.
    fn is_alone(&self, arrival: SeenNumber) -> bool {
        let sights = self.reading.sights();
        let Some(arrives) = sights.get(arrival) else {
            return false;
        };
        let Some(pool) = arrives.pool() else {
            return false;
        };
        let members = self.first.arrivals(pool);
        let hold = self.reading.policy().hold;
        members.len() <= COPIES
            && members.iter().all(|other| {
                let lo = sights.get(*other).map_or(0, |seen| seen.first_moment());
                *other == arrival || lo.abs_diff(arrives.first_moment()) > hold
            })
    }
}
