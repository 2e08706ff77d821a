//! Which arrival each departure most likely answers.

use audit_known::{Known, Matches, Times};
use audit_seen::{LaneNumber, PoolNumber, Seen, SeenNumber, Sights};
use std::alloc::{AllocError, Global};

/// How many arrivals of a pool are looked at for one departure.
pub(crate) const COPIES: usize = 16;

/// Matches departures with arrivals, the oldest first.
#[derive(Drop)]
struct Matching {
    matches: Matches,
    /// The index in each pool of the first arrival that may still be matched.
    heads: Vec<usize>,
    /// How many responses to the requests of each pool remain.
    pending: Vec<usize>,
}

/// Matches each departure with the oldest arrival that it may answer. `lanes` has the lane of each
/// departure from a relayed address, if it is known. It takes n log n.
pub fn match_up(known: &Known<'_>, lanes: &[Option<LaneNumber>]) -> Result<Matches, AllocError> {
    let alloc = known.alloc();
    let mut matching = Matching {
        matches: Matches::none(alloc, known.sights().as_slice().len())?,
        heads: vec![in alloc; 0; known.numbers().count()]?,
        pending: pending(known)?,
    };
    for (_, number) in &departures(alloc, known.sights(), known.times())? {
        if let Some(seen) = known.sights().get(*number) {
            let lane = lanes.get(number.index()).copied().flatten();
            matching.join_departure(known, *number, seen, lane)?;
        }
    }
    Ok(matching.matches)
}

/// The number of responses to the requests of each pool.
fn pending(known: &Known<'_>) -> Result<Vec<usize>, AllocError> {
    let alloc = known.alloc();
    let mut pending: Vec<usize> = vec![in alloc; 0; known.numbers().count()]?;
    for seen in known.sights().as_slice() {
        if let Some(pool) = seen.response_pool() {
            if let Some(count) = pending.get_mut(pool.index()) {
                *count = count.saturating_add(1);
            }
        }
    }
    Ok(pending)
}

/// The departures in the order of time.
pub(crate) fn departures(
    alloc: Global,
    sights: &Sights,
    times: &Times,
) -> Result<Vec<(u64, SeenNumber)>, AllocError> {
    let mut found = Vec::new(alloc);
    for (place, seen) in sights.as_slice().iter().enumerate() {
        if let (false, Ok(number)) = (seen.arrives(), u32::try_from(place)) {
            let number = SeenNumber::new(number);
            found.push((times.of(number).when(), number))?;
        }
    }
    found.sort_unstable();
    Ok(found)
}

/// An arrival that a departure may answer.
#[derive(Clone, Copy)]
struct Choice {
    arrival: SeenNumber,
    /// Whether it came so late that the departure is within the hold at every moment of its window.
    is_sure: bool,
    when: u64,
}

impl Choice {
    /// The better one of the two: a sure one is preferred, then the older one.
    fn or(self, other: Option<Choice>) -> Choice {
        match other {
            Some(other)
                if other.is_sure && !self.is_sure
                    || other.is_sure == self.is_sure && other.when < self.when => { other }
            _ => self,
        }
    }
}

impl Matching {
    /// Matches a departure with the best arrival of its pools.
    fn join_departure(
        &mut self,
        known: &Known<'_>,
        number: SeenNumber,
        seen: &Seen,
        lane: Option<LaneNumber>,
    ) -> Result<(), AllocError> {
        let mut best: Option<Choice> = None;
        for pool in known.candidates(number, seen, lane)? {
            self.advance(known, pool, seen);
            if let Some(choice) = self.first_of(known, pool, seen) {
                best = Some(match best {
                    Some(best) => best.or(Some(choice)),
                    None => choice,
                });
            }
        }
        if let Some(best) = best {
            self.matches.join(number, best.arrival);
        }
        if let Some(pool) = seen.response_pool() {
            if let Some(pending) = self.pending.get_mut(pool.index()) {
                *pending = pending.saturating_sub(1);
            }
        }
        Ok(())
    }

    /// Skips the arrivals of a pool that are matched, or came too long ago.
    fn advance(&mut self, known: &Known<'_>, pool: PoolNumber, leaves: &Seen) {
        let Some(head) = self.heads.get_mut(pool.index()) else {
            return;
        };
        let matches = &self.matches;
        for number in known.pools().get(pool).get(*head..).unwrap_or(&[]) {
            let is_late = match known.sights().get(*number) {
                Some(seen) => seen.last_moment().saturating_add(known.hold())
                    < leaves.first_moment(),
                None => true,
            };
            if matches.of(*number).is_none() && !is_late {
                return;
            }
            *head = head.saturating_add(1);
        }
    }

    /// Whether the remaining responses are enough for the remaining requests of a pool, so that no
    /// request may be skipped.
    fn is_all_pending(&self, known: &Known<'_>, pool: PoolNumber, head: usize) -> bool {
        let pending = self.pending.get(pool.index()).copied().unwrap_or(0);
        let left = known.pools().get(pool).get(head..).unwrap_or(&[]);
        let open = left
            .iter()
            .take(COPIES)
            .filter(|number| self.matches.of(**number).is_none())
            .count();
        left.len() <= COPIES && open <= pending
    }

    /// The first arrival of a pool that fits well, or else the first that fits.
    fn first_of(&self, known: &Known<'_>, pool: PoolNumber, leaves: &Seen) -> Option<Choice> {
        let head = self.heads.get(pool.index()).copied()?;
        let is_all_pending = self.is_all_pending(known, pool, head);
        let mut best: Option<Choice> = None;
        for number in known.pools().get(pool).get(head..)?.iter().take(COPIES) {
            let arrives = known.sights().get(*number)?;
            let fits = arrives.first_moment() <= leaves.last_moment() && !arrives.is_after(leaves);
            if self.matches.of(*number).is_none() && fits {
                let choice = Choice {
                    arrival: *number,
                    is_sure: arrives.first_moment().saturating_add(known.hold())
                        >= leaves.last_moment(),
                    when: known.times().of(*number).when(),
                };
                if choice.is_sure || is_all_pending {
                    return Some(choice.or(best));
                }
                best = best.or(Some(choice));
            }
        }
        best
    }
}
