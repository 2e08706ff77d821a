//! Handovers of addresses: the deadline of a lane's allocation, and the earliest start of the next.

ghost use Rattle.std.specs.Prelude.{◌≡◌};

use audit_known::{Handover, Matches, Placed};
use audit_search_state::{Constraint, Constraints};
use audit_seen::{LaneNumber, SeenNumber, Sights, Slot};
use std::alloc::{AllocError, Global};
use std::collections::{BTreeMap, BTreeSet};

/// The deadline by which an allocation must end.
#[derive(Clone, Copy, Debug, PartialEq, Eq, PartialOrd, Ord)]
pub struct Deadline {
    slot: Slot,
    maker: SeenNumber,
    moment: u64,
}

impl Deadline {
    /// The slot by which it must end.
    pub fn slot(&self) -> Slot
        ensures { result ≡ self.now.slot }
    {
        self.slot
    }

    /// The response that granted the allocation.
    pub fn maker(&self) -> SeenNumber
        ensures { result ≡ self.now.maker }
    {
        self.maker
    }

    /// The moment by which it must end, in nanoseconds since 1970.
    pub fn moment(&self) -> u64
        ensures { result ≡ self.now.moment }
    {
        self.moment
    }
}

/// The deadlines of each lane, in order, and the slots before which allocations may not begin.
#[derive(Drop)]
pub struct Deadlines {
    list: Vec<(LaneNumber, Deadline)>,
    not_before: BTreeMap<SeenNumber, Slot>,
    /// The responses that grant the second allocation of an address.
    seconds: BTreeSet<SeenNumber>,
}

impl Deadlines {
    /// The deadlines by handovers, and by constraints that an allocation ends before another one.
    pub fn of(
        alloc: Global,
        sights: &Sights,
        handovers: &[Handover],
        matches: &Matches,
        placed: &Placed,
        constraints: &Constraints,
    ) -> Result<Deadlines, AllocError> {
        let mut deadlines = Deadlines {
            list: Vec::new(alloc),
            not_before: BTreeMap::new(alloc),
            seconds: BTreeSet::new(alloc),
        };
        for handover in handovers {
            let is_other_way = constraints.contains(Constraint::Precedes {
                maker: handover.next(),
                next: handover.maker(),
            });
            if !is_other_way {
                deadlines.seconds.insert(handover.next())?;
                deadlines.add_handover(handover, matches, placed, constraints)?;
            }
        }
        for constraint in constraints.iter() {
            let Constraint::Precedes { maker, next } = constraint else {
                continue;
            };
            if let Some(lane) = sights.get(*maker).and_then(|seen| seen.lane()) {
                let deadline = Deadline {
                    slot: Slot::first(placed.rank(*next)),
                    maker: *maker,
                    moment: placed.at(*next),
                };
                deadlines.list.push((lane, deadline))?;
            }
        }
        deadlines.list.sort_unstable();
        Ok(deadlines)
    }

    /// Adds the deadline of a handover, if the request that deletes the first allocation comes
    /// before the second one's response.
    fn add_handover(
        &mut self,
        handover: &Handover,
        matches: &Matches,
        placed: &Placed,
        constraints: &Constraints,
    ) -> Result<(), AllocError> {
        let answer = handover.next();
        // A handover is before the response, or before a departure if a constraint requires that.
        let by = constraints.handed_over_before(answer).unwrap_or(answer);
        let next = placed.rank(by).min(placed.rank(answer));
        let Some(ender) = handover.ender() else {
            return Ok(());
        };
        let Some(request) = matches.of(ender) else {
            return Ok(());
        };
        if placed.rank(request) >= next {
            return Ok(());
        }
        let is_soon = constraints.contains(Constraint::AtRequest { answer });
        let (slot, last) = if is_soon {
            (Slot::after(placed.rank(request)), request)
        } else {
            (Slot::first(next), by)
        };
        let deadline = Deadline {
            slot,
            maker: handover.maker(),
            moment: placed.at(last),
        };
        self.list.push((handover.from(), deadline))?;
        let behind = if is_soon {
            slot.next()
        } else {
            slot.min(Slot::before(placed.rank(ender)).next())
        };
        self.not_before.insert(answer, behind)?;
        Ok(())
    }

    /// The slot before which an allocation may not begin.
    pub fn not_before(&self, maker: SeenNumber) -> Slot {
        self.not_before
            .get(&maker)
            .copied()
            .unwrap_or(Slot::least())
    }

    /// Whether another client had the address of an allocation before.
    pub fn is_second(&self, maker: SeenNumber) -> bool {
        self.seconds.contains(&maker)
    }

    /// The deadline of a lane at an index among its deadlines.
    pub fn get(&self, lane: LaneNumber, place: usize) -> Option<Deadline> {
        let start = self.list.partition_point(|one| one.0 < lane);
        let (of, deadline) = self.list.get(start.checked_add(place)?)?;
        if *of != lane {
            return None;
        }
        Some(*deadline)
    }
}
