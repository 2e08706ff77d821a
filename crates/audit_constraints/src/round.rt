//! The result of one round.

ghost use Rattle.std.specs.Prelude.{◌≡◌};

mod overlaps;

use crate::act::Act;
use crate::lane_fault::LaneFault;
use audit_known::Placed;
use audit_matching::{Edges, RelayedLanes};
use audit_seen::{LaneNumber, SeenNumber, Slot};
pub use overlaps::Overlap;
use std::alloc::{AllocError, Global};

/// An arrival that two lanes act on.
#[derive(Clone, Copy, Debug)]
pub struct Double {
    arrival: SeenNumber,
    later: LaneNumber,
    earlier: LaneNumber,
}

impl Double {
    /// The arrival.
    pub fn arrival(&self) -> SeenNumber
        ensures { result ≡ self.now.arrival }
    {
        self.arrival
    }

    /// The lane of the later act.
    pub fn later(&self) -> LaneNumber
        ensures { result ≡ self.now.later }
    {
        self.later
    }

    /// The lane of the earlier act.
    pub fn earlier(&self) -> LaneNumber
        ensures { result ≡ self.now.earlier }
    {
        self.earlier
    }
}

/// An act, ordered by arrival, then by slot.
#[derive(Clone, Copy, PartialEq, Eq, PartialOrd, Ord)]
struct ByArrival {
    arrival: SeenNumber,
    slot: Slot,
    lane: LaneNumber,
}

/// The result of one round.
#[derive(Drop)]
pub struct Round {
    placed: Placed,
    relayed: RelayedLanes,
    edges: Edges,
    acts: Vec<Act>,
    faults: Vec<LaneFault>,
}

impl Round {
    /// The placement of the sightings, the lane of each departure from a relayed address, the
    /// matches, and the acts of all lanes and the lanes that fail, both in order.
    pub(crate) fn new(
        placed: Placed,
        relayed: RelayedLanes,
        edges: Edges,
        acts: Vec<Act>,
        faults: Vec<LaneFault>,
    ) -> Round {
        Round {
            placed,
            relayed,
            edges,
            acts,
            faults,
        }
    }

    /// The placement of the sightings.
    pub fn placed(&self) -> &Placed {
        &self.placed
    }

    /// The lane of each departure from a relayed address.
    pub fn relayed(&self) -> &RelayedLanes {
        &self.relayed
    }

    /// The matches, and the arrivals that constraints place before departures.
    pub(crate) fn edges(&self) -> &Edges {
        &self.edges
    }

    /// The acts of all lanes, in order.
    pub fn acts(&self) -> &[Act] {
        self.acts.as_slice()
    }

    /// The lanes that can't act on a departure, in order.
    pub fn faults(&self) -> &[LaneFault] {
        self.faults.as_slice()
    }

    /// The arrivals on which two lanes act. It takes n log n.
    pub fn doubles(&self, alloc: Global) -> Result<Vec<Double>, AllocError> {
        let mut by_arrival: Vec<ByArrival> = Vec::with_capacity(alloc, self.acts.len())?;
        for act in &self.acts {
            by_arrival.push(ByArrival {
                arrival: act.arrival(),
                slot: act.slot(),
                lane: act.lane(),
            })?;
        }
        by_arrival.sort_unstable();
        let mut found = Vec::new(alloc);
        for pair in by_arrival.windows(2) {
            if let [first, second] = pair {
                if first.arrival == second.arrival && first.lane != second.lane {
                    found.push(Double {
                        arrival: first.arrival,
                        later: second.lane,
                        earlier: first.lane,
                    })?;
                }
            }
        }
        Ok(found)
    }
}
