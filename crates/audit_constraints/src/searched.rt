//! The results of the lanes' searches, each kept until the input of its search changes.

ghost use Rattle.std.specs.Prelude.{◌≡◌};

use crate::act::Act;
use crate::lane_fault::LaneFault;
use audit_known::Placed;
use audit_search_input::SearchInput;
use audit_search_state::{Constraint, Fault, Found, Turn};
use audit_seen::{LaneNumber, SeenNumber, Slot};
use std::alloc::{AllocError, Global};

/// An act at a sighting, independent of that sighting's rank in the order.
#[derive(Clone, Copy)]
struct Anchored {
    anchor: SeenNumber,
    /// Which of the slots around the sighting.
    part: u32,
    turn: Turn,
    arrival: SeenNumber,
    departure: SeenNumber,
}

/// The result of a lane's search.
#[derive(Drop)]
pub struct Searched {
    /// A digest of the input of the search.
    fingerprint: u64,
    acts: Vec<Anchored>,
    fault: Option<Fault>,
    constraints: Vec<Constraint>,
    /// How many steps this search of the lane and those before it took.
    steps: u64,
}

impl Searched {
    /// The result of a lane's search, and how many steps its searches took so far.
    pub fn of(
        input: &SearchInput<'_>,
        lane: LaneNumber,
        found: Found,
        steps: u64,
    ) -> Result<Searched, AllocError> {
        Ok(Searched {
            fingerprint: input.views().fingerprint(lane),
            acts: acts_of(input, &found)?,
            fault: found.fault(),
            constraints: found.into_constraints(),
            steps,
        })
    }

    /// A digest of the input of the search.
    pub fn fingerprint(&self) -> u64
        ensures { result ≡ self.now.fingerprint }
    {
        self.fingerprint
    }

    /// How many steps this search of the lane and those before it took.
    pub fn steps(&self) -> u64
        ensures { result ≡ self.now.steps }
    {
        self.steps
    }

    /// Adds its acts to those of all lanes.
    fn add_to(
        &self,
        placed: &Placed,
        lane: LaneNumber,
        acts: &mut Vec<Act>,
    ) -> Result<(), AllocError> {
        for act in &self.acts {
            let slot = Slot::part(placed.rank(act.anchor), act.part);
            acts.push(Act::new(slot, lane, act.turn, act.arrival, act.departure))?;
        }
        Ok(())
    }
}

fn acts_of(input: &SearchInput<'_>, found: &Found) -> Result<Vec<Anchored>, AllocError> {
    let mut acts = Vec::with_capacity(input.alloc(), found.acts().len())?;
    for (departure, acted) in found.acts() {
        let rank = acted.slot().rank() as usize;
        if let Some(anchor) = input.in_order().get(rank) {
            acts.push(Anchored {
                anchor: *anchor,
                part: acted.slot().place(),
                turn: acted.turn(),
                arrival: acted.arrival(),
                departure: *departure,
            })?;
        }
    }
    Ok(acts)
}

/// The results of all lanes' searches.
#[derive(Drop)]
pub struct AllSearched {
    /// None for a lane that wasn't searched yet, or whose search had no memory.
    lanes: Vec<Option<Searched>>,
}

impl AllSearched {
    /// No results.
    pub fn new(alloc: Global) -> AllSearched {
        AllSearched {
            lanes: Vec::new(alloc),
        }
    }

    /// Makes a place for each lane.
    pub fn make_places(&mut self, input: &SearchInput<'_>) -> Result<(), AllocError> {
        for _ in self.lanes.len()..input.lanes() {
            self.lanes.push(None)?;
        }
        Ok(())
    }

    /// The place of each lane.
    pub fn places(&mut self) -> &mut [Option<Searched>] {
        self.lanes.as_mut_slice()
    }

    /// Fails with `AllocError` if the search of a lane had no memory.
    pub fn all_are_there(&self) -> Result<(), AllocError> {
        if self.lanes.iter().any(|place| place.is_none()) {
            return Err(AllocError);
        }
        Ok(())
    }

    /// How many steps the searches of all lanes took.
    pub fn steps(&self) -> u64 {
        let mut steps = 0u64;
        for place in &self.lanes {
            if let Some(searched) = place {
                steps = steps.saturating_add(searched.steps);
            }
        }
        steps
    }

    /// Forgets the results.
    pub fn clear(&mut self) {
        self.lanes.clear();
    }

    /// The acts of all lanes, in order.
    pub fn acts(&self, alloc: Global, placed: &Placed) -> Result<Vec<Act>, AllocError> {
        let mut acts = Vec::new(alloc);
        for (number, place) in self.lanes.iter().enumerate() {
            if let (Some(searched), Ok(lane)) = (place, u32::try_from(number)) {
                searched.add_to(placed, LaneNumber::new(lane), &mut acts)?;
            }
        }
        acts.sort_unstable();
        Ok(acts)
    }

    /// The lanes that can't act on a departure, in order, and the constraints that may help them.
    pub fn faults(&self, alloc: Global) -> Result<Vec<LaneFault>, AllocError> {
        let mut faults = Vec::new(alloc);
        for (number, place) in self.lanes.iter().enumerate() {
            if let (Some(searched), Ok(lane)) = (place, u32::try_from(number)) {
                if let Some(fault) = searched.fault {
                    let constraints = Vec::from_slice(alloc, searched.constraints.as_slice())?;
                    faults.push(LaneFault::new(LaneNumber::new(lane), fault, constraints))?;
                }
            }
        }
        Ok(faults)
    }
}
