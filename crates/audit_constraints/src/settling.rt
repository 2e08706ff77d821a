//! Which constraints of the lanes are kept, withdrawn and tried next.

mod clocks;
mod lane_constraints;

use crate::first_keys::FirstKeys;
use crate::lane_fault::LaneFault;
use crate::prepared::Prepared;
use crate::reading::Reading;
use crate::round::Round;
use audit_search_input::SearchInput;
use audit_search_state::{Constraint, Constraints};
use audit_seen::{LaneNumber, SeenNumber};
use lane_constraints::LaneConstraints;
use std::alloc::AllocError;
use std::collections::{BTreeMap, BTreeSet};

/// How many constraints of a lane are looked at in one round.
const LOOKED_AT: u32 = 1024;

/// The constraints of the next round, and the results of the earlier ones.
#[derive(Drop)]
pub struct Settling<'a> {
    reading: &'a Reading<'a>,
    first: FirstKeys,
    constraints: Constraints,
    lanes: BTreeMap<LaneNumber, LaneConstraints>,
    tried: BTreeSet<(LaneNumber, Constraint, u64)>,
    /// Arrivals that were placed before departures by constraints that helped.
    helped: BTreeSet<(SeenNumber, SeenNumber)>,
    /// The lanes that had faults in the previous round.
    faulty: BTreeSet<LaneNumber>,
}

impl<'a> Settling<'a> {
    /// No constraints.
    pub fn new(reading: &'a Reading<'a>) -> Result<Settling<'a>, AllocError> {
        let alloc = reading.alloc();
        let shifts: Vec<u64> = vec![in alloc; 0; reading.sights().interfaces()]?;
        Ok(Settling {
            reading,
            first: FirstKeys::of(reading, &shifts)?,
            constraints: Constraints::none(alloc, shifts),
            lanes: BTreeMap::new(alloc),
            tried: BTreeSet::new(alloc),
            helped: BTreeSet::new(alloc),
            faulty: BTreeSet::new(alloc),
        })
    }

    /// The input of the next round's searches.
    pub fn prepared(&self) -> Result<Prepared, AllocError> {
        Prepared::of(self.reading, &self.first, &self.constraints)
    }

    /// The input of each lane's search.
    pub fn input<'b>(&'b self, prepared: &'b Prepared) -> SearchInput<'b> {
        prepared.input(self.reading, &self.first, &self.constraints)
    }

    /// Sets whether acts that make or keep an allocation are placed at their requests.
    pub fn set_early(&mut self, is_early: bool) {
        self.constraints.set_early(is_early);
    }

    /// Forgets the constraints, and computes the keys again.
    pub fn start_again(&mut self) -> Result<(), AllocError> {
        self.constraints.clear();
        self.lanes.clear();
        self.tried.clear();
        self.faulty.clear();
        self.first = FirstKeys::of(self.reading, self.constraints.shifts())?;
        Ok(())
    }

    /// Keeps the constraints that got their lanes further, and withdraws the others.
    pub fn settle(&mut self, round: &Round) -> Result<(), AllocError> {
        let is_new = round
            .faults()
            .iter()
            .any(|failed| !self.faulty.contains(&failed.lane()));
        let mut blamed = BTreeSet::new(self.reading.alloc());
        for failed in round.faults() {
            blamed.insert(failed.fault().departure())?;
        }
        for (lane, of_lane) in self.lanes.iter_mut() {
            let Some(constraint) = of_lane.take_current() else {
                continue;
            };
            let taken_away = constraint.taken_away();
            let is_worse = taken_away.is_some_and(|sighting| is_new || blamed.contains(&sighting));
            let is_stuck = fault_of(round, *lane).is_some_and(|failed| {
                of_lane.is_stuck(constraint, failed)
            });
            if is_worse || is_stuck {
                self.constraints.take_back(constraint);
            } else {
                if let Constraint::Before { arrival, departure } = constraint {
                    self.helped.insert((arrival, departure))?;
                }
                of_lane.keep(self.reading.alloc(), constraint)?;
            }
        }
        Ok(())
    }

    /// Adds the constraints that the lanes need; returns whether any of them is new.
    pub fn add_constraints(&mut self, round: &Round) -> Result<bool, AllocError> {
        self.faulty.clear();
        for failed in round.faults() {
            self.faulty.insert(failed.lane())?;
        }
        let mut is_more = self.require_single_use(round)?;
        if self.require_no_overlaps(round)? {
            is_more = true;
        }
        for failed in round.faults() {
            if self.require_for_lane(failed)? {
                is_more = true;
            }
        }
        Ok(is_more)
    }

    /// Adds, for two lanes that act on one arrival, a constraint by which the later lane doesn't
    /// act on it, or else the earlier one.
    fn require_single_use(&mut self, round: &Round) -> Result<bool, AllocError> {
        let mut is_more = false;
        for double in round.doubles(self.reading.alloc())? {
            let (later, earlier) = (double.later(), double.earlier());
            let not_of = |lane| Constraint::NotHere {
                sighting: double.arrival(),
                lane,
            };
            for lane in [later, earlier] {
                let constraint = not_of(lane);
                if self.tried.insert((lane, constraint, 0))? {
                    self.constraints.take_back(not_of(later));
                    self.constraints.take_back(not_of(earlier));
                    self.constraints.add(constraint)?;
                    is_more = true;
                    break;
                }
            }
        }
        Ok(is_more)
    }

    /// Adds, for two lanes that have an address at the same time, a constraint by which the lease
    /// of the first one begins and ends as early as possible, or else by which one had it before
    /// the other; returns whether any of them is new.
    fn require_no_overlaps(&mut self, round: &Round) -> Result<bool, AllocError> {
        let mut is_more = false;
        for overlap in round.overlaps(self.reading)? {
            let first = Constraint::AtRequest {
                answer: overlap.answer(),
            };
            let over = Constraint::Precedes {
                maker: overlap.maker(),
                next: overlap.next(),
            };
            let second = Constraint::Precedes {
                maker: overlap.next(),
                next: overlap.maker(),
            };
            if self.tried.insert((overlap.lane(), first, 0))? {
                self.constraints.add(first)?;
                is_more = true;
            } else if self.tried.insert((overlap.lane(), over, 0))? {
                self.constraints.add(over)?;
                is_more = true;
            } else if self.tried.insert((overlap.next_lane(), second, 0))? {
                self.constraints.take_back(first);
                self.constraints.take_back(over);
                self.constraints.add(second)?;
                is_more = true;
            }
        }
        Ok(is_more)
    }

    /// Adds the next constraint of a lane; returns whether there was one.
    fn require_for_lane(&mut self, failed: &LaneFault) -> Result<bool, AllocError> {
        let alloc = self.reading.alloc();
        let lane = failed.lane();
        if !self.lanes.contains_key(&lane) {
            self.lanes.insert(lane, LaneConstraints::none(alloc))?;
        }
        let Some(of_lane) = self.lanes.get_mut(&lane) else {
            return Ok(false);
        };
        of_lane.open(alloc, failed)?;
        for _ in 0..LOOKED_AT {
            let Some(constraint) = of_lane.next(&mut self.constraints) else {
                return Ok(false);
            };
            if self.tried.insert((lane, constraint, of_lane.digest()))? {
                self.constraints.add(constraint)?;
                of_lane.set_current(constraint);
                return Ok(true);
            }
        }
        Ok(false)
    }
}

/// Where a lane failed in a round, if it did.
fn fault_of(round: &Round, lane: LaneNumber) -> Option<&LaneFault> {
    let place = round
        .faults()
        .partition_point(|failed| failed.lane() < lane);
    round
        .faults()
        .get(place)
        .filter(|failed| failed.lane() == lane)
}
