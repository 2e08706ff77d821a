//! The depth-first search of one lane, departure by departure.

mod backtracking;

use audit_search_acts::{Lane, PREVIOUS, Plan};
use audit_search_input::SearchInput;
use audit_search_state::{Constraint, Fault, Found};
use audit_seen::{LaneNumber, SeenNumber, Slot};
use std::alloc::AllocError;
use std::collections::{BTreeMap, VecDeque};

/// How many steps are spent on one conflict.
const STEPS: u64 = 2_000;

/// The fewest steps that a lane has for each departure.
const FEWEST_EACH: u64 = 2;

/// The most steps that a lane has for each departure.
const MOST_EACH: u64 = 16;

/// How many choices are kept for backtracking.
const STACK: usize = 64;

/// A choice between several ways to act on a departure.
#[derive(Clone, Copy)]
struct Choice {
    /// The index of the departure.
    place: usize,
    /// How many ways were tried.
    tried: usize,
    /// Where the acts before it end.
    mark: usize,
    /// How many deadlines were passed before it.
    passed: usize,
    /// Whether one of the ways makes or ends an allocation.
    is_of_end: bool,
}

/// The farthest departure that no way passed.
#[derive(Drop)]
struct Farthest {
    place: usize,
    /// The ways that led there.
    chosen: BTreeMap<usize, usize>,
    /// The number of steps when the search came there.
    steps: u64,
}

/// The search of a lane: its position, and the choices that led there.
#[derive(Drop)]
struct LaneSearch<'a> {
    lane: Lane<'a>,
    /// The index of the present departure.
    place: usize,
    /// How many deadlines were passed.
    passed: usize,
    /// How many ways were tried at the position to which it went back.
    skip: usize,
    stack: VecDeque<Choice>,
    /// Which way was taken, if it wasn't the first.
    chosen: BTreeMap<usize, usize>,
    /// The farthest departure that no way passed.
    far: Option<Farthest>,
    /// Whether the ways to the farthest departure are taken again.
    is_replaying: bool,
    fault: Option<Fault>,
    /// Departures on which it couldn't act in some order, and the constraints that might have
    /// helped.
    asked: Vec<(SeenNumber, Vec<Constraint>)>,
}

/// How many steps the search of each lane may take in a round.
#[derive(Clone, Copy, Debug)]
pub(crate) struct Allowance {
    /// How many in addition to those for its departures.
    free: u64,
    /// How many for each departure.
    each: u64,
}

impl Allowance {
    /// What each of these lanes may take, if all of them may take about this number of steps for
    /// this number of sightings.
    pub(crate) fn of(steps: u64, lanes: usize, sightings: usize) -> Allowance {
        let (lanes, sightings) = ((lanes as u64).max(1), (sightings as u64).max(1));
        Allowance {
            free: (steps / lanes).min(STEPS),
            each: (steps / sightings).max(FEWEST_EACH).min(MOST_EACH),
        }
    }

    /// The steps of a lane with this number of departures.
    fn steps(self, departures: u64) -> u64 {
        self.free
            .saturating_add(departures.saturating_mul(self.each))
    }
}

/// Finds the acts of a lane: an order in which the server kept to its rules, if it finds one; else
/// the order that leads farthest. It also returns the number of steps.
pub(crate) fn search_lane(
    input: &SearchInput<'_>,
    allowance: Allowance,
    number: LaneNumber,
) -> Result<(Found, u64), AllocError> {
    let mut search = LaneSearch::new(input, number)?;
    let count = search.lane.departures() as u64;
    let budget = allowance.steps(count);
    search.lane.set_budget(budget);
    // Each departure twice, and the departures that are visited again, each of which is a step.
    let turns = budget.saturating_add(count).saturating_mul(2);
    for _ in 0..turns.saturating_add(2) {
        if !search.step(budget)? {
            break;
        }
    }
    Ok((search.found()?, search.lane.steps()))
}

impl<'a> LaneSearch<'a> {
    /// Starts at the first departure of a lane.
    fn new(input: &'a SearchInput<'a>, number: LaneNumber) -> Result<LaneSearch<'a>, AllocError> {
        let alloc = input.alloc();
        Ok(LaneSearch {
            lane: Lane::new(input, number)?,
            place: 0,
            passed: 0,
            skip: 0,
            stack: VecDeque::new(alloc),
            chosen: BTreeMap::new(alloc),
            far: None,
            fault: None,
            is_replaying: false,
            asked: Vec::new(alloc),
        })
    }

    /// The result.
    fn found(&self) -> Result<Found, AllocError> {
        let mut acts = Vec::new(self.lane.input().alloc());
        for (departure, acted) in self.lane.state().acts() {
            acts.push((*departure, *acted))?;
        }
        Ok(Found::new(acts, self.fault, self.constraints()?))
    }

    /// Moves to the next departure, or back; returns whether there was one.
    fn step(&mut self, budget: u64) -> Result<bool, AllocError> {
        let Some(departure) = self.lane.departure(self.place) else {
            return Ok(false);
        };
        self.lane.come_to(departure);
        if self.far.as_ref().is_some_and(|far| self.place < far.place) {
            self.lane.add_step();
        }
        self.meet_deadlines(departure)?;
        self.lane.act_on_asked(departure)?;
        if self.lane.state().is_acted(departure) {
            self.go_on();
            return Ok(true);
        }
        if self.fault.is_some() {
            self.lane.act_anyhow(departure)?;
            self.go_on();
            return Ok(true);
        }
        if self.act(departure, budget)? {
            self.go_on();
            return Ok(true);
        }
        if self.is_replaying {
            self.blame(departure)?;
            self.go_on();
            return Ok(true);
        }
        self.backtrack(departure, budget)?;
        Ok(true)
    }

    /// Ends the allocations that must end before a departure.
    fn meet_deadlines(&mut self, departure: SeenNumber) -> Result<(), AllocError> {
        let input = self.lane.input();
        let before = Slot::before(input.rank(departure));
        for _ in 0..input.in_order().len() {
            match input.deadlines().get(self.lane.number(), self.passed) {
                Some(deadline) if deadline.slot() < before => {
                    self.lane.meet(deadline)?;
                    self.passed = self.passed.saturating_add(1);
                }
                _ => return Ok(()),
            }
        }
        Ok(())
    }

    fn go_on(&mut self) {
        self.place = self.place.saturating_add(1);
        self.skip = 0;
    }

    /// Acts on a departure in the next way that wasn't tried; returns whether there was one.
    fn act(&mut self, departure: SeenNumber, budget: u64) -> Result<bool, AllocError> {
        if self.is_replaying {
            self.skip = self.chosen_before();
        }
        let is_choice = !self.is_replaying
            && self.lane.steps() < budget
            && self.lane.is_ambiguous(departure)?;
        self.forget_old_choices(departure, budget);
        if self.stack.is_empty() && !is_choice {
            self.lane.state_mut().forget();
        }
        self.lane.state_mut().keep_previous(PREVIOUS);
        if self.skip == 0 && !is_choice && self.act_plainly(departure)? {
            return Ok(true);
        }
        if self.lane.steps() >= budget && !self.is_replaying {
            return Ok(false);
        }
        let was_noting = self.lane.state_mut().set_noting(true);
        let mark = self.lane.state().mark();
        let limit = self.lane.steps().saturating_add(STEPS);
        let plans = self.lane.plans(departure, limit)?;
        for (number, plan) in plans.iter().enumerate().skip(self.skip) {
            if self.lane.follow(departure, plan)? {
                self.chosen.insert(self.place, number)?;
                let is_kept = is_choice || !matches!(plan, Plan::Now);
                if is_kept && !self.is_replaying && self.lane.steps() < budget {
                    let is_of_end = self.lane.is_of_end(departure, &plans);
                    self.keep(number, mark, is_of_end)?;
                }
                return Ok(true);
            }
            self.lane.state_mut().undo(mark);
        }
        let _was_noting = self.lane.state_mut().set_noting(was_noting);
        Ok(false)
    }

    /// Acts on a departure as it leaves, without a choice; returns whether it could.
    fn act_plainly(&mut self, departure: SeenNumber) -> Result<bool, AllocError> {
        let slot = Slot::before(self.lane.input().rank(departure));
        if self.lane.is_rather_earlier(departure)? {
            return Ok(false);
        }
        let moment = self.lane.input().at(departure);
        Ok(self.lane.act_now(departure, slot, moment)?.is_none())
    }

    /// Keeps a choice whose way was taken.
    fn keep(&mut self, number: usize, mark: usize, is_of_end: bool) -> Result<(), AllocError> {
        self.stack.push_back(Choice {
            place: self.place,
            tried: number.saturating_add(1),
            mark,
            passed: self.passed,
            is_of_end,
        })?;
        if self.stack.len() > STACK {
            let _oldest = self.stack.pop_front();
        }
        Ok(())
    }

    /// Which way was taken here on the way to the farthest departure.
    fn chosen_before(&self) -> usize {
        match &self.far {
            Some(far) => far.chosen.get(&self.place).copied().unwrap_or(0),
            None => 0,
        }
    }
}
