//! The search of one lane.

ghost use Rattle.std.specs.Prelude.{◌≡◌};

mod acting;
mod ambiguous;
mod before_end;
mod drawing;
mod earlier;
mod faults;
mod following;
mod grants;
mod judging;
mod makers;
mod meeting;
mod needs;
mod plans;

use audit_rules::LaneTable;
use audit_search_input::{Ranked, SearchInput};
use audit_search_state::{PoolRef, Refused, State, relayed_of};
use audit_seen::{Content, LaneNumber, Seen, SeenNumber, Slot};
pub use drawing::Draw;
pub use plans::{PREVIOUS, Plan};
use std::alloc::AllocError;

/// How many arrivals of a pool are tried for one departure.
const COPIES: usize = 16;

/// The result of an attempt to act on a departure.
#[derive(Clone, Copy, Debug)]
enum Attempt {
    Accepted(SeenNumber),
    Refused(Refused),
}

/// A departure, and the slot and the moment at which it is tried with several arrivals.
#[derive(Clone, Copy)]
struct Trial {
    departure: SeenNumber,
    slot: Slot,
    moment: u64,
    is_response: bool,
}

/// The search of one lane.
#[derive(Drop)]
pub struct Lane<'a> {
    /// The input of the search.
    input: &'a SearchInput<'a>,
    number: LaneNumber,
    /// The departures, by rank, and those that change the table.
    departures: &'a [Ranked],
    changes: Vec<(u32, SeenNumber)>,
    /// The state after its acts so far.
    state: State,
    /// The moment of the current departure of the search.
    clock: u64,
    /// How many acts were judged in addition to one for each departure.
    steps: u64,
    /// The most steps that are allowed.
    budget: u64,
}

impl<'a> Lane<'a> {
    /// A lane whose departures have no acts yet.
    pub fn new(input: &'a SearchInput<'a>, number: LaneNumber) -> Result<Lane<'a>, AllocError> {
        let departures = input.views().departures(number);
        let mut changes = Vec::new(input.alloc());
        for one in departures {
            if input
                .content(one.number())
                .is_some_and(|content| content.is_change())
            {
                changes.push((one.rank(), one.number()))?;
            }
        }
        let (client, listen) = input.pair(number);
        Ok(Lane {
            input,
            number,
            departures,
            changes,
            state: State::new(input.alloc(), number, client, listen),
            clock: 0,
            steps: 0,
            budget: 0,
        })
    }

    /// The input of the search.
    pub fn input(&self) -> &'a SearchInput<'a> {
        self.input
    }

    /// The lane's number.
    pub fn number(&self) -> LaneNumber
        ensures { result ≡ self.now.number }
    {
        self.number
    }

    /// The departure at an index among the lane's departures, which are in the order of rank.
    pub fn departure(&self, place: usize) -> Option<SeenNumber> {
        Some(self.departures.get(place)?.number())
    }

    /// The number of departures.
    pub fn departures(&self) -> usize {
        self.departures.len()
    }

    /// The departures that change the table, by rank.
    pub fn changes(&self) -> &[(u32, SeenNumber)] {
        self.changes.as_slice()
    }

    /// The state after its acts so far.
    pub fn state(&self) -> &State {
        &self.state
    }

    /// The same, mutable, to undo steps.
    pub fn state_mut(&mut self) -> &mut State {
        &mut self.state
    }

    /// Starts again, with no act.
    pub fn start_again(&mut self) {
        let (client, listen) = self.input.pair(self.number);
        self.state = State::new(self.input.alloc(), self.number, client, listen);
    }

    /// Makes a departure the current one.
    pub fn come_to(&mut self, departure: SeenNumber) {
        self.clock = self.input.at(departure);
    }

    /// How many acts were judged in addition to one for each departure.
    pub fn steps(&self) -> u64
        ensures { result ≡ self.now.steps }
    {
        self.steps
    }

    /// Counts a step.
    pub fn add_step(&mut self) {
        self.steps = self.steps.saturating_add(1);
    }

    /// Sets the most steps that are allowed.
    pub fn set_budget(&mut self, budget: u64) {
        self.budget = budget;
    }

    /// An empty table.
    fn empty_table(&self) -> LaneTable {
        let (client, listen) = self.input.pair(self.number);
        LaneTable::new(self.number.value(), client, listen)
    }

    /// The arrivals of a pool before a slot that are unused and within the hold before the
    /// departure, the oldest first; at most `COPIES`.
    fn unused(
        &mut self,
        departure: SeenNumber,
        pool: PoolRef,
        slot: Slot,
    ) -> Result<Vec<SeenNumber>, AllocError> {
        let all = self.input.views().arrivals(self.number, pool);
        let first = self.state.first(pool);
        let mut place = first;
        for one in all.get(first..).unwrap_or(&[]) {
            let arrival = one.number();
            if !self.state.is_used(arrival) && self.input.held_until(arrival) >= self.clock {
                break;
            }
            place = place.saturating_add(1);
        }
        if place > first {
            self.state.set_first(pool, place)?;
        }
        let moment = self.input.at(departure);
        let mut found = Vec::new(self.input.alloc());
        for one in all.get(place..).unwrap_or(&[]).iter().take(COPIES) {
            if Slot::after(one.rank()) > slot.next() {
                break;
            }
            let arrival = one.number();
            if !self.state.is_used(arrival) && self.input.held_until(arrival) >= moment {
                found.push(arrival)?;
            }
        }
        Ok(found)
    }

    /// The oldest request before a slot that a response may answer.
    fn oldest(
        &mut self,
        response: SeenNumber,
        slot: Slot,
    ) -> Result<Option<SeenNumber>, AllocError> {
        let Some(seen) = self.input.seen(response) else {
            return Ok(None);
        };
        match seen.response_pool() {
            Some(pool) => {
                let pool = PoolRef::own(pool);
                Ok(self.unused(response, pool, slot)?.first().copied())
            }
            None => Ok(None),
        }
    }

    /// Acts on a departure in a table by the oldest arrival that the rules accept. Data of one pool
    /// is alike: only its first arrival is tried.
    fn attempt(
        &mut self,
        table: &mut LaneTable,
        departure: SeenNumber,
        slot: Slot,
        moment: u64,
    ) -> Result<Attempt, AllocError> {
        let Some(seen) = self.input.seen(departure) else {
            return Ok(Attempt::Refused(Refused::NoArrival));
        };
        let trial = Trial {
            departure,
            slot,
            moment,
            is_response: seen.response_pool().is_some(),
        };
        let relayed = relayed_of(table);
        let mut best: Option<SeenNumber> = None;
        let mut refused = Refused::NoArrival;
        for pool in self.input.pools_of(self.number, seen, relayed)? {
            if best.is_none() || !pool.is_shared() {
                match self.attempt_of(table, trial, pool, best)? {
                    Attempt::Accepted(arrival) => best = Some(arrival),
                    Attempt::Refused(Refused::NoArrival) => {}
                    Attempt::Refused(rule) => refused = refused.or(rule),
                }
            }
        }
        match best {
            Some(arrival) => Ok(Attempt::Accepted(arrival)),
            None => Ok(Attempt::Refused(refused)),
        }
    }

    /// Acts by an arrival of a pool that is older than the best one so far.
    fn attempt_of(
        &mut self,
        table: &mut LaneTable,
        trial: Trial,
        pool: PoolRef,
        best: Option<SeenNumber>,
    ) -> Result<Attempt, AllocError> {
        let mut refused = Refused::NoArrival;
        for arrival in self.unused(trial.departure, pool, trial.slot)? {
            if best.is_some_and(|best| self.input.rank(arrival) > self.input.rank(best)) {
                break;
            }
            match self.judge(table, arrival, trial.departure, trial.slot, trial.moment)? {
                None => return Ok(Attempt::Accepted(arrival)),
                Some(rule) => refused = rule,
            }
            if !trial.is_response {
                break;
            }
        }
        Ok(Attempt::Refused(refused))
    }

    /// Whether a departure repeats the response for the allocation that a table has.
    fn is_repeated(&self, table: &LaneTable, departure: &Seen, moment: u64) -> bool {
        let (Some(Content::Allocated { .. }), Some(tenancy)) = (
            departure.content(),
            table.running(),
        ) else {
            return false;
        };
        let made_by = self.input.number_of(tenancy.sight);
        let pool = match made_by {
            Some(number) => self.input.seen(number).and_then(|seen| seen.pool()),
            None => None,
        };
        moment <= tenancy.last && pool.is_some() && pool == departure.response_pool()
    }
}
