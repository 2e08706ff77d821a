//! A lane whose search stopped at a departure, and the constraints that may help it.

mod answering;
mod ended;
mod leases;
mod needed;
mod within;

use audit_search_input::SearchInput;
use audit_search_state::{PoolRef, State, relayed_of};
use audit_seen::{LaneNumber, SeenNumber};
use std::alloc::AllocError;

/// How many arrivals of a pool are tried.
const EACH: usize = 2;

/// A lane whose search stopped at a departure.
#[derive(Clone, Copy)]
pub struct LaneSoFar<'a> {
    input: &'a SearchInput<'a>,
    number: LaneNumber,
    changes: &'a [(u32, SeenNumber)],
    state: &'a State,
}

impl<'a> LaneSoFar<'a> {
    /// A lane by its number, with the input of its search, its departures that change the table, by
    /// rank, and the state after its acts.
    pub fn new(
        input: &'a SearchInput<'a>,
        number: LaneNumber,
        changes: &'a [(u32, SeenNumber)],
        state: &'a State,
    ) -> LaneSoFar<'a> {
        LaneSoFar {
            input,
            number,
            changes,
            state,
        }
    }

    /// The departures before this one that change the table, by rank.
    pub(crate) fn changes_before(&self, departure: SeenNumber) -> &'a [(u32, SeenNumber)] {
        let rank = self.input.rank(departure);
        let behind = self.changes.partition_point(|change| change.0 < rank);
        self.changes.get(..behind).unwrap_or(&[])
    }

    /// The responses after a departure that change the table, aren't sent yet, and leave within the
    /// hold of it.
    pub(crate) fn pending_behind(
        &self,
        departure: SeenNumber,
    ) -> Result<Vec<SeenNumber>, AllocError> {
        self.input
            .pending_behind(self.changes, self.state, departure)
    }

    /// The pools that a departure may answer: those of the present allocation, those of the lane's
    /// other allocations, or any.
    pub(crate) fn any_pools(&self, departure: SeenNumber) -> Result<Vec<PoolRef>, AllocError> {
        let now = relayed_of(self.state.table());
        self.input.any_pools(self.number, departure, now)
    }
}
