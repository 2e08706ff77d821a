//! The input of one round's searches: the matches, the keys, and an order of all sightings.

use crate::first_keys::FirstKeys;
use crate::reading::Reading;
use crate::round::Round;
use crate::searched::AllSearched;
use audit_known::{Known, Placed, Tenancies};
use audit_matching::{
    Edges, RelayedLanes, handovers, lows, match_up, places, ranked, require_handovers,
};
use audit_search_input::{Deadlines, SearchInput, Shared, Viewed, Views};
use audit_search_state::{Constraint, Constraints};
use std::alloc::{AllocError, Global};

/// The input of one round's searches.
#[derive(Drop)]
pub struct Prepared {
    tenancies: Tenancies,
    relayed: RelayedLanes,
    edges: Edges,
    placed: Placed,
    views: Views,
    deadlines: Deadlines,
}

impl Prepared {
    /// Prepares a round under the constraints. It takes n log n.
    pub(crate) fn of(
        reading: &Reading<'_>,
        first: &FirstKeys,
        constraints: &Constraints,
    ) -> Result<Prepared, AllocError> {
        let alloc = reading.alloc();
        let sights = reading.sights();
        let hold = reading.policy().hold;
        let tenancies = first.tenancies(reading)?;
        let handovers = handovers(alloc, sights, first.times(), first.matches())?;
        let known = first.known(reading, &tenancies);
        let relayed = RelayedLanes::of(&known, &constraints.banned(alloc)?)?;
        let mut edges = edges_of(&known, &relayed, constraints)?;
        require_handovers(sights, &handovers, first.matches(), &mut edges)?;
        let low = lows(alloc, sights, &mut edges, constraints.shifts(), hold)?;
        let at = places(alloc, sights, &edges, &low, hold)?;
        let placed = Placed::new(ranked(alloc, sights, &edges, &low, &at)?, low, at);
        let deadlines = Deadlines::of(
            alloc,
            sights,
            &handovers,
            first.matches(),
            &placed,
            constraints,
        )?;
        let shared = Shared::of(alloc, &known, &handovers, first.matches())?;
        let viewed = Viewed::new(
            reading.captured(),
            known,
            &placed,
            edges.matches(),
            relayed.as_slice(),
            constraints,
            &shared,
        );
        let views = Views::of(alloc, &viewed)?;
        Ok(Prepared {
            tenancies,
            relayed,
            edges,
            placed,
            views,
            deadlines,
        })
    }

    /// The input of each lane's search.
    pub(crate) fn input<'a>(
        &'a self,
        reading: &'a Reading<'_>,
        first: &'a FirstKeys,
        constraints: &'a Constraints,
    ) -> SearchInput<'a> {
        SearchInput::new(
            reading.captured(),
            first.known(reading, &self.tenancies),
            &self.placed,
            &self.views,
            &self.deadlines,
            self.edges.matches(),
            constraints,
        )
    }

    /// The round, once all lanes are searched.
    pub fn round(self, alloc: Global, searched: &AllSearched) -> Result<Round, AllocError> {
        let acts = searched.acts(alloc, &self.placed)?;
        let faults = searched.faults(alloc)?;
        Ok(Round::new(self.placed, self.relayed, self.edges, acts, faults))
    }
}

/// The matches, with the answers and the orders of arrivals and departures that are constrained.
fn edges_of(
    known: &Known<'_>,
    relayed: &RelayedLanes,
    constraints: &Constraints,
) -> Result<Edges, AllocError> {
    let mut edges = Edges::of(known.alloc(), match_up(known, relayed.as_slice())?);
    for constraint in constraints.iter() {
        match constraint {
            Constraint::Answers { departure, arrival } => {
                edges.join_anew(*departure, *arrival);
            }
            Constraint::Before { arrival, departure } => edges.require(*arrival, *departure)?,
            _ => {}
        }
    }
    Ok(edges)
}
