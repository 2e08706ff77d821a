//! The search of each lane whose input changed, one by one or by threads.

use crate::lane_search::{Allowance, search_lane};
use audit_constraints::{AllSearched, Searched};
use audit_search_input::SearchInput;
use audit_seen::LaneNumber;
use std::alloc::AllocError;
use std::thread;
use std::thread::Threads;

/// Searches each lane whose fingerprint isn't that of its last search.
pub(crate) fn search(
    searched: &mut AllSearched,
    input: &SearchInput<'_>,
    allowance: Allowance,
) -> Result<(), AllocError> {
    searched.make_places(input)?;
    for (number, place) in searched.places().iter_mut().enumerate() {
        search_into(input, allowance, number, place);
    }
    searched.all_are_there()
}

/// The same, by at most this number of threads. The result is the same for every number of them.
pub(crate) fn search_by<R: Threads + Sync>(
    rt: &R,
    workers: u32,
    searched: &mut AllSearched,
    input: &SearchInput<'_>,
    allowance: Allowance,
) -> Result<(), AllocError> {
    searched.make_places(input)?;
    thread::for_each_mut(
        rt,
        searched.places(),
        workers.max(1) as usize,
        &|number, place| search_into(input, allowance, number, place),
    );
    searched.all_are_there()
}

/// Searches a lane, unless its fingerprint is that of its last search.
fn search_into(
    input: &SearchInput<'_>,
    allowance: Allowance,
    number: usize,
    place: &mut Option<Searched>,
) {
    let Ok(lane) = u32::try_from(number) else {
        return;
    };
    let lane = LaneNumber::new(lane);
    let fingerprint = input.views().fingerprint(lane);
    let (is_known, before) = match place {
        Some(searched) => (searched.fingerprint() == fingerprint, searched.steps()),
        None => (false, 0),
    };
    if !is_known {
        *place = match searched_of(input, allowance, lane, before) {
            Ok(searched) => Some(searched),
            Err(_) => None,
        };
    }
}

/// Searches a lane whose earlier searches took this number of steps.
fn searched_of(
    input: &SearchInput<'_>,
    allowance: Allowance,
    lane: LaneNumber,
    before: u64,
) -> Result<Searched, AllocError> {
    let (found, steps) = search_lane(input, allowance, lane)?;
    Searched::of(input, lane, found, before.saturating_add(steps))
}
