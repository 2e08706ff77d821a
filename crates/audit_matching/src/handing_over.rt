//! Relayed addresses that are granted to one client after another.

use crate::edges::Edges;
use audit_known::{Changes, Handover, Matches, Times};
use audit_model::Addr;
use audit_seen::{Content, LaneNumber, Says, SeenNumber, Sights};
use std::alloc::{AllocError, Global};

/// The most swaps of an allocation with others that can't have ended before it.
const SWAPS: usize = 8;

/// An allocation of an address, with the responses that granted and that deleted it.
#[derive(Clone, Copy)]
struct Holding {
    relayed: Addr,
    lane: LaneNumber,
    maker: SeenNumber,
    ender: Option<SeenNumber>,
}

/// The facts from which handovers are found.
#[derive(Clone, Copy)]
struct Facts<'a> {
    sights: &'a Sights,
    matches: &'a Matches,
}

impl Facts<'_> {
    /// Whether one allocation may have ended before another one began.
    fn may(&self, first: &Holding, second: &Holding) -> bool {
        if first.lane == second.lane {
            return true;
        }
        let request = match first.ender {
            Some(ender) => self.matches.of(ender),
            None => None,
        };
        let lo = match request {
            Some(request) => self.sights.get(request).map(|seen| seen.first_moment()),
            None => None,
        };
        match (lo, self.sights.get(second.maker)) {
            (Some(lo), Some(next)) => lo <= next.last_moment(),
            _ => false,
        }
    }
}

/// The handovers of all relayed addresses. The allocations of each are put into a possible order,
/// if there is one close to that of the responses.
pub fn handovers(
    alloc: Global,
    sights: &Sights,
    times: &Times,
    matches: &Matches,
) -> Result<Vec<Handover>, AllocError> {
    let facts = Facts { sights, matches };
    let mut holdings = holdings(alloc, facts, times)?;
    for place in 0..holdings.len() {
        settle(facts, &mut holdings, place);
    }
    let mut found = Vec::new(alloc);
    for pair in holdings.windows(2) {
        if let [first, second] = pair {
            if first.relayed == second.relayed && first.lane != second.lane {
                found.push(Handover::new(first.lane, first.maker, first.ender, second.maker))?;
            }
        }
    }
    Ok(found)
}

/// The allocations of each address, in the order of the responses.
fn holdings(alloc: Global, facts: Facts<'_>, times: &Times) -> Result<Vec<Holding>, AllocError> {
    let changes = Changes::gather(alloc, facts.sights, times)?;
    let mut found = Vec::new(alloc);
    let mut last = None;
    for made in changes.made() {
        let (relayed, maker) = (made.relayed(), made.number());
        let Some(seen) = facts.sights.get(maker) else {
            continue;
        };
        let (Some(lane), Says::Departure(Content::Allocated { .. }, pool)) = (
            seen.lane(),
            seen.says(),
        ) else {
            continue;
        };
        if last != Some((relayed, pool)) {
            let ender = changes.end_after(lane, made.when());
            found.push(Holding {
                relayed,
                lane,
                maker,
                ender: ender.filter(|ender| facts.matches.of(*ender).is_some()),
            })?;
        }
        last = Some((relayed, pool));
    }
    Ok(found)
}

/// Moves an allocation before those that can't have ended before it and before which it can have
/// ended.
fn settle(facts: Facts<'_>, holdings: &mut [Holding], place: usize) {
    for back in 0..SWAPS {
        let (Some(before), Some(here)) = (
            place.checked_sub(back.saturating_add(1)),
            place.checked_sub(back),
        ) else {
            return;
        };
        let (Some(first), Some(second)) = (holdings.get(before), holdings.get(here)) else {
            return;
        };
        let is_one = first.relayed == second.relayed;
        if !is_one || facts.may(first, second) || !facts.may(second, first) {
            return;
        }
        holdings.swap(before, here);
    }
}

/// Adds the requirement that the Refresh that deletes an allocation comes before the next client
/// gets the address.
pub fn require_handovers(
    sights: &Sights,
    handovers: &[Handover],
    matches: &Matches,
    edges: &mut Edges,
) -> Result<(), AllocError> {
    for handover in handovers {
        let request = match handover.ender() {
            Some(ender) => matches.of(ender),
            None => None,
        };
        if let Some(request) = request {
            if let (Some(asks), Some(next)) = (sights.get(request), sights.get(handover.next())) {
                if asks.first_moment() <= next.last_moment() && !asks.is_after(next) {
                    edges.require(request, handover.next())?;
                }
            }
        }
    }
    Ok(())
}
