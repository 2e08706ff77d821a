//! The moment at which each sighting is placed.

use crate::edges::Edges;
use audit_seen::{SeenNumber, Sights};
use std::alloc::{AllocError, Global};

/// The moment at which each sighting is placed: an arrival at its least moment, a departure as late
/// as its window, the next departure on its interface, and the hold after its match permit.
pub fn places(
    alloc: Global,
    sights: &Sights,
    edges: &Edges,
    low: &[u64],
    hold: u64,
) -> Result<Vec<u64>, AllocError> {
    let mut at: Vec<u64> = Vec::from_slice(alloc, low)?;
    let mut behind: Option<(u32, u64)> = None;
    for (place, seen) in sights.as_slice().iter().enumerate().rev() {
        let least = low.get(place).copied().unwrap_or(0);
        let next = match behind {
            Some((iface, next)) if iface == seen.id().iface => next,
            _ => u64::MAX,
        };
        let moment = if seen.arrives() {
            least
        } else {
            let matched = edges.matches().as_slice().get(place).copied().flatten();
            let held = matched.map_or(u64::MAX, |matched| held_until(low, matched, hold));
            seen.last_moment().min(next).min(held).max(least)
        };
        if let Some(place) = at.get_mut(place) {
            *place = moment;
        }
        behind = Some((seen.id().iface, moment));
    }
    Ok(at)
}

/// The last moment at which the response to an arrival may leave.
fn held_until(low: &[u64], arrival: SeenNumber, hold: u64) -> u64 {
    low.get(arrival.index())
        .copied()
        .unwrap_or(0)
        .saturating_add(hold)
}
