//! The moves of an extension in the order of time. No claim depends on it: the machine refuses a
//! move that is out of order.

use audit_machine::Action;
use audit_model::{Addr, At, Event, Extension, Pair};
use std::alloc::{AllocError, Global};

/// A move, and its place among all moves.
#[derive(Clone, Copy)]
struct Placed {
    at: At,
    action: Action,
}

/// The move of an event of a lane.
fn action_of(pair: Pair, event: Event) -> Action {
    match event {
        Event::In { sight, key } => Action::Arrive {
            sight,
            moment: key.moment,
        },
        Event::Act { sight, gives, key } => Action::Act {
            pair,
            arrival: sight,
            departure: gives,
            moment: key.moment,
        },
        Event::Out { sight, key } => Action::Leave {
            sight,
            moment: key.moment,
        },
    }
}

/// The moves of the events, each with its place; those of a lane that isn't there are left out.
fn moves_of_events(
    alloc: Global,
    lanes: &[(Addr, Addr)],
    events: &[(u32, Event)],
) -> Result<Vec<Placed>, AllocError> {
    let mut moves = Vec::with_capacity(alloc, events.len())?;
    let mut place = 0u32;
    for (lane, event) in events {
        if let Some((client, listen)) = lanes.get(*lane as usize).copied() {
            let at = At {
                key: event.key(),
                lane: *lane,
                place,
            };
            let action = action_of(Pair { client, listen }, *event);
            moves.push(Placed { at, action })?;
        }
        place = place.saturating_add(1);
    }
    Ok(moves)
}

/// The moves of an extension by moment, tie and lane. The lanes are all of the finder's. It takes
/// n log n time.
pub(crate) fn moves_of(
    alloc: Global,
    lanes: &[(Addr, Addr)],
    extension: &Extension,
) -> Result<Vec<Action>, AllocError> {
    let mut moves = moves_of_events(alloc, lanes, extension.events.as_slice())?;
    let mut place = 0u32;
    for dropped in extension.drops.as_slice() {
        let at = At {
            key: dropped.key,
            lane: u32::MAX,
            place,
        };
        let action = Action::Arrive {
            sight: dropped.sight,
            moment: dropped.key.moment,
        };
        moves.push(Placed { at, action })?;
        place = place.saturating_add(1);
    }
    moves.sort_unstable_by_key(|placed| placed.at);
    let mut actions = Vec::with_capacity(alloc, moves.len())?;
    for placed in moves {
        actions.push(placed.action)?;
    }
    Ok(actions)
}
