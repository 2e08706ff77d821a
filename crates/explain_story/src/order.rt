//! Lines about an event in the wrong place of its lane: S9 to S13.

use crate::case::Case;
use crate::line::{Line, Story};
use crate::place::INTERFACES;
use crate::scene::Scene;
use audit_lane::{LaneEvent, LaneInput};
use audit_model::{SightId, Sighting};
use explain_frames::granted_address;
use explain_text::{Quoted, Seconds};
use std::alloc::{AllocError, Global};

/// The nanoseconds of a millisecond.
const MILLISECOND: u64 = 1_000_000;

/// Whether two datagrams are the same except for the interface.
fn is_double(one: &Sighting, other: &Sighting) -> bool {
    one.id.iface != other.id.iface
        && one.from == other.from
        && one.to == other.to
        && one.payload.as_slice() == other.payload.as_slice()
}

/// The act before an index that answered the same arrival, or sent the same departure.
fn earlier_act<'a>(
    input: &LaneInput<'a>,
    place: u32,
    arrives: SightId,
    leaves: SightId,
) -> Option<(&'a Sighting, &'a Sighting)> {
    for event in input.events().get(..place as usize)? {
        if let LaneEvent::Act {
            arrives: came,
            leaves: went,
            ..
        } = event
        {
            if came.id == arrives || went.id == leaves {
                return Some((*came, *went));
            }
        }
    }
    None
}

/// Whether a departure is that of an earlier act on the same arrival, seen on another interface;
/// `None` if there is no such act.
pub fn is_seen_twice(
    input: &LaneInput<'_>,
    place: u32,
    arrives: &Sighting,
    leaves: &Sighting,
) -> Option<bool> {
    let (_, went) = earlier_act(input, place, arrives.id, leaves.id)?;
    Some(is_double(went, leaves))
}

/// An interface, by its number in its capture and the capture's name.
fn interface_of(alloc: Global, case: Case<'_>, iface: u32) -> Result<String, AllocError> {
    let number = iface % INTERFACES;
    let name = case.captures.get((iface / INTERFACES) as usize).copied();
    let capture = Quoted {
        bytes: name.unwrap_or("?").as_bytes(),
    };
    format!(in alloc; "interface {number} of {capture}")
}

/// Adds what was answered twice (S10).
pub fn add_twice(scene: &Scene<'_>, place: u32, story: &mut Story) -> Result<(), AllocError> {
    let (arrives, leaves) = (scene.arrives, scene.leaves);
    let input = scene.lane.input();
    let Some((came, went)) = earlier_act(input, place, arrives.id, leaves.id) else {
        return Ok(());
    };
    story.put("answered before:")?;
    story.show(came.id)?;
    story.show(went.id)?;
    if is_double(went, leaves) {
        let alloc = story.alloc();
        let one = interface_of(alloc, scene.case, went.id.iface)?;
        let other = interface_of(alloc, scene.case, leaves.id.iface)?;
        story.say(format!(in alloc;
            "both departures are one datagram, seen on {one} and on {other}: one interface is captured twice"
        )?)?;
    }
    Ok(())
}

/// The moment of an arrival, in nanoseconds since 1970.
fn came_at(input: &LaneInput<'_>, sight: SightId) -> Option<u64> {
    for event in input.events() {
        if let LaneEvent::In { sighting, key, .. } = event {
            if sighting.id == sight {
                return Some(key.moment);
            }
        }
    }
    None
}

/// The arrival whose act sent a departure.
fn arrival_of(input: &LaneInput<'_>, leaves: SightId) -> Option<SightId> {
    for event in input.events() {
        if let LaneEvent::Act {
            arrives,
            leaves: went,
            ..
        } = event
        {
            if went.id == leaves {
                return Some(arrives.id);
            }
        }
    }
    None
}

/// Adds how long an arrival was held (S12).
pub fn add_held(
    case: Case<'_>,
    input: &LaneInput<'_>,
    arrives: SightId,
    moment: u64,
    story: &mut Story,
) -> Result<(), AllocError> {
    let Some(came) = came_at(input, arrives) else {
        return Ok(());
    };
    let alloc = story.alloc();
    let held = Seconds {
        nanoseconds: moment.saturating_sub(came),
    };
    let allowed = case.intake.policy().hold / MILLISECOND;
    story.say(format!(in alloc; "  held for {held}; hold-ms is {allowed}")?)
}

/// Adds how long the arrival of a departure was held (S12).
pub fn add_held_out(
    case: Case<'_>,
    input: &LaneInput<'_>,
    leaves: SightId,
    moment: u64,
    story: &mut Story,
) -> Result<(), AllocError> {
    let Some(arrives) = arrival_of(input, leaves) else {
        return Ok(());
    };
    story.show(arrives)?;
    add_held(case, input, arrives, moment, story)
}

/// The Allocate success response of an interface that granted the address from which a departure
/// left.
fn grant_on(case: Case<'_>, iface: u32, departure: &Sighting) -> Option<SightId> {
    for sighting in case.intake.interface(iface) {
        if granted_address(sighting.payload.as_slice()) == Some(departure.from) {
            return Some(sighting.id);
        }
    }
    None
}

/// An Allocate success response that granted the address from which a departure left.
fn grant_of(case: Case<'_>, departure: &Sighting) -> Option<SightId> {
    for iface in 0..case.intake.interfaces() {
        if let Some(sight) = grant_on(case, iface, departure) {
            return Some(sight);
        }
    }
    None
}

/// Adds to whom the address of a departure without a cause was granted (S1, S11).
pub fn add_owner(
    case: Case<'_>,
    departure: &Sighting,
    story: &mut Story,
) -> Result<(), AllocError> {
    let alloc = story.alloc();
    let from = departure.from;
    if case.intake.policy().listens(from) {
        return Ok(());
    }
    match grant_of(case, departure) {
        Some(sight) => story.add(Line::UpTo {
            words: format!(in alloc; "  {from} was granted to a client in ")?,
            sight,
            behind: String::new(alloc),
        }),
        None => {
            story.say(format!(in alloc;
                "  no client was granted {from} over UDP in these captures"
            )?)?;
            story.add(Line::GrantedElsewhere(from))
        }
    }
}
