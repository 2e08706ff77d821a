//! One client's events in order, each with the client's leases before it.

use crate::case::Case;
use crate::leases::{channel_of, permission_of};
use crate::scene::{Scene, Way};
use audit_lane::{LaneEvent, LaneFault, LaneInput};
use audit_model::SightId;
use explain_frames::Frames;
use explain_state::{LaneAt, LeaseRow, lane_before};
use std::alloc::{AllocError, Global};

/// Events of a lane, by their indexes: `from` included, `to` excluded.
#[derive(Clone, Copy)]
pub struct Span {
    pub from: u32,
    pub to: u32,
}

/// The events around an index, or all.
pub fn span_of(input: &LaneInput<'_>, breach: Option<u32>, around: u32) -> Span {
    let count = input.events().len() as u32;
    match breach {
        Some(place) => Span {
            from: place.saturating_sub(around).min(count),
            to: place.saturating_add(around).saturating_add(1).min(count),
        },
        None => Span { from: 0, to: count },
    }
}

/// Requests the frames of an event's sightings.
fn request_event(frames: &mut Frames, event: &LaneEvent<'_>) -> Result<(), AllocError> {
    match event {
        LaneEvent::In { sighting, .. } => frames.request(sighting.id),
        LaneEvent::Out { sighting, .. } => frames.request(sighting.id),
        LaneEvent::Act {
            arrives,
            leaves,
            ..
        } => {
            frames.request(arrives.id)?;
            frames.request(leaves.id)
        }
    }
}

/// Requests the frames of events.
pub fn request_span(
    input: &LaneInput<'_>,
    span: Span,
    frames: &mut Frames,
) -> Result<(), AllocError> {
    let events = input
        .events()
        .get(span.from as usize..span.to as usize)
        .unwrap_or(&[]);
    for event in events {
        request_event(frames, event)?;
    }
    Ok(())
}

/// Which leases have not expired at an act: the allocation, the permission for its peer, and its
/// channel.
#[derive(Clone, Copy, Debug)]
pub struct Lasting {
    pub allocation: bool,
    pub permission: bool,
    pub channel: bool,
}

/// What happens at an event.
#[derive(Clone, Copy)]
pub enum Step {
    Arrives(SightId),
    Leaves(SightId),
    Act {
        arrives: SightId,
        leaves: SightId,
        way: Way,
        lasting: Lasting,
    },
}

/// An event of a lane.
#[derive(Clone, Copy)]
pub struct Rung {
    pub place: u32,
    /// Its moment in the certificate, in nanoseconds since 1970.
    pub moment: u64,
    /// The stamp of its datagram; of an act, the stamp of the departure.
    pub stamp: u64,
    /// Whether it is the lane's first breach.
    pub is_breach: bool,
    pub step: Step,
}

/// Whether a lease, with the grace, has not expired at an act.
fn lasts(scene: &Scene<'_>, row: Option<LeaseRow>) -> bool {
    match row {
        Some(row) => {
            let grace = scene.case.intake.policy().grace;
            scene.moment <= row.until.saturating_add(grace)
        }
        None => false,
    }
}

/// Which leases have not expired at an act.
fn what_lasts(scene: &Scene<'_>) -> Lasting {
    Lasting {
        allocation: lasts(scene, scene.lane.allocation()),
        permission: lasts(scene, permission_of(scene)),
        channel: lasts(scene, channel_of(scene)),
    }
}

/// The times of an event: its moment in the certificate, and the stamp of its datagram; of an act,
/// the stamp of the departure.
fn moments_of(event: &LaneEvent<'_>) -> (u64, u64) {
    match event {
        LaneEvent::In { sighting, key, .. } => (key.moment, sighting.stamp),
        LaneEvent::Out { sighting, key } => (key.moment, sighting.stamp),
        LaneEvent::Act { leaves, key, .. } => (key.moment, leaves.stamp),
    }
}

/// What happens at an event.
fn step_of(case: Case<'_>, lane: &LaneAt<'_>, event: &LaneEvent<'_>) -> Step {
    match event {
        LaneEvent::In { sighting, .. } => Step::Arrives(sighting.id),
        LaneEvent::Out { sighting, .. } => Step::Leaves(sighting.id),
        LaneEvent::Act {
            arrives,
            leaves,
            key,
        } => {
            let scene = Scene {
                case,
                lane,
                arrives,
                leaves,
                moment: key.moment,
            };
            Step::Act {
                arrives: arrives.id,
                leaves: leaves.id,
                way: scene.way(),
                lasting: what_lasts(&scene),
            }
        }
    }
}

/// Moves past an event; returns whether it could.
fn pass(lane: &mut LaneAt<'_>, place: u32) -> Result<bool, AllocError> {
    if place >= lane.len() {
        return Ok(false);
    }
    match lane.step(place) {
        Ok(()) => Ok(true),
        Err(LaneFault::Broken(_)) => Ok(false),
        Err(LaneFault::Memory) => Err(AllocError),
    }
}

/// The events of a lane. The leases are those before each event, up to the lane's first breach;
/// after the breach they aren't known, and those at the breach are shown.
pub fn rungs_of(
    alloc: Global,
    case: Case<'_>,
    input: &LaneInput<'_>,
    span: Span,
    breach: Option<u32>,
) -> Result<Vec<Rung>, AllocError> {
    let mut rungs = Vec::new(alloc);
    let Some(mut lane) = lane_before(alloc, input, span.from)? else {
        return Ok(rungs);
    };
    let mut goes_on = true;
    for place in span.from..span.to {
        if let Some(event) = input.events().get(place as usize) {
            let (moment, stamp) = moments_of(event);
            rungs.push(Rung {
                place,
                moment,
                stamp,
                is_breach: breach == Some(place),
                step: step_of(case, &lane, event),
            })?;
        }
        if goes_on {
            goes_on = pass(&mut lane, place)?;
        }
    }
    Ok(rungs)
}
