//! The picture of a breach: the leases of its client, and the times of its datagrams.

use audit_lane::{LaneEvent, LaneInput};
use audit_model::{Breach, Sighting};
use explain_page::{BarKind, Mark};
use explain_state::{Ended, LaneAt, LeaseKind, LeaseRow, lane_before};
use explain_story::{Case, Lanes};
use explain_text::Ip;
use std::alloc::{AllocError, Global};

/// At most this number of datagrams is drawn.
const MOST_MARKS: usize = 2_000;

/// At most this number of leases is drawn.
const MOST_BARS: usize = 40;

/// At most this number of ended allocations is drawn: the last ones.
const MOST_ENDED: usize = 4;

/// A lease, as it is drawn. Moments are nanoseconds since 1970.
#[derive(Drop)]
pub struct DrawnLease {
    pub name: String,
    pub kind: BarKind,
    pub from: u64,
    pub until: u64,
}

/// The drawing of a client.
#[derive(Drop)]
pub struct Drawing {
    pub leases: Vec<DrawnLease>,
    pub marks: Vec<Mark>,
    /// The least and the greatest stamp of its datagrams.
    pub first: u64,
    pub last: u64,
}

/// The name of a lease.
fn name_of(alloc: Global, kind: LeaseKind) -> Result<String, AllocError> {
    match kind {
        LeaseKind::Allocation { relayed } => format!(in alloc; "allocation {relayed}"),
        LeaseKind::Permission { ip } => {
            let ip = Ip { ip };
            format!(in alloc; "permission {ip}")
        }
        LeaseKind::Channel { number, peer } => {
            format!(in alloc; "channel 0x{number:04X} to {peer}")
        }
    }
}

/// A lease whose act has its request in the captures.
fn drawn(alloc: Global, case: Case<'_>, row: &LeaseRow) -> Result<Option<DrawnLease>, AllocError> {
    let Some(request) = case.intake.sighting(row.made.arrives) else {
        return Ok(None);
    };
    Ok(Some(DrawnLease {
        name: name_of(alloc, row.kind)?,
        kind: BarKind::Lasting,
        from: request.stamp,
        until: row.until,
    }))
}

/// An ended allocation whose act has its response in the captures.
fn drawn_ended(
    alloc: Global,
    case: Case<'_>,
    ended: &Ended,
) -> Result<Option<DrawnLease>, AllocError> {
    let (Some(request), Some(response)) = (
        case.intake.sighting(ended.made.arrives),
        case.intake.sighting(ended.ending.leaves),
    ) else {
        return Ok(None);
    };
    let relayed = ended.relayed;
    Ok(Some(DrawnLease {
        name: format!(in alloc; "allocation {relayed}")?,
        kind: BarKind::Ended,
        from: request.stamp,
        until: response.stamp.min(ended.until),
    }))
}

/// Adds a lease, unless the maximum is reached.
fn add_lease(
    alloc: Global,
    case: Case<'_>,
    row: &LeaseRow,
    leases: &mut Vec<DrawnLease>,
) -> Result<(), AllocError> {
    if leases.len() >= MOST_BARS {
        return Ok(());
    }
    if let Some(lease) = drawn(alloc, case, row)? {
        leases.push(lease)?;
    }
    Ok(())
}

/// The last ended allocations, and the present leases of a client.
fn leases_of(
    alloc: Global,
    case: Case<'_>,
    lane: &LaneAt<'_>,
) -> Result<Vec<DrawnLease>, AllocError> {
    let mut leases = Vec::new(alloc);
    let earlier = lane.ended().len().saturating_sub(MOST_ENDED);
    for ended in lane.ended().get(earlier..).unwrap_or(&[]) {
        if let Some(lease) = drawn_ended(alloc, case, ended)? {
            leases.push(lease)?;
        }
    }
    if let Some(row) = lane.allocation() {
        add_lease(alloc, case, &row, &mut leases)?;
    }
    for row in &lane.channels(alloc)? {
        add_lease(alloc, case, row, &mut leases)?;
    }
    for row in &lane.permissions(alloc)? {
        add_lease(alloc, case, row, &mut leases)?;
    }
    Ok(leases)
}

/// The datagram of an `in` or `out` event.
fn datagram_of<'a>(event: &LaneEvent<'a>) -> Option<&'a Sighting> {
    match event {
        LaneEvent::In { sighting, .. } | LaneEvent::Out { sighting, .. } => Some(*sighting),
        LaneEvent::Act { .. } => None,
    }
}

/// The drawing of a breach's client; `None` if its lane can't be replayed up to the breach.
pub fn drawing_of(
    alloc: Global,
    case: Case<'_>,
    input: &LaneInput<'_>,
    breach: &Breach,
) -> Result<Option<Drawing>, AllocError> {
    let Some(lane) = lane_before(alloc, input, breach.at.place)? else {
        return Ok(None);
    };
    let mut drawing = Drawing {
        leases: leases_of(alloc, case, &lane)?,
        marks: Vec::new(alloc),
        first: u64::MAX,
        last: 0,
    };
    let step = input.events().len() / MOST_MARKS;
    for (place, event) in input.events().iter().enumerate() {
        if let Some(sighting) = datagram_of(event) {
            drawing.first = drawing.first.min(sighting.stamp);
            drawing.last = drawing.last.max(sighting.stamp);
            let is_breach = sighting.id == breach.sight;
            if is_breach || place % (step + 1) == 0 {
                drawing.marks.push(Mark {
                    moment: sighting.stamp,
                    is_breach,
                })?;
            }
        }
    }
    Ok(Some(drawing))
}
