//! Arrivals that could have caused a departure, by their content.

use crate::case::Case;
use crate::line::{Line, Story};
use audit_model::{Certificate, Event, Side, SightId, Sighting};
use audit_stun::numbers::attribute::DATA;
use audit_stun::{Class, Message, channel_data, message};
use explain_clients::{Misdelivery, Owners, is_dtls};
use std::alloc::{AllocError, Global};

/// How many are printed.
const MOST: usize = 3;

/// An arrival, and how far its stamp is from the departure's.
#[derive(Clone, Copy, PartialEq, Eq, PartialOrd, Ord)]
struct Near {
    far: u64,
    sight: SightId,
}

/// What could have caused a departure.
#[derive(Drop)]
enum Cause<'a> {
    /// A client's request with the transaction id of this response.
    Request(Message<'a>),
    /// This data from a peer.
    OfPeer(&'a [u8]),
    /// This data from a client, in a Send indication or ChannelData.
    OfClient(&'a [u8]),
}

/// The data of ChannelData or of an indication.
fn data_in(payload: &[u8]) -> Option<&[u8]> {
    if let Some((_, data, _)) = channel_data(payload) {
        return Some(data);
    }
    let indication = message(payload)?;
    if indication.class() != Class::Indication {
        return None;
    }
    indication.first(DATA)
}

/// What could have caused a departure; `None` if nothing could.
fn cause_of<'a>(case: Case<'_>, departure: &'a Sighting) -> Option<Cause<'a>> {
    let payload = departure.payload.as_slice();
    if !case.intake.policy().listens(departure.from) {
        return Some(Cause::OfClient(payload));
    }
    if let Some(data) = data_in(payload) {
        return Some(Cause::OfPeer(data));
    }
    let response = message(payload)?;
    match response.class() {
        Class::Success | Class::Error => Some(Cause::Request(response)),
        Class::Request | Class::Indication => None,
    }
}

/// Whether an arrival is a request with the transaction id of a response.
fn requests(arrival: &Sighting, response: &Message<'_>) -> bool {
    match message(arrival.payload.as_slice()) {
        Some(request) => request.class() == Class::Request && request.tid() == response.tid(),
        None => false,
    }
}

/// Whether a datagram is such an arrival.
fn may_cause(case: Case<'_>, arrival: &Sighting, cause: &Cause<'_>) -> bool {
    if arrival.side != Side::Arrives {
        return false;
    }
    let is_clients = case.intake.policy().listens(arrival.to);
    let payload = arrival.payload.as_slice();
    match cause {
        Cause::Request(response) => is_clients && requests(arrival, response),
        Cause::OfPeer(data) => !is_clients && payload == *data,
        Cause::OfClient(data) => is_clients && data_in(payload) == Some(*data),
    }
}

/// Keeps the nearest.
fn keep(nearest: &mut Vec<Near>, near: Near) -> Result<(), AllocError> {
    nearest.push(near)?;
    nearest.sort()?;
    nearest.truncate(MOST);
    Ok(())
}

/// The nearest arrivals that could have caused a departure.
fn nearest_to(
    alloc: Global,
    case: Case<'_>,
    departure: &Sighting,
) -> Result<Vec<Near>, AllocError> {
    let mut nearest = Vec::new(alloc);
    let Some(cause) = cause_of(case, departure) else {
        return Ok(nearest);
    };
    for iface in 0..case.intake.interfaces() {
        for sighting in case.intake.interface(iface) {
            if may_cause(case, sighting, &cause) {
                let near = Near {
                    far: sighting.stamp.abs_diff(departure.stamp),
                    sight: sighting.id,
                };
                keep(&mut nearest, near)?;
            }
        }
    }
    Ok(nearest)
}

/// Whether an act of the certificate answers an arrival.
fn is_answered(certificate: &Certificate, arrival: SightId) -> bool {
    for lane in certificate.lanes.as_slice() {
        for event in lane.events.as_slice() {
            if let Event::Act { sight, .. } = event {
                if *sight == arrival {
                    return true;
                }
            }
        }
    }
    false
}

/// Why an arrival didn't cause a departure, if a reason is known.
fn reason(
    case: Case<'_>,
    misdelivery: Option<Misdelivery>,
    arrival: &Sighting,
    departure: &Sighting,
) -> &'static str {
    if departure.hi < arrival.lo {
        return "  too late: it came after this datagram had left";
    }
    if arrival.hi.saturating_add(case.intake.policy().hold) < departure.lo {
        return "  too early: it came more than hold-ms before";
    }
    if is_answered(case.certificate, arrival.id) {
        return "  used: another datagram answers it";
    }
    match misdelivery {
        Some(found) if found.arrival == arrival.id => "  in time, but for another client",
        _ => "  in time, and no datagram answers it in this order",
    }
}

/// Adds that the data of a departure was for another client, at whose relayed address it arrived.
fn add_misdelivery(
    departure: &Sighting,
    misdelivery: &Misdelivery,
    story: &mut Story,
) -> Result<(), AllocError> {
    let alloc = story.alloc();
    let relayed = misdelivery.grant.relayed;
    let client = misdelivery.grant.client;
    let receiver = departure.to;
    story.add(Line::UpTo {
        words: format!(in alloc;
            "  its data came to {relayed}, which was granted to {client} in "
        )?,
        sight: misdelivery.grant.sight,
        behind: String::new(alloc),
    })?;
    let who = if misdelivery.has_sent {
        "is another client"
    } else {
        "never sent anything to a listen address in these captures"
    };
    story.say(format!(in alloc; "  it left for {receiver}, which {who}")?)
}

/// Adds that another client sent the data of a departure.
fn add_other_client(sight: SightId, story: &mut Story) -> Result<(), AllocError> {
    let alloc = story.alloc();
    story.add(Line::UpTo {
        words: String::from_str(alloc, "  another client sent its data in ")?,
        sight,
        behind: String::from_str(
            alloc,
            ": data between two clients of the server isn't judged if it stays in the host",
        )?,
    })
}

/// Adds for which client the data of a departure was, if for another one, and the nearest arrivals
/// that could have caused the departure, with the reason why each didn't.
pub fn add_nearest(
    case: Case<'_>,
    owners: &Owners<'_>,
    departure: &Sighting,
    story: &mut Story,
) -> Result<(), AllocError> {
    let misdelivery = owners.misdelivery(departure);
    match (&misdelivery, owners.sent_by_client(departure)) {
        (Some(found), _) => add_misdelivery(departure, found, story)?,
        (None, Some(sight)) => add_other_client(sight, story)?,
        (None, None) => {}
    }
    let is_clients = case.intake.policy().listens(departure.from);
    if is_clients && is_dtls(departure.payload.as_slice()) {
        story.put("  it is a DTLS record: clients by DTLS aren't judged")?;
    }
    let nearest = nearest_to(story.alloc(), case, departure)?;
    if nearest.is_empty() {
        return story.put(
            "  no arrival in these captures has its data, or the transaction id of its request",
        );
    }
    story.put("the nearest arrivals that have its data, or the transaction id of its request:")?;
    for near in &nearest {
        story.show(near.sight)?;
        if let Some(arrival) = case.intake.sighting(near.sight) {
            story.put(reason(case, misdelivery, arrival, departure))?;
        }
    }
    Ok(())
}
