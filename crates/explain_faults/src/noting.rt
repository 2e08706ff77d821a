//! Notes about a fault: who has the relayed address, and for which client the data was.

use audit_faults::{Fault, ShownFault};
use audit_model::{Addr, SightId, Sighting};
use audit_sightings::Intake;
use explain_clients::{Misdelivery, Owners, is_dtls};
use explain_frames::{Frames, GrantSource};
use explain_text::Quoted;
use std::alloc::{AllocError, Global};

/// The facts from which notes are made.
#[derive(Drop)]
pub struct Notes<'a> {
    pub intake: &'a Intake,
    pub owners: Owners<'a>,
    /// With the frames that grant relayed addresses and aren't judged.
    pub frames: Frames,
    /// The names of the captures.
    pub captures: &'a [&'a str],
    /// The departure of the last fault, after whose note the report says what isn't checked.
    pub last: Option<SightId>,
}

/// The rules that no kind of fault covers, for the end of the report.
pub const NOT_CHECKED: &str =
    "not checked: a second departure for one arrival (S10), the user of an allocation (R3), its deletion or expiry (R4, R5), channels, allocations and relayed addresses in use (R11, R20, R22), a new allocation's relayed address, lifetime, transport and attributes (R14, R15, R16, R21), the integrity of responses (R18), when 437 or 441 is right (R19): turnexplain verdict judges by all rules\n";

/// The relayed address of a departure without a cause.
fn relayed_of(intake: &Intake, shown: &ShownFault) -> Option<Addr> {
    let sighting = intake.sighting(shown.sight)?;
    if shown.fault == Fault::Unasked && !intake.policy().listens(sighting.from) {
        Some(sighting.from)
    } else {
        None
    }
}

/// Requests the frames that grant the relayed addresses of faults and aren't judged.
pub fn request_frames(
    intake: &Intake,
    owners: &Owners<'_>,
    faults: &[ShownFault],
    frames: &mut Frames,
) -> Result<(), AllocError> {
    for shown in faults {
        if let Some(relayed) = relayed_of(intake, shown) {
            if owners.granted(relayed).is_none() {
                frames.look_for_grant(relayed)?;
            }
        }
    }
    Ok(())
}

/// Whether a fault's data was for another client, and the lines of its note; after the last fault
/// the note also lists the rules that aren't checked.
pub fn note_of(
    alloc: Global,
    notes: &Notes<'_>,
    shown: ShownFault,
) -> Result<(bool, String), AllocError> {
    let (is_misdelivered, mut text) = own_note(alloc, notes, shown)?;
    if notes.last == Some(shown.sight) {
        text.push_str(NOT_CHECKED)?;
    }
    Ok((is_misdelivered, text))
}

/// Whether a fault's data was for another client, and the lines about that fault alone.
fn own_note(
    alloc: Global,
    notes: &Notes<'_>,
    shown: ShownFault,
) -> Result<(bool, String), AllocError> {
    let Some(sighting) = notes.intake.sighting(shown.sight) else {
        return Ok((false, String::new(alloc)));
    };
    if let Some(found) = notes.owners.misdelivery(sighting) {
        return Ok((true, text_of_misdelivery(alloc, sighting, &found)?));
    }
    if shown.fault != Fault::Unasked {
        return Ok((false, String::new(alloc)));
    }
    let text = match relayed_of(notes.intake, &shown) {
        Some(relayed) => text_of_owner(alloc, notes, relayed)?,
        None => text_of_departure(alloc, notes, sighting)?,
    };
    Ok((false, text))
}

/// The line about for which client the data was.
fn text_of_misdelivery(
    alloc: Global,
    departure: &Sighting,
    found: &Misdelivery,
) -> Result<String, AllocError> {
    let relayed = found.grant.relayed;
    let client = found.grant.client;
    let SightId { iface, index } = found.grant.sight;
    let receiver = departure.to;
    let who = if found.has_sent {
        "is another client"
    } else {
        "never sent anything to a listen address in these captures"
    };
    format!(in alloc;
        "its data came to {relayed}, which datagram {iface}.{index} granted to {client}; {receiver} {who}\n"
    )
}

/// The line about who has a relayed address.
fn text_of_owner(alloc: Global, notes: &Notes<'_>, relayed: Addr) -> Result<String, AllocError> {
    if let Some(grant) = notes.owners.granted(relayed) {
        let client = grant.client;
        let SightId { iface, index } = grant.sight;
        return format!(in alloc; "datagram {iface}.{index} granted {relayed} to {client}\n");
    }
    let Some(frame) = notes.frames.grant_of(relayed) else {
        return format!(in alloc; "no client was granted {relayed} over UDP in these captures\n");
    };
    let name = notes.captures.get(usize::from(frame.file)).copied();
    let capture = Quoted {
        bytes: name.unwrap_or("?").as_bytes(),
    };
    let number = frame.number;
    match frame.source {
        GrantSource::Elsewhere(client) => format!(in alloc;
            "{capture} frame {number} grants {relayed} to {client}, a client that isn't judged\n"
        ),
        GrantSource::Unlisted { server, client } => format!(in alloc;
            "{capture} frame {number} of {server} grants {relayed} to {client}: the policy lacks {server}\n"
        ),
    }
}

/// The line about a departure to a client without a cause.
fn text_of_departure(
    alloc: Global,
    notes: &Notes<'_>,
    departure: &Sighting,
) -> Result<String, AllocError> {
    if is_dtls(departure.payload.as_slice()) {
        return String::from_str(
            alloc,
            "it is a DTLS record: clients by DTLS aren't judged\n",
        );
    }
    match notes.owners.sent_by_client(departure) {
        Some(SightId { iface, index }) => format!(in alloc;
            "another client sent its data in datagram {iface}.{index}: data between two clients of the server isn't judged if it stays in the host\n"
        ),
        None => Ok(String::new(alloc)),
    }
}
