//! The usual causes of a breach, except those that its own datagrams refute.

use crate::case::Case;
use crate::content::due_peer;
use crate::order::is_seen_twice;
use crate::scene::{Scene, Way};
use crate::signed::{Unsigned, has_signed, why_unsigned};
use audit_model::{Rule, Sighting};
use audit_stun::numbers::attribute::{ERROR_CODE, EVEN_PORT, LIFETIME, XOR_RELAYED_ADDRESS};
use audit_stun::numbers::method::{ALLOCATE, REFRESH};
use audit_stun::{Message, address, error_code};
use explain_clients::{Owners, is_dtls};
use explain_frames::{GrantFrame, GrantSource};
use explain_text::{anchor, cause};
use std::alloc::{AllocError, Global};

/// The code of an error about an allocation (RFC 8656, section 19).
const MISMATCH: u16 = 437;

/// The line of a breach's causes.
pub fn cause_line(alloc: Global, rule: Rule, cause: &str) -> Result<String, AllocError> {
    let anchor = anchor(rule);
    format!(in alloc; "usual cause: {cause}; {anchor}")
}

/// The cause if a request is granted that no user signed (R2).
fn of_credentials(scene: &Scene<'_>) -> &'static str {
    match why_unsigned(scene) {
        Unsigned::NoMessage => cause(Rule::NotAuthentic),
        Unsigned::NoUser => "a server that asks for no credentials",
        Unsigned::UnknownUser =>
            "--creds was left out or lacks the user, another realm, or a server that asks for no credentials",
        Unsigned::NoNonce => "a server that accepts requests without a NONCE",
        Unsigned::OtherIntegrity => {
            if has_signed(scene) {
                "a server that accepts requests with a wrong MESSAGE-INTEGRITY"
            } else {
                "another password, or a server that asks for no credentials"
            }
        }
    }
}

/// The cause if there is no allocation (R4).
fn of_allocation(scene: &Scene<'_>) -> &'static str {
    let Some(ended) = scene.lane.ended().last() else {
        return "the capture began after the client's Allocate";
    };
    if ended.ending.method == REFRESH {
        "servers that relay on for a moment after a Refresh with LIFETIME 0 (coturn)"
    } else {
        cause(Rule::NoAllocation)
    }
}

/// Whether an Allocate success response grants an odd port of the relay ranges to a request with
/// EVEN-PORT.
fn is_odd(scene: &Scene<'_>, response: &Message<'_>) -> Option<bool> {
    let relayed = address(response.first(XOR_RELAYED_ADDRESS)?)?;
    let requests_even = scene.message_in()?.first(EVEN_PORT).is_some();
    let is_in_range = scene.case.intake.policy().relays(relayed);
    Some(is_in_range && requests_even && relayed.port % 2 == 1)
}

/// The cause if the relayed address is another one (R14).
fn of_relayed_address(scene: &Scene<'_>) -> &'static str {
    if scene.way() != Way::Response {
        return "the same data of another client: from before the capture, by TCP or TLS, or of a listen address that the policy lacks";
    }
    match scene.message_out() {
        Some(response) if is_odd(scene, &response) == Some(true) => "servers that ignore EVEN-PORT",
        _ => cause(Rule::RelayedAddress),
    }
}

/// The cause if an error response has another condition (R19). A restart loses allocations, so it
/// explains only a 437 that reports no allocation.
fn of_error(scene: &Scene<'_>) -> &'static str {
    let Some(response) = scene.message_out() else {
        return cause(Rule::ErrorCondition);
    };
    let code = error_code(response.first(ERROR_CODE).unwrap_or(&[])).unwrap_or(0);
    if code == MISMATCH && response.method() != ALLOCATE {
        cause(Rule::ErrorCondition)
    } else {
        "servers that send this error where they may not"
    }
}

/// The cause if the peer is another one (R12).
fn of_peer(scene: &Scene<'_>) -> &'static str {
    if due_peer(scene).is_some() {
        "servers that mix up peers"
    } else {
        "a request with a peer that can't be read"
    }
}

/// The cause if a lifetime doesn't fit its request (R15).
fn of_lifetime(scene: &Scene<'_>) -> &'static str {
    match scene.message_in() {
        Some(request) if matches!(request.first(LIFETIME), Some([0, 0, 0, 0])) =>
            "servers that answer a Refresh of 0 by another lifetime",
        _ => "servers that answer another request than a Refresh of 0 by LIFETIME 0",
    }
}

/// The cause if what leaves can't be parsed (R21).
fn of_bytes(scene: &Scene<'_>) -> &'static str {
    if scene.message_out().is_some() {
        "an attribute that is missing"
    } else {
        cause(Rule::Malformed)
    }
}

/// The cause if an arrival is acted on twice (S10).
fn of_second_act(scene: &Scene<'_>, place: u32) -> &'static str {
    match is_seen_twice(scene.lane.input(), place, scene.arrives, scene.leaves) {
        Some(true) => "one interface captured twice",
        Some(false) => "a request that was captured once and sent twice",
        None => cause(Rule::ActedTwice),
    }
}

/// The usual causes of an act that violates a rule.
pub fn cause_of_act(scene: &Scene<'_>, place: u32, rule: Rule) -> &'static str {
    match rule {
        Rule::NotAuthentic => of_credentials(scene),
        Rule::NoAllocation => of_allocation(scene),
        Rule::RelayedAddress => of_relayed_address(scene),
        Rule::ErrorCondition => of_error(scene),
        Rule::ActedTwice => of_second_act(scene, place),
        Rule::PeerDiffers => of_peer(scene),
        Rule::Lifetime => of_lifetime(scene),
        Rule::Malformed => of_bytes(scene),
        _ => cause(rule),
    }
}

/// Whether a client was granted the relayed address of a departure before it left.
fn is_granted_before(owners: &Owners<'_>, departure: &Sighting) -> bool {
    match owners.granted(departure.from) {
        Some(grant) => grant.stamp <= departure.hi,
        None => false,
    }
}

/// The usual causes of a departure that no act sends (S1, S11). They are empty if it leaves a
/// relayed address that no client was granted over UDP: a frame that isn't judged may grant it.
pub fn cause_of_departure(
    case: Case<'_>,
    owners: &Owners<'_>,
    departure: &Sighting,
    rule: Rule,
) -> &'static str {
    if owners.misdelivery(departure).is_some() {
        return "servers that mix up clients";
    }
    if owners.sent_by_client(departure).is_some() {
        return "two clients that relay to each other inside the host, or the relay side wasn't captured";
    }
    if case.intake.policy().listens(departure.from) {
        if is_dtls(departure.payload.as_slice()) {
            return "clients by DTLS";
        }
        return cause(rule);
    }
    if is_granted_before(owners, departure) {
        return "a capture of the clients' side that ended earlier or lacks an interface, clocks that differ by more than skew-us, or the host's own traffic from a relay port";
    }
    ""
}

/// The usual causes of a departure from a relayed address, by the frame that grants the address and
/// isn't judged.
pub fn cause_by_frame(frame: Option<GrantFrame>, rule: Rule) -> &'static str {
    let Some(frame) = frame else {
        return cause(rule);
    };
    match frame.source {
        GrantSource::Elsewhere(_) => "clients by TCP, TLS or IPv6",
        GrantSource::Unlisted { .. } => "a listen address that the policy lacks",
    }
}
