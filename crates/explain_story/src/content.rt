//! Lines with the content of the datagrams of a breach, next to what was expected.

use crate::line::Story;
use crate::scene::{Scene, Way};
use crate::signed::{Unsigned, add_signed, why_unsigned};
use audit_model::{Addr, Rule};
use audit_stun::numbers::attribute::{
    EVEN_PORT, LIFETIME, MESSAGE_INTEGRITY, MESSAGE_INTEGRITY_SHA256, REALM,
    REQUESTED_ADDRESS_FAMILY, REQUESTED_TRANSPORT, USERNAME, XOR_MAPPED_ADDRESS,
    XOR_RELAYED_ADDRESS,
};
use audit_stun::{Message, address};
use explain_text::{AttributeBytes, BytesAround, FirstBytes, MethodWord, Quoted};
use std::alloc::{AllocError, Global};

/// The line about a request that no user signed.
fn of_credentials(alloc: Global, scene: &Scene<'_>) -> Result<String, AllocError> {
    let Some(asked) = scene.message_in() else {
        return String::from_str(alloc, "  it is no STUN message");
    };
    let (Some(user), Some(realm)) = (asked.first(USERNAME), asked.first(REALM)) else {
        return String::from_str(
            alloc,
            "  the request isn't signed: it names no user and realm",
        );
    };
    let user = Quoted { bytes: user };
    let realm = Quoted { bytes: realm };
    let why = match why_unsigned(scene) {
        Unsigned::UnknownUser => "who isn't among the users that were given",
        Unsigned::NoNonce => "and has no NONCE",
        _ =>
            "who is among the users that were given, but the integrity isn't that of the password there",
    };
    format!(in alloc; "  the request names user \"{user}\" of realm \"{realm}\", {why}")
}

/// The line about a response that doesn't answer its request.
fn of_answer(alloc: Global, scene: &Scene<'_>) -> Result<String, AllocError> {
    let (Some(asked), Some(told)) = (scene.message_in(), scene.message_out()) else {
        return String::from_str(alloc, "  not both of them are STUN messages");
    };
    let method = MethodWord {
        method: asked.method(),
    };
    let other = MethodWord {
        method: told.method(),
    };
    let ids = if asked.tid() == told.tid() {
        "one transaction id"
    } else {
        "two transaction ids"
    };
    format!(in alloc; "  {method} arrived, {other} left, with {ids}")
}

/// The expected peer: the peer to which the client's channel is bound, or which the message on the
/// client's side names.
pub fn due_peer(scene: &Scene<'_>) -> Option<Addr> {
    if scene.way() != Way::Response {
        if let Some(number) = scene.channel() {
            let channels = &scene.lane.table().allocation()?.channels;
            return Some(channels.get(number)?.peer);
        }
    }
    scene.named_peer()
}

/// The line about a peer.
fn of_peer(alloc: Global, scene: &Scene<'_>) -> Result<String, AllocError> {
    let Some(named) = due_peer(scene) else {
        return String::from_str(alloc, "  no peer is named that can be read");
    };
    match scene.way() {
        Way::Up => {
            let to = scene.leaves.to;
            format!(in alloc; "  due to {named}, the datagram left to {to}")
        }
        Way::Down => {
            let from = scene.arrives.from;
            format!(in alloc;
                "  the datagram came from {from}, the message to the client names {named}"
            )
        }
        Way::Response => format!(in alloc; "  the request names {named}"),
    }
}

/// The data that arrived and the data that left.
fn both_data<'s>(scene: &Scene<'s>) -> (&'s [u8], &'s [u8]) {
    let clients = scene.clients_data().unwrap_or(&[]);
    match scene.way() {
        Way::Down => (scene.arrives.payload.as_slice(), clients),
        Way::Up | Way::Response => (clients, scene.leaves.payload.as_slice()),
    }
}

/// The index of the first byte that differs.
fn first_difference(one: &[u8], other: &[u8]) -> usize {
    for (at, (byte, next)) in one.iter().zip(other.iter()).enumerate() {
        if byte != next {
            return at;
        }
    }
    one.len().min(other.len())
}

/// The line about the first difference between the data, with the bytes around it.
fn of_difference(alloc: Global, scene: &Scene<'_>) -> Result<String, AllocError> {
    let (came, left) = both_data(scene);
    let at = first_difference(came, left);
    let from = BytesAround::begin(at);
    let came = BytesAround { bytes: came, at };
    let left = BytesAround { bytes: left, at };
    format!(in alloc;
        "  first difference at byte {at}, counted from 0; from byte {from} on: came {came}, left {left}"
    )
}

/// The line about data.
fn of_data(alloc: Global, scene: &Scene<'_>) -> Result<String, AllocError> {
    let clients = FirstBytes {
        bytes: scene.clients_data().unwrap_or(&[]),
    };
    match scene.way() {
        Way::Down => {
            let came = FirstBytes {
                bytes: scene.arrives.payload.as_slice(),
            };
            format!(in alloc; "  came {came}, left {clients}")
        }
        Way::Up | Way::Response => {
            let left = FirstBytes {
                bytes: scene.leaves.payload.as_slice(),
            };
            format!(in alloc; "  came {clients}, left {left}")
        }
    }
}

/// The line about the relayed address of an Allocate success response.
fn of_granted_address(
    alloc: Global,
    scene: &Scene<'_>,
    told: &Message<'_>,
) -> Result<String, AllocError> {
    let Some(relayed) = told.first(XOR_RELAYED_ADDRESS) else {
        return String::from_str(alloc, "  the response has no XOR-RELAYED-ADDRESS");
    };
    let Some(relayed) = address(relayed) else {
        return String::from_str(alloc, "  the XOR-RELAYED-ADDRESS isn't IPv4");
    };
    if !scene.case.intake.policy().relays(relayed) {
        return format!(in alloc; "  granted {relayed}, which is in no relay range of the policy");
    }
    let asks_even = match scene.message_in() {
        Some(asked) => asked.first(EVEN_PORT).is_some(),
        None => false,
    };
    if asks_even && relayed.port % 2 == 1 {
        return format!(in alloc; "  granted {relayed}, and EVEN-PORT requests an even port");
    }
    format!(in alloc; "  granted {relayed}")
}

/// The line about a relayed address.
fn of_relayed(alloc: Global, scene: &Scene<'_>) -> Result<String, AllocError> {
    match scene.way() {
        Way::Up => {
            let from = scene.leaves.from;
            format!(in alloc; "  the datagram left from {from}")
        }
        Way::Down => {
            let to = scene.arrives.to;
            format!(in alloc; "  the datagram came to {to}")
        }
        Way::Response => match scene.message_out() {
            Some(told) => of_granted_address(alloc, scene, &told),
            None => String::from_str(alloc, "  what left is no STUN message"),
        },
    }
}

/// The line about an attribute of the request and the same attribute of the response.
fn of_both(alloc: Global, scene: &Scene<'_>, name: &str, kind: u16) -> Result<String, AllocError> {
    let (Some(asked), Some(told)) = (scene.message_in(), scene.message_out()) else {
        return String::from_str(alloc, "  not both of them are STUN messages");
    };
    let asked = AttributeBytes {
        value: asked.first(kind),
    };
    let told = AttributeBytes {
        value: told.first(kind),
    };
    format!(in alloc; "  the request has {name} {asked}, the response {told}")
}

/// The line about the requested transport.
fn of_transport(alloc: Global, scene: &Scene<'_>) -> Result<String, AllocError> {
    let Some(asked) = scene.message_in() else {
        return String::from_str(alloc, "  it is no STUN message");
    };
    let transport = AttributeBytes {
        value: asked.first(REQUESTED_TRANSPORT),
    };
    let family = AttributeBytes {
        value: asked.first(REQUESTED_ADDRESS_FAMILY),
    };
    format!(in alloc;
        "  the request has REQUESTED-TRANSPORT {transport} (UDP is 0x11000000), REQUESTED-ADDRESS-FAMILY {family} (IPv4 is 0x01000000)"
    )
}

/// The line about a mapped address.
fn of_mapped(alloc: Global, scene: &Scene<'_>) -> Result<String, AllocError> {
    let client = scene.lane.input().client();
    let told = match scene.message_out() {
        Some(told) => told.first(XOR_MAPPED_ADDRESS),
        None => None,
    };
    let Some(mapped) = told else {
        return String::from_str(alloc, "  the response has no XOR-MAPPED-ADDRESS");
    };
    match address(mapped) {
        Some(mapped) => format!(in alloc;
            "  XOR-MAPPED-ADDRESS is {mapped}, the client is {client}"
        ),
        None => format!(in alloc; "  XOR-MAPPED-ADDRESS isn't IPv4, the client is {client}"),
    }
}

/// The line about the integrity of a success response.
fn of_integrity(alloc: Global, scene: &Scene<'_>) -> Result<String, AllocError> {
    let Some(told) = scene.message_out() else {
        return String::from_str(alloc, "  it is no STUN message");
    };
    let sha1 = AttributeBytes {
        value: told.first(MESSAGE_INTEGRITY),
    };
    let sha256 = AttributeBytes {
        value: told.first(MESSAGE_INTEGRITY_SHA256),
    };
    format!(in alloc; "  MESSAGE-INTEGRITY {sha1}, MESSAGE-INTEGRITY-SHA256 {sha256}")
}

/// The line about a channel number.
fn of_number(alloc: Global, scene: &Scene<'_>) -> Result<String, AllocError> {
    match scene.channel() {
        Some(number) => format!(in alloc; "  the request has channel 0x{number:04X}"),
        None => String::from_str(alloc, "  no channel is named that can be read"),
    }
}

/// The line about a departure that can't be parsed.
fn of_bytes(alloc: Global, scene: &Scene<'_>) -> Result<String, AllocError> {
    let left = FirstBytes {
        bytes: scene.leaves.payload.as_slice(),
    };
    format!(in alloc; "  left {left}")
}

/// Adds the content of the datagrams, if the rule is about content.
pub fn add_content(scene: &Scene<'_>, rule: Rule, story: &mut Story) -> Result<(), AllocError> {
    let alloc = story.alloc();
    let words = match rule {
        Rule::NotAnAnswer => of_answer(alloc, scene)?,
        Rule::NotAuthentic => of_credentials(alloc, scene)?,
        Rule::ChannelNumber => of_number(alloc, scene)?,
        Rule::PeerDiffers => of_peer(alloc, scene)?,
        Rule::DataDiffers => of_data(alloc, scene)?,
        Rule::RelayedAddress => of_relayed(alloc, scene)?,
        Rule::Lifetime => of_both(alloc, scene, "LIFETIME", LIFETIME)?,
        Rule::TransportOrFamily => of_transport(alloc, scene)?,
        Rule::MappedAddress => of_mapped(alloc, scene)?,
        Rule::ResponseIntegrity => of_integrity(alloc, scene)?,
        Rule::Malformed => of_bytes(alloc, scene)?,
        _ => return Ok(()),
    };
    story.say(words)?;
    if rule == Rule::DataDiffers {
        story.say(of_difference(alloc, scene)?)?;
    }
    if rule == Rule::NotAuthentic {
        add_signed(scene, story)?;
    }
    Ok(())
}
