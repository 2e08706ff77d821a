//! Parses a payload between a client and the server.

use crate::record::{Content, Records, Stun};
use audit_stun::numbers::attribute::{
    CHANNEL_NUMBER, DATA, ERROR_CODE, LIFETIME, XOR_PEER_ADDRESS, XOR_RELAYED_ADDRESS,
};
use audit_stun::numbers::method;
use audit_stun::{Class, Message, address, channel_data, error_code, message};
use std::alloc::AllocError;
use std::hash::{DefaultHasher, Hasher};

/// A digest of data. Two data with one digest, even if made on purpose, change only proposals.
fn digest_of(data: &[u8]) -> u64 {
    let mut hasher = DefaultHasher::new();
    hasher.write(data);
    hasher.finish()
}

/// The kind of a payload, with its data.
#[derive(Clone, Copy)]
pub(crate) struct Read {
    pub(crate) content: Content,
    pub(crate) digest: u64,
    /// The number of data bytes, saturated at 16 bits.
    pub(crate) length: u16,
}

impl Read {
    /// No data.
    pub(crate) fn without_data(content: Content) -> Self {
        Read {
            content,
            digest: 0,
            length: 0,
        }
    }

    /// A DTLS record. Instead of a digest it has the record's type (RFC 9147, section 4).
    fn of_record(payload: &[u8]) -> Self {
        let kind = match payload {
            [first, ..] => *first,
            [] => 0,
        };
        Read {
            content: Content::Dtls,
            digest: u64::from(kind),
            length: u16::try_from(payload.len()).unwrap_or(u16::MAX),
        }
    }

    /// This data.
    pub(crate) fn of_data(content: Content, data: &[u8]) -> Self {
        Read {
            content,
            digest: digest_of(data),
            length: u16::try_from(data.len()).unwrap_or(u16::MAX),
        }
    }
}

/// The kind of a payload. A request or response is added to `all`.
pub(crate) fn read_payload(
    payload: &[u8],
    is_dtls: bool,
    all: &mut Records,
) -> Result<Read, AllocError> {
    if is_dtls {
        return Ok(Read::of_record(payload));
    }
    if let Some((number, data, _)) = channel_data(payload) {
        return Ok(Read::of_data(Content::Channel { number }, data));
    }
    let Some(message) = message(payload) else {
        return Ok(Read::without_data(Content::Other));
    };
    match message.class() {
        Class::Indication => Ok(of_indication(&message)),
        _ => Ok(Read::without_data(of_message(&message, all)?)),
    }
}

fn of_indication(message: &Message<'_>) -> Read {
    let method = message.method();
    if method != method::SEND && method != method::DATA {
        return Read::without_data(Content::Other);
    }
    let peer = match message.first(XOR_PEER_ADDRESS) {
        Some(value) => address(value),
        None => None,
    };
    let content = Content::Data { peer };
    match message.first(DATA) {
        Some(data) => Read::of_data(content, data),
        None => Read::of_data(content, b""),
    }
}

fn of_message(message: &Message<'_>, all: &mut Records) -> Result<Content, AllocError> {
    let peers_from = count_in(all.peers.len());
    for value in message.peers() {
        if let Some(peer) = address(value) {
            all.peers.push(peer)?;
        }
    }
    let peers = count_in(all.peers.len()).saturating_sub(peers_from);
    let stun = Stun {
        tid: message.tid(),
        method: message.method(),
        class: message.class(),
        lifetime: lifetime_in(message),
        relayed: relayed_in(message),
        code: code_in(message),
        channel: channel_in(message),
        peers_from,
        peers,
    };
    let place = count_in(all.stun.len());
    all.stun.push(stun)?;
    Ok(Content::Stun { place })
}

/// A length, saturated at 32 bits.
fn count_in(length: usize) -> u32 {
    u32::try_from(length).unwrap_or(u32::MAX)
}

fn lifetime_in(message: &Message<'_>) -> Option<u32> {
    match message.first(LIFETIME) {
        Some([a, b, c, d]) => Some(u32::from_be_bytes([*a, *b, *c, *d])),
        _ => None,
    }
}

fn relayed_in(message: &Message<'_>) -> Option<audit_model::Addr> {
    address(message.first(XOR_RELAYED_ADDRESS)?)
}

fn code_in(message: &Message<'_>) -> Option<u16> {
    error_code(message.first(ERROR_CODE)?)
}

fn channel_in(message: &Message<'_>) -> Option<u16> {
    match message.first(CHANNEL_NUMBER) {
        Some([high, low, _, _]) => Some(u16::from_be_bytes([*high, *low])),
        _ => None,
    }
}
