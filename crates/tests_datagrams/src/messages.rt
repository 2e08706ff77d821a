//! The messages of a session as data, and their bytes.

use audit_keys::long_term_key;
use audit_model::Addr;
use audit_samples::{BuildFault, Class, MessageBuilder, channel_data};
use audit_stun::numbers::attribute::{DATA, LIFETIME, NONCE, REALM, XOR_PEER_ADDRESS};
use std::alloc::Global;

pub const USER: &[u8] = b"user";

pub const PASSWORD: &[u8] = b"pass";

pub const THE_REALM: &[u8] = b"realm";

const THE_NONCE: &[u8] = b"n1";

/// A part of a message after its header.
#[derive(Clone, Copy)]
pub enum Part<'a> {
    /// An attribute of a type, with its value.
    Value(u16, &'a [u8]),
    /// An attribute of a type, with an address.
    Address(u16, Addr),
    /// LIFETIME, in seconds.
    Seconds(u32),
    /// REALM and NONCE, with which the client signs the next request.
    Challenge,
    /// USERNAME, REALM and NONCE of a user.
    User(&'a [u8]),
    /// MESSAGE-INTEGRITY with the key of a user with this password.
    Signed(&'a [u8], &'a [u8]),
}

/// The attributes of `user`.
pub const BY_USER: Part<'static> = Part::User(USER);

/// MESSAGE-INTEGRITY with the key of `user`.
pub const SIGNED: Part<'static> = Part::Signed(USER, PASSWORD);

fn with(message: MessageBuilder, part: &Part<'_>) -> Result<MessageBuilder, BuildFault> {
    match *part {
        Part::Value(kind, value) => message.with(kind, value),
        Part::Address(kind, addr) => message.with_address(kind, addr),
        Part::Seconds(seconds) => message.with(LIFETIME, &seconds.to_be_bytes()),
        Part::Challenge => message.with(REALM, THE_REALM)?.with(NONCE, THE_NONCE),
        Part::User(user) => message.with_user(user, THE_REALM, THE_NONCE),
        Part::Signed(user, password) => message.signed(&long_term_key(user, THE_REALM, password)),
    }
}

/// The contents of a datagram.
#[derive(Clone, Copy)]
pub enum Payload<'a> {
    /// A message of a class and a method. A response has the transaction of the last request, and
    /// any other message one of its own.
    Message(Class, u16, &'a [Part<'a>]),
    /// A request with the number of an earlier transaction.
    Again(u8, u16, &'a [Part<'a>]),
    /// A Send indication to a peer.
    Send(Addr, &'a [u8]),
    /// A Data indication from a peer.
    Data(Addr, &'a [u8]),
    /// ChannelData of a channel, with bytes after it.
    Channel(u16, &'a [u8], &'a [u8]),
}

/// The bytes of a message, with the number of its transaction.
pub fn message_bytes(
    alloc: Global,
    class: Class,
    method: u16,
    number: u8,
    parts: &[Part<'_>],
) -> Result<Vec<u8>, BuildFault> {
    let mut built = MessageBuilder::new(alloc, class, method, [number; 12]);
    for part in parts {
        built = with(built, part)?;
    }
    built.payload(alloc)
}

/// A Send or a Data indication.
pub fn indication_bytes(
    alloc: Global,
    method: u16,
    number: u8,
    peer: Addr,
    data: &[u8],
) -> Result<Vec<u8>, BuildFault> {
    let parts = &[
        Part::Address(XOR_PEER_ADDRESS, peer),
        Part::Value(DATA, data),
    ];
    message_bytes(alloc, Class::Indication, method, number, parts)
}

/// ChannelData with bytes after it.
pub fn channel_bytes(
    alloc: Global,
    number: u16,
    data: &[u8],
    more: &[u8],
) -> Result<Vec<u8>, BuildFault> {
    let mut payload = channel_data(alloc, number, data)?;
    payload.extend_from_slice(more)?;
    Ok(payload)
}
