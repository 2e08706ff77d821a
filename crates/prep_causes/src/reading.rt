//! Parses the content of a datagram of the service.

ghost use Rattle.std.specs.Prelude.{◌≡◌, option_copied, IfSome};
ghost use Rattle.audit_stun.specs.Message.{IsMessage};
ghost use Rattle.audit_stun.specs.Parts.{parts_of};
ghost use Rattle.prep_causes.specs.Carrying.{peer_at, peer_in, data_of, IsOfMessage, IsOfClient, IsCarried, of_parts};

use crate::carried::{Carried, Peer};
use audit_model::{Addr, Policy};
use audit_stun::numbers::attribute::{DATA, XOR_PEER_ADDRESS};
use audit_stun::numbers::method;
use audit_stun::{Class, Message, address, channel_data, message};
use sha2::{Digest, Sha256};

impl Peer {
    /// The peer at an address.
    fn at(policy: &Policy, addr: Addr) -> Peer
        ensures { result ≡ peer_at policy.now addr }
    {
        if policy.relays(addr) {
            Peer::OfService
        } else {
            Peer::At(addr)
        }
    }

    /// The peer in the value of an XOR-PEER-ADDRESS (RFC 8656, section 18.3).
    fn in_value(policy: &Policy, value: Option<&[u8]>) -> Peer
        ensures { result ≡ peer_in policy.now (option_copied value.entry) }
    {
        let Some(value) = value else {
            return Peer::Unsaid;
        };
        match address(value) {
            Some(addr) => Peer::at(policy, addr),
            None => Peer::Unsaid,
        }
    }
}

/// Data from or for a peer.
fn of_data(carried: &[u8], peer: Peer) -> Carried
    ensures { result ≡ data_of carried.now peer }
{
    Carried::Data {
        digest: Sha256::digest(carried),
        peer,
    }
}

/// The data of a Send or Data indication (RFC 8656, sections 11.1 and 11.4).
fn of_indication(policy: &Policy, message: &Message<'_>) -> Carried
    ensures { result ≡ of_parts policy.now (parts_of message.now) }
{
    let peer = Peer::in_value(policy, message.first(XOR_PEER_ADDRESS));
    of_data(message.first(DATA).unwrap_or(b""), peer)
}

/// The content of a message. Of indications only Send and Data have one.
fn of_message(policy: &Policy, client: Addr, message: &Message<'_>) -> Option<Carried>
    ensures { IfSome result (λ carried. IsOfMessage policy.now client (parts_of message.now) carried) }
{
    let method = message.method();
    let class = message.class();
    if class == Class::Indication {
        if method == method::SEND || method == method::DATA {
            return Some(of_indication(policy, message));
        }
        return None;
    }
    Some(Carried::Exchange {
        is_request: class == Class::Request,
        client,
        method,
        tid: message.tid(),
    })
}

/// The content of a datagram between a client and the server.
fn of_client(policy: &Policy, client: Addr, payload: &[u8]) -> Option<Carried>
    ensures { IfSome result (λ carried. IsOfClient policy.now client payload.now carried) }
{
    if let Some((_, data, _)) = channel_data(payload) {
        return Some(of_data(data, Peer::Unsaid));
    }
    let message = message(payload)?;
    of_message(policy, client, &message)
}

/// The content of a datagram between a relayed address and a peer, or between the server and a
/// client; `far` is the end outside of the service. `None` if it is neither data nor a request nor
/// a response.
pub fn carried_in(policy: &Policy, is_relayed: bool, far: Addr, payload: &[u8]) -> Option<Carried>
    ensures { IfSome result (λ carried. IsCarried policy.now is_relayed far payload.now carried) }
{
    if is_relayed {
        Some(of_data(payload, Peer::at(policy, far)))
    } else {
        of_client(policy, far, payload)
    }
}
