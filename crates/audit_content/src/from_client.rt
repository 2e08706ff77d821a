//! The request or the data in a client's datagram.

ghost use Rattle.std.specs.Prelude.{IfSome};
ghost use Rattle.audit_content.specs.Says.{IsFromClient};

use crate::peers::peer_in;
use audit_model::Addr;
use audit_stun::numbers::attribute::DATA;
use audit_stun::numbers::method;
use audit_stun::{Class, channel_data, message};

/// The request or the data in a client's datagram.
#[derive(Clone, Copy, Debug)]
pub enum FromClient<'a> {
    /// A request with this method and transaction id (RFC 8489, section 5).
    Request { method: u16, id: [u8; 12] },
    /// A Send indication (RFC 8656, section 11).
    Send { peer: Addr, data: &'a [u8] },
    /// ChannelData to the server (RFC 8656, section 12).
    Channel { number: u16, data: &'a [u8] },
}

/// The request or the data in a client's datagram, if the server may answer or relay it.
pub fn parse_from_client(payload: &[u8]) -> Option<FromClient<'_>>
    ensures { IfSome result (λ from_client. IsFromClient payload.now from_client) }
{
    if let Some((number, data, _)) = channel_data(payload) {
        return Some(FromClient::Channel { number, data });
    }
    let message = message(payload)?;
    match message.class() {
        Class::Request => Some(FromClient::Request {
            method: message.method(),
            id: message.tid(),
        }),
        Class::Indication if message.method() == method::SEND => {
            let peer = peer_in(&message)?;
            let data = message.first(DATA)?;
            Some(FromClient::Send { peer, data })
        }
        Class::Indication | Class::Success | Class::Error => None,
    }
}
