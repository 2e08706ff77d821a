//! The response or the data in a datagram to a client.

ghost use Rattle.std.specs.Prelude.{◌≡◌, IfSome};
ghost use Rattle.audit_stun.specs.Parts.{parts_of};
ghost use Rattle.audit_stun.specs.Counted.{first_of};
ghost use Rattle.audit_content.specs.Says.{HasAddress, IsToClient, IsSuccess, code_in, seconds_in};

use crate::peers::peer_in;
use audit_model::Addr;
use audit_stun::numbers::attribute::{DATA, ERROR_CODE, LIFETIME, XOR_RELAYED_ADDRESS};
use audit_stun::numbers::method;
use audit_stun::{Class, Message, address, channel_data, error_code, message};

/// The response or the data in a datagram to a client.
#[derive(Clone, Copy, Debug)]
pub enum ToClient<'a> {
    /// A success response to a request with this method and transaction id (RFC 8489, section 5).
    Success {
        method: u16,
        id: [u8; 12],
        success: Success,
    },
    /// An error response to such a request, with its code if it can be parsed (RFC 8489, section
    /// 14.8).
    Error {
        method: u16,
        id: [u8; 12],
        code: Option<u16>,
    },
    /// A Data indication (RFC 8656, section 11).
    Data {
        peer: Addr,
        data: &'a [u8],
    },
    /// ChannelData to the client (RFC 8656, section 12).
    Channel {
        number: u16,
        data: &'a [u8],
    },
}

/// The contents of a success response.
#[derive(Clone, Copy, Debug)]
pub enum Success {
    /// An allocation of that relayed address (RFC 8656, section 7.2), with its lifetime in seconds.
    Allocated { relayed: Addr, seconds: Option<u32> },
    /// The allocation is refreshed, with its lifetime in seconds (RFC 8656, section 8.2).
    Refreshed { seconds: Option<u32> },
    /// The allocation is deleted: a Refresh success response with LIFETIME 0 (RFC 8656, section
    /// 8.2).
    Deleted,
    /// A CreatePermission success response (RFC 8656, section 10).
    Permitted,
    /// A ChannelBind success response (RFC 8656, section 12).
    Bound,
    /// Another success response.
    Other,
}

/// The response or the data in a datagram to a client, if it can be parsed.
pub fn parse_to_client(payload: &[u8]) -> Option<ToClient<'_>>
    ensures { IfSome result (λ to_client. IsToClient payload.now to_client) }
{
    if let Some((number, data, _)) = channel_data(payload) {
        return Some(ToClient::Channel { number, data });
    }
    let message = message(payload)?;
    match message.class() {
        Class::Success => Some(ToClient::Success {
            method: message.method(),
            id: message.tid(),
            success: content_of_success(&message),
        }),
        Class::Error => Some(ToClient::Error {
            method: message.method(),
            id: message.tid(),
            code: code_of(&message),
        }),
        Class::Indication if message.method() == method::DATA => {
            let peer = peer_in(&message)?;
            let data = message.first(DATA)?;
            Some(ToClient::Data { peer, data })
        }
        Class::Request | Class::Indication => None,
    }
}

fn content_of_success(message: &Message<'_>) -> Success
    ensures { IsSuccess (parts_of message.now) result }
{
    match message.method() {
        method::ALLOCATE => match relayed_address(message) {
            Some(relayed) => Success::Allocated {
                relayed,
                seconds: seconds_of(message),
            },
            None => Success::Other,
        },
        method::REFRESH => match seconds_of(message) {
            Some(0) => Success::Deleted,
            seconds => Success::Refreshed { seconds },
        },
        method::CREATE_PERMISSION => Success::Permitted,
        method::CHANNEL_BIND => Success::Bound,
        _ => Success::Other,
    }
}

fn relayed_address(message: &Message<'_>) -> Option<Addr>
    ensures { IfSome result (λ found. HasAddress XOR_RELAYED_ADDRESS (parts_of message.now) found) }
{
    address(message.first(XOR_RELAYED_ADDRESS)?)
}

/// The seconds of a LIFETIME (RFC 8656, section 18.2).
#[tactic(auto, unfolding(crate::specs::Says::seconds_in))]
fn seconds_of(message: &Message<'_>) -> Option<u32>
    ensures { result ≡ seconds_in (first_of LIFETIME (parts_of message.now).attributes) }
{
    let [a, b, c, d] = message.first(LIFETIME)? else {
        return None;
    };
    Some(u32::from_be_bytes([*a, *b, *c, *d]))
}

#[tactic(auto, unfolding(crate::specs::Says::code_in))]
fn code_of(message: &Message<'_>) -> Option<u16>
    ensures { result ≡ code_in (first_of ERROR_CODE (parts_of message.now).attributes) }
{
    error_code(message.first(ERROR_CODE)?)
}
