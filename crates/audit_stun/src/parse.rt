//! Parses a message.

ghost use Rattle.std.specs.Prelude.{◌≡◌, IsSome, IfSome};
ghost use Rattle.audit_stun.specs.Message.{Parts, IsMessage};
ghost use Rattle.audit_stun.specs.Parts.{parts_of};

use crate::attribute::are_attributes;
use crate::messages::Message;
use crate::numbers::{HEADER_LENGTH, MAGIC_COOKIE};

/// The message, if the whole payload is one.
pub fn message(payload: &[u8]) -> Option<Message<'_>>
    ensures found { IfSome result
        (λ message. (message ≡ payload.now) × IsMessage payload.now (parts_of payload.now)) }
    // No other parts fit the payload, and if some do there is a message.
    ensures only { (parts : Parts) → IsMessage payload.now parts
        → IsSome result × (parts ≡ parts_of payload.now) }
{
    if payload.len() < HEADER_LENGTH {
        return None;
    }
    let (header, body) = payload.split_at(HEADER_LENGTH);
    let message_type = u16::from_be_bytes([header[0], header[1]]);
    let length = u16::from_be_bytes([header[2], header[3]]) as usize;
    let cookie = u32::from_be_bytes([header[4], header[5], header[6], header[7]]);
    if message_type < 1 << 14
        && length == body.len()
        && cookie == MAGIC_COOKIE
        && are_attributes(body)
    {
        Some(Message { bytes: payload })
    } else {
        None
    }
}
