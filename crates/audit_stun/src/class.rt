//! The message type: a class and a method in fourteen bits.

ghost use Rattle.std.specs.Prelude.{◌≡◌};
ghost use Rattle.audit_stun.specs.MessageType.{class_of, method_of};

/// The class of a message (RFC 8489, section 5).
#[derive(Clone, Copy, Debug, PartialEq, Eq)]
pub enum Class {
    Request,
    Indication,
    /// A success response.
    Success,
    /// An error response.
    Error,
}

/// The class in a message type.
#[tactic(auto, using(crate::proofs::Bits::low_bit))]
pub(crate) fn class_in(message_type: u16) -> Class
    ensures { result ≡ class_of message_type }
{
    let (c1, c0) = (message_type >> 8 & 1, message_type >> 4 & 1);
    match (c1, c0) {
        (0, 0) => Class::Request,
        (0, _) => Class::Indication,
        (_, 0) => Class::Success,
        _ => Class::Error,
    }
}

/// The method in a message type: its other twelve bits, in order.
#[tactic(auto, using(crate::proofs::Bits::joined_bits))]
pub(crate) fn method_in(message_type: u16) -> u16
    ensures { result ≡ method_of message_type }
{
    let low = message_type & 0x000F;
    let middle = message_type >> 5 & 0x0007;
    let high = message_type >> 9 & 0x001F;
    high << 7 | middle << 4 | low
}
