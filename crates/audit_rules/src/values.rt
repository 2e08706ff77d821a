//! Reads the attributes of a message.

ghost use Rattle.std.specs.Prelude.{◌≡◌};
ghost use Rattle.audit_stun.specs.Parts.{parts_of};
ghost use Rattle.audit_rules.specs.Values.{address_named, code_of, lifetime_of, channel_number_of, transport_of, family_of, one};

use audit_model::Addr;
use audit_stun::numbers::attribute::{
    CHANNEL_NUMBER, ERROR_CODE, LIFETIME, REQUESTED_ADDRESS_FAMILY, REQUESTED_TRANSPORT,
};
use audit_stun::{Message, address, error_code};

/// The protocol number of UDP in REQUESTED-TRANSPORT (RFC 8656, section 18.8).
pub const UDP: u8 = 17;

/// The address in the first attribute of this type; None if there is none that can be read.
pub fn address_in(message: &Message<'_>, kind: u16) -> Option<Addr>
    ensures { result ≡ address_named kind (parts_of message.now) }
{
    address(message.first(kind)?)
}

/// The error code, as 438.
pub fn error_code_in(message: &Message<'_>) -> Option<u16>
    ensures { result ≡ code_of (parts_of message.now) }
{
    error_code(message.first(ERROR_CODE)?)
}

/// The lifetime in seconds.
pub fn lifetime_in(message: &Message<'_>) -> Option<u32>
    ensures { result ≡ lifetime_of (parts_of message.now) }
{
    match message.first(LIFETIME)? {
        [a, b, c, d] => Some(u32::from_be_bytes([*a, *b, *c, *d])),
        _ => None,
    }
}

/// The channel number.
pub fn channel_number_in(message: &Message<'_>) -> Option<u16>
    ensures { result ≡ channel_number_of (parts_of message.now) }
{
    match message.first(CHANNEL_NUMBER)? {
        [high, low, _, _] => Some(u16::from_be_bytes([*high, *low])),
        _ => None,
    }
}

/// The first of the four bytes of a value.
fn first_of_four(value: &[u8]) -> Option<u8>
    ensures { result ≡ one value.now }
{
    match value {
        [first, _, _, _] => Some(*first),
        _ => None,
    }
}

/// The protocol number of the requested transport.
pub fn transport_in(message: &Message<'_>) -> Option<u8>
    ensures { result ≡ transport_of (parts_of message.now) }
{
    first_of_four(message.first(REQUESTED_TRANSPORT)?)
}

/// The requested address family.
pub fn family_in(message: &Message<'_>) -> Option<u8>
    ensures { result ≡ family_of (parts_of message.now) }
{
    first_of_four(message.first(REQUESTED_ADDRESS_FAMILY)?)
}
