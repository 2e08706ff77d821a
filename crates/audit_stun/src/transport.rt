//! Reads addresses in attributes.

ghost use Rattle.std.specs.Prelude.{◌≡◌, IfSome, Some};
ghost use Rattle.audit_model.specs.declared.address.Addr.{Addr};
ghost use Rattle.audit_stun.specs.XorAddress.{IsXorAddress, address_of};

use crate::numbers::{FAMILY_IPV4, MAGIC_COOKIE};
use audit_model::Addr;

/// The IPv4 address in the value of an XOR-MAPPED-ADDRESS, XOR-PEER-ADDRESS or XOR-RELAYED-ADDRESS
/// (RFC 8489, section 14.2; RFC 8656, section 18). None if it has another length or family.
#[tactic(auto, unfolding(crate::specs::XorAddress::address_of))]
pub fn address(value: &[u8]) -> Option<Addr>
    ensures value { result ≡ address_of value.now }
    ensures found { IfSome result (λ address. IsXorAddress value.now address) }
    ensures only { (address : Addr) → IsXorAddress value.now address → result ≡ Some address }
{
    let [_, family, port_high, port_low, a, b, c, d] = value else {
        return None;
    };
    if *family != FAMILY_IPV4 {
        return None;
    }
    let port = u16::from_be_bytes([*port_high, *port_low]) ^ (MAGIC_COOKIE >> 16) as u16;
    let ip = u32::from_be_bytes([*a, *b, *c, *d]) ^ MAGIC_COOKIE;
    Some(Addr { ip, port })
}
