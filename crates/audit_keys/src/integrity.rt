//! Checks that a message is signed.

ghost use Rattle.std.specs.Prelude.{◌↔◌, IsTrue};
ghost use Rattle.audit_keys.specs.Signed.{IsHmac, IsHmac256, IsSigned};

use crate::hmac::{hmac_sha1, hmac_sha256};
use audit_stun::Message;

/// The fewest bytes of a MESSAGE-INTEGRITY-SHA256 (RFC 8489, section 14.6).
const SHORTEST_SHA256: usize = 16;

/// Whether the value is the 20 bytes of the HMAC-SHA1 of the head and the text under the key.
fn is_hmac<'a>(key: &[u8], head: &'a [u8], text: &'a [u8], value: &[u8]) -> bool
    ensures { IsTrue result ↔ IsHmac key.now (head.now, text.now, value.now) }
{
    value == hmac_sha1(key, &[head, text]).as_slice()
}

/// Whether the value is the HMAC-SHA256 of the head and the text under the key, or a prefix of it
/// of an allowed length.
fn is_hmac_sha256<'a>(key: &[u8], head: &'a [u8], text: &'a [u8], value: &[u8]) -> bool
    ensures { IsTrue result ↔ IsHmac256 key.now (head.now, text.now, value.now) }
{
    let hmac = hmac_sha256(key, &[head, text]);
    let length = value.len();
    if length < SHORTEST_SHA256 || length > hmac.len() || length % 4 != 0 {
        return false;
    }
    value == &hmac[..length]
}

/// Whether the message is signed under the key: its MESSAGE-INTEGRITY-SHA256 is the HMAC-SHA256 of
/// the bytes that it covers, whole or truncated (RFC 8489, section 14.6), or, if there is none, its
/// MESSAGE-INTEGRITY is the 20 bytes of the HMAC-SHA1 (section 14.5). Allocates no memory.
#[tactic(auto, unfolding(crate::specs::Signed::IsSigned))]
pub fn signed(message: &Message<'_>, key: &[u8]) -> bool
    ensures { IsTrue result ↔ IsSigned message.now key.now }
{
    if let Some(found) = message.covered256() {
        let head = found.0;
        return is_hmac_sha256(key, &head, found.1, found.2);
    }
    let Some(found) = message.covered() else {
        return false;
    };
    let head = found.0;
    is_hmac(key, &head, found.1, found.2)
}
