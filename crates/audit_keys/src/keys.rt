//! The keys of a user, and which of them a request chooses.

ghost use Rattle.std.specs.Prelude.{◌≡◌, option_map, option_copied};
ghost use Rattle.audit_stun.specs.Parts.{parts_of};
ghost use Rattle.audit_keys.specs.Chosen.{algorithm_in, chosen_key};

use audit_stun::Message;
use audit_stun::numbers::attribute::PASSWORD_ALGORITHM;

/// Password algorithms (RFC 8489, section 18.5).
const MD5: u16 = 1;

const SHA_256: u16 = 2;

/// The long-term keys of a user of a realm, one for each password algorithm.
#[derive(Clone, Copy, Debug)]
pub struct Keys {
    pub md5: [u8; 16],
    pub sha256: [u8; 32],
}

/// The number in a PASSWORD-ALGORITHM of four bytes, of which the last two are not checked. MD5's
/// if there is no such value.
#[tactic(auto, unfolding(crate::specs::Chosen::algorithm_in))]
fn algorithm(value: Option<&[u8]>) -> u16
    ensures { result ≡ algorithm_in (option_copied value.entry) }
{
    match value {
        Some([high, low, _, _]) => u16::from_be_bytes([*high, *low]),
        _ => MD5,
    }
}

impl Keys {
    /// The key that the request chooses by its PASSWORD-ALGORITHM (RFC 8489, section 14.12), for
    /// itself and its response. None for an unknown algorithm. Allocates no memory.
    #[tactic(auto, unfolding(crate::specs::Chosen::chosen_key))]
    pub fn chosen_by(&self, request: &Message<'_>) -> Option<&[u8]>
        ensures { option_copied result ≡ chosen_key (parts_of request.now).attributes self.now }
    {
        match algorithm(request.first(PASSWORD_ALGORITHM)) {
            MD5 => Some(&self.md5),
            SHA_256 => Some(&self.sha256),
            _ => None,
        }
    }
}
