//! The users that an act may be by.

ghost use Rattle.std.specs.Prelude.{◌≡◌, ◌↔◌, IsTrue, Some, None, MatchOption, option_copied};
ghost use Rattle.audit_stun.specs.declared.class.Class.TheVariants.{Request};
ghost use Rattle.audit_stun.specs.declared.numbers.attribute.TheConstants.{USERNAME};
ghost use Rattle.audit_stun.specs.Counted.{first_of};
ghost use Rattle.audit_stun.specs.Message.{IsMessage};
ghost use Rattle.audit_stun.specs.Parts.{parts_of};
ghost use Rattle.audit_rules.specs.Situation.{arrival_parts};
ghost use Rattle.audit_rules.specs.Standing.{key_named, IsByUser, IsSignedBack};
ghost use Rattle.audit_rules.specs.Seen.{key_in, situation};

use crate::acts::Act;
use audit_keys::{Credentials, Keys, signed};
use audit_stun::numbers::attribute::{NONCE, REALM, USERNAME};
use audit_stun::{Message, message};

/// The long-term keys of a user of a realm (RFC 8489, section 9.2.2).
#[derive(Clone, Copy, Debug)]
pub struct CredRow<'a> {
    pub user: &'a [u8],
    pub realm: &'a [u8],
    pub key: Keys,
}

impl<'a> CredRow<'a> {
    ghost use Rattle.audit_keys.specs.KeyFor.{key_for};
    ghost use Rattle.audit_rules.specs.Named.{Names, NamesNobody, RequestNamesNobody};

    /// The row of the user and the realm that a message names in USERNAME and REALM, with their
    /// long-term keys (RFC 8489, section 9.2). None if the payload is no message, has no such
    /// attributes, or the credentials have no keys for both. It takes log n time in the
    /// credentials, and allocates no memory.
    pub fn of(credentials: &Credentials, payload: &'a [u8]) -> Option<CredRow<'a>>
        ensures { MatchOption result (NamesNobody (key_for credentials.now) payload.now)
            (λ row. Names (key_for credentials.now) payload.now row.user.now row.realm.now row.key) }
    {
        let request = message(payload)?;
        let user = request.first(USERNAME)?;
        let realm = request.first(REALM)?;
        let key = credentials.lookup(user, realm)?;
        Some(CredRow { user, realm, key })
    }

    /// The row that a request names, as `of` finds it; only requests are judged by a user. If the
    /// first two bytes of a payload can't begin a request, it reads no more and returns None.
    pub fn of_request(credentials: &Credentials, payload: &'a [u8]) -> Option<CredRow<'a>>
        ensures { MatchOption result (RequestNamesNobody (key_for credentials.now) payload.now)
            (λ row. Names (key_for credentials.now) payload.now row.user.now row.realm.now row.key) }
    {
        if !begins_request(payload) {
            return None;
        }
        CredRow::of(credentials, payload)
    }
}

/// Whether the first two bytes may be a request's message type: two zero bits, and zero for both
/// bits of the class (RFC 8489, section 5).
fn begins_request(payload: &[u8]) -> bool
    ensures { IsMessage payload.now (parts_of payload.now) → (parts_of payload.now).class ≡ Request → IsTrue result }
{
    let [first, second, ..] = payload else {
        return false;
    };
    let message_type = u16::from_be_bytes([*first, *second]);
    message_type < 1 << 14 && message_type / 256 % 2 == 0 && message_type / 16 % 2 == 0
}

/// The signer of a request.
#[derive(Clone, Copy)]
pub struct Signer<'u, 'k> {
    pub user: &'u [u8],
    pub key: &'k [u8],
}

/// The keys of the first row of the user and the realm. It searches the rows.
fn keys_of<'k>(users: &'k [CredRow<'_>], user: &[u8], realm: &[u8]) -> Option<&'k Keys>
    ensures { option_copied result ≡ key_in users.now user.now realm.now }
{
    let row = users
        .iter()
        .find(|row| row.user == user && row.realm == realm)?;
    Some(&row.key)
}

/// The user that the request names, with the key that it chooses of those for the realm that it
/// names.
fn named<'u, 'k>(users: &'k [CredRow<'_>], request: &Message<'u>) -> Option<Signer<'u, 'k>>
    ensures { MatchOption result (key_named (key_in users.now) (parts_of request.now) ≡ None)
        (λ signer. (first_of USERNAME (parts_of request.now).attributes ≡ Some signer.user.now)
        × (key_named (key_in users.now) (parts_of request.now) ≡ Some signer.key.now)) }
{
    let user = request.first(USERNAME)?;
    let realm = request.first(REALM)?;
    let key = keys_of(users, user, realm)?.chosen_by(request)?;
    Some(Signer { user, key })
}

/// The user of a request that is authentic: it has a nonce, and is signed under the key that it
/// chooses, of the user and the realm that it names (RFC 8489, section 9.2.4).
pub fn authenticated<'u, 'k>(act: &Act<'_, 'k>, request: &Message<'u>) -> Option<Signer<'u, 'k>>
    requires { request.now ≡ (situation act.now).arrives.payload }
    ensures { MatchOption result (IsByUser (situation act.now) → ⊥)
        (λ signer. IsByUser (situation act.now) × (first_of USERNAME (arrival_parts (situation act.now)).attributes ≡ Some signer.user.now)
        × (key_named (situation act.now).key_for (arrival_parts (situation act.now)) ≡ Some signer.key.now)) }
{
    request.first(NONCE)?;
    let signer = named(act.users, request)?;
    if signed(request, signer.key) {
        Some(signer)
    } else {
        None
    }
}

/// Whether the response is signed under the key of its request.
pub fn signed_back(act: &Act<'_, '_>, signer: &Signer<'_, '_>, response: &Message<'_>) -> bool
    requires response { response.now ≡ (situation act.now).leaves.payload }
    requires key { key_named (situation act.now).key_for (arrival_parts (situation act.now)) ≡ Some signer.now.key.now }
    ensures { IsTrue result ↔ IsSignedBack (situation act.now) }
{
    signed(response, signer.key)
}
