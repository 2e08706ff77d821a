//! Requests that name a user.

ghost use Rattle.std.specs.Prelude.{◌≡◌, IsTrue, IfOk, IfSome};

use crate::account::Account;
use crate::password::password_of;
use audit_keys::{Keys, long_term_key, long_term_key_sha256, signed};
use audit_model::Listed;
use audit_stun::numbers::attribute::{REALM, USERNAME};
use audit_stun::{Class, Message, message};
use std::alloc::{AllocError, Global};

/// A secret that the server shares with the service that makes its users' names.
#[derive(Debug, Drop)]
pub struct Secret {
    pub bytes: Listed<u8>,
}

/// A request that names a user and a realm.
#[derive(Debug, Drop)]
pub struct Claim<'a> {
    pub request: Message<'a>,
    pub user: &'a [u8],
    pub realm: &'a [u8],
}

impl<'a> Claim<'a> {
    ghost use Rattle.prep_users.specs.Claims.{Claims, IsSignedBy, Proves};

    /// The request in the payload, if it names a user and a realm. It takes no memory.
    pub fn of(payload: &'a [u8]) -> Option<Claim<'a>>
        ensures { IfSome result (λ claim. (claim.request ≡ payload.now) × Claims payload.now claim.user.now claim.realm.now) }
    {
        let request = message(payload)?;
        if request.class() != Class::Request {
            return None;
        }
        let user = request.first(USERNAME)?;
        let realm = request.first(REALM)?;
        Some(Claim {
            request,
            user,
            realm,
        })
    }

    /// Whether the request is signed with this password of its user. It takes no memory.
    pub fn is_signed_by(&self, password: &[u8]) -> bool
        ensures { IsTrue result → IsSignedBy self.now.request self.now.user.now self.now.realm.now password.now }
    {
        let keys = Keys {
            md5: long_term_key(self.user, self.realm, password),
            sha256: long_term_key_sha256(self.user, self.realm, password),
        };
        match keys.chosen_by(&self.request) {
            Some(key) => signed(&self.request, key),
            None => false,
        }
    }

    /// The request's user with its password: the first of the passwords derived from the secrets
    /// and the user's name with which the request is signed.
    pub fn proved(&self, alloc: Global, secrets: &[Secret]) -> Result<Option<Account>, AllocError>
        ensures { Claims self.now.request self.now.user.now self.now.realm.now →
            IfOk result (λ found. IfSome found (λ account. Proves secrets.now account self.now.request)) }
    {
        for secret in secrets {
            let password = password_of(alloc, secret, self.user)?;
            if self.is_signed_by(password.as_bytes()) {
                let account = Account::new(alloc, self.user, self.realm, password.as_bytes())?;
                return Ok(Some(account));
            }
        }
        Ok(None)
    }
}
