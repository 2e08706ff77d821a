//! Passwords derived from names.

ghost use Rattle.std.specs.Prelude.{◌≡◌, string_bytes, IfOk};
ghost use Rattle.prep_users.specs.Claims.{password_by};

use crate::claim::Secret;
use audit_keys::hmac_sha1;
use base64::engine::general_purpose::STANDARD;
use std::alloc::{AllocError, Global};

/// The password of a user's name by a secret: the base64 of the HMAC-SHA1 of the name.
pub fn password_of(alloc: Global, secret: &Secret, user: &[u8]) -> Result<String, AllocError>
    ensures { IfOk result (λ password. string_bytes password ≡ password_by secret.now.bytes user.now) }
{
    let hmac = hmac_sha1(secret.bytes.as_slice(), &[user]);
    STANDARD.encode(alloc, &hmac)
}
