//! Computes the keys of a user.

ghost use Rattle.std.specs.Prelude.{◌≡◌, ◌++◌};
ghost use Rattle.audit_keys.specs.LongTerm.{key_of, key256_of};

use md5::{Digest, Md5};
use sha2::{Digest as _, Sha256};

/// The long-term key: MD5 of `user:realm:password` (RFC 8489, section 9.2.2). Allocates no memory.
#[tactic(auto, unfolding(crate::specs::LongTerm::key_of))]
pub fn long_term_key(user: &[u8], realm: &[u8], password: &[u8]) -> [u8; 16]
    ensures { result ≡ key_of user.now realm.now password.now }
{
    let mut hasher = Md5::new();
    hasher.update(user);
    hasher.update(b":".as_slice());
    hasher.update(realm);
    hasher.update(b":".as_slice());
    hasher.update(password);
    hasher.finalize()
}

/// The long-term key of the password algorithm SHA-256: SHA-256 of `user:realm:password` (RFC 8489,
/// sections 9.2.2 and 18.5.1.2). Allocates no memory.
#[tactic(auto, unfolding(crate::specs::LongTerm::key256_of))]
pub fn long_term_key_sha256(user: &[u8], realm: &[u8], password: &[u8]) -> [u8; 32]
    ensures { result ≡ key256_of user.now realm.now password.now }
{
    let mut hasher = Sha256::new();
    hasher.update(user);
    hasher.update(b":".as_slice());
    hasher.update(realm);
    hasher.update(b":".as_slice());
    hasher.update(password);
    hasher.finalize()
}
