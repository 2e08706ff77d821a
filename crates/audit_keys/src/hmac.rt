//! HMAC-SHA1 and HMAC-SHA256 (RFC 2104).

ghost use Rattle.std.specs.Prelude.{◌≡◌, ◌-◌, ◌≤◌, map, ◌++◌, length, replicate};
ghost use Rattle.std.specs.List.{concat};
ghost use Rattle.sha1.specs.Sha1.{sha1};
ghost use Rattle.sha2.specs.Sha256.{sha256};
ghost use Rattle.audit_keys.specs.Hmac.{block_of, xored, hmac_of, hmac256_of};

use sha1::Sha1;
use sha2::{Digest, Sha256};

/// The number of bytes of a block of SHA-1 and SHA-256.
const BLOCK_LENGTH: usize = 64;

const INNER_PAD: u8 = 0x36;

const OUTER_PAD: u8 = 0x5C;

/// The bytes, and zeros up to a block.
fn filled(bytes: &[u8]) -> [u8; BLOCK_LENGTH]
    requires { length bytes.now ≤ BLOCK_LENGTH }
    ensures { result ≡ bytes.now ++ replicate (BLOCK_LENGTH - length bytes.now) 0 }
{
    let mut block = [0; BLOCK_LENGTH];
    block[..bytes.len()].copy_from_slice(bytes);
    block
}

/// The key in a block of its own. A longer one is hashed first.
#[tactic(auto, unfolding(crate::specs::Hmac::block_of))]
fn key_block(key: &[u8]) -> [u8; BLOCK_LENGTH]
    ensures { result ≡ block_of sha1 key.now }
{
    if key.len() > BLOCK_LENGTH {
        filled(&Sha1::digest(key))
    } else {
        filled(key)
    }
}

/// The key in a block of its own, for SHA-256.
#[tactic(auto, unfolding(crate::specs::Hmac::block_of))]
fn key_block_sha256(key: &[u8]) -> [u8; BLOCK_LENGTH]
    ensures { result ≡ block_of sha256 key.now }
{
    if key.len() > BLOCK_LENGTH {
        filled(&Sha256::digest(key))
    } else {
        filled(key)
    }
}

/// The block, each byte XORed with the pad.
fn padded(block: &[u8; BLOCK_LENGTH], pad: u8) -> [u8; BLOCK_LENGTH]
    ensures { result ≡ xored pad block.now }
{
    let mut padded = *block;
    for byte in &mut padded {
        *byte ^= pad;
    }
    padded
}

/// The HMAC-SHA1 of the pieces, one after the other, under the key (RFC 2104). Allocates no memory.
#[tactic(auto, unfolding(crate::specs::Hmac::hmac_by))]
pub fn hmac_sha1(key: &[u8], pieces: &[&[u8]]) -> [u8; 20]
    ensures { result ≡ hmac_of key.now (concat (map (λ piece. piece.now) pieces.now)) }
{
    let block = key_block(key);
    let mut inner = Sha1::new();
    inner.update(&padded(&block, INNER_PAD));
    for piece in pieces {
        inner.update(piece);
    }
    let mut outer = Sha1::new();
    outer.update(&padded(&block, OUTER_PAD));
    outer.update(&inner.finalize());
    outer.finalize()
}

/// The HMAC-SHA256 likewise. Allocates no memory.
#[tactic(auto, unfolding(crate::specs::Hmac::hmac_by))]
pub fn hmac_sha256(key: &[u8], pieces: &[&[u8]]) -> [u8; 32]
    ensures { result ≡ hmac256_of key.now (concat (map (λ piece. piece.now) pieces.now)) }
{
    let block = key_block_sha256(key);
    let mut inner = Sha256::new();
    inner.update(padded(&block, INNER_PAD).as_slice());
    for piece in pieces {
        inner.update(*piece);
    }
    let mut outer = Sha256::new();
    outer.update(padded(&block, OUTER_PAD).as_slice());
    outer.update(inner.finalize().as_slice());
    outer.finalize()
}
