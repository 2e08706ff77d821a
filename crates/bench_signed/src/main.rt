//! How long `signed` takes on a message of 128 bytes, under HMAC-SHA1 and under HMAC-SHA256.
//! Without a number of calls it prints nothing: `rt run -- 1000000`.
#![tactic(auto)]

use audit_keys::{hmac_sha1, hmac_sha256, long_term_key, long_term_key_sha256, signed};
use audit_stun::message;
use std::alloc::{AllocError, Global};
use std::time::Instant;
use std::{env, io};

/// The length field of a message of 128 bytes.
const LENGTH: u8 = 108;

/// A Binding request up to its integrity, with an attribute of so many bytes.
fn unsigned_message(alloc: Global, filling: u8) -> Result<Vec<u8>, AllocError> {
    let mut bytes = Vec::with_capacity(alloc, 128)?;
    bytes.extend_from_slice(&[0, 1, 0, LENGTH, 0x21, 0x12, 0xa4, 0x42])?;
    bytes.extend_from_slice(&[7; 12])?;
    bytes.extend_from_slice(&[0x80, 0x22, 0, filling])?;
    for _ in 0..filling {
        bytes.push(0x20)?;
    }
    Ok(bytes)
}

/// With MESSAGE-INTEGRITY.
fn signed_message(alloc: Global, key: &[u8]) -> Result<Vec<u8>, AllocError> {
    let mut bytes = unsigned_message(alloc, 80)?;
    let integrity = hmac_sha1(key, &[&bytes]);
    bytes.extend_from_slice(&[0, 0x08, 0, 20])?;
    bytes.extend_from_slice(&integrity)?;
    Ok(bytes)
}

/// With MESSAGE-INTEGRITY-SHA256 in its place.
fn message_signed_by_sha256(alloc: Global, key: &[u8]) -> Result<Vec<u8>, AllocError> {
    let mut bytes = unsigned_message(alloc, 68)?;
    let integrity = hmac_sha256(key, &[&bytes]);
    bytes.extend_from_slice(&[0, 0x1C, 0, 32])?;
    bytes.extend_from_slice(&integrity)?;
    Ok(bytes)
}

/// How many of so many calls of `signed` say yes.
fn count_signed(bytes: &[u8], key: &[u8], calls: u32) -> u32 {
    let mut yes = 0u32;
    for _ in 0..calls {
        if let Some(message) = message(bytes) {
            if signed(&message, key) {
                yes = yes.saturating_add(1);
            }
        }
    }
    yes
}

fn main(rt: HostRuntime) -> io::Result<()> {
    let Some(word) = env::args(&rt)?.nth(1) else {
        return Ok(());
    };
    let Ok(calls) = word.as_str().parse::<u32>() else {
        return Ok(());
    };
    let key = long_term_key(b"user", b"realm", b"pass");
    let key_sha256 = long_term_key_sha256(b"user", b"realm", b"pass");
    let bytes = signed_message(rt.alloc(), &key)?;
    let bytes_sha256 = message_signed_by_sha256(rt.alloc(), &key_sha256)?;
    for (name, bytes, key) in [
        ("SHA-1", bytes.as_slice(), key.as_slice()),
        ("SHA-256", bytes_sha256.as_slice(), key_sha256.as_slice()),
    ] {
        let start = Instant::now(&rt)?;
        let yes = count_signed(bytes, key, calls);
        let took = start.elapsed(&rt)?;
        let seconds = took.as_secs().saturating_mul(1_000_000_000);
        let nanoseconds = seconds.saturating_add(u64::from(took.subsec_nanos()));
        let each = nanoseconds / u64::from(calls).max(1);
        println!(rt; "{name}: {yes} of {calls} signed, {each} ns each")?;
    }
    Ok(())
}
