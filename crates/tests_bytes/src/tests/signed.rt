//! Requests, and the keys with which they are signed.

use super::keys::{KEY, digest256};
use super::vectors::LONG_TERM_REQUEST;
use audit_keys::{Credentials, Keys, long_term_key, long_term_key_sha256, signed};
use audit_stun::message;
use std::alloc::Global;
use std::test::Fail;

#[test]
fn long_term_request(rt: HostRuntime) -> Result<(), Fail> {
    let request = message(&LONG_TERM_REQUEST).ok_or("a message")?;
    let user = &LONG_TERM_REQUEST[24..42];
    assert!(rt; signed(&request, &long_term_key(user, b"example.org", b"TheMatrIX")));
    assert!(rt; !signed(&request, &long_term_key(user, b"example.org", b"TheMatrix")));
    Ok(())
}

/// The SHA-256 of `user:realm:pass`.
const KEY256: (u128, u128) = (
    0x07e9_3411_7abd_4083_6e7c_6329_b547_31b2,
    0xb2d2_a5f9_a71f_5449_22d7_5e07_30d8_251b,
);

/// An Allocate request by `user` of `realm` that chooses SHA-256, up to its integrity.
const ASKS_SHA256: [u8; 56] = [
    0x00, 0x03, 0x00, 0x24, 0x21, 0x12, 0xa4, 0x42, 0x01, 0x02, 0x03, 0x04, 0x05, 0x06, 0x07, 0x08,
    0x09, 0x0a, 0x0b, 0x0c, // Allocate request
    0x00, 0x06, 0x00, 0x04, 0x75, 0x73, 0x65, 0x72, // USERNAME
    0x00, 0x14, 0x00, 0x05, 0x72, 0x65, 0x61, 0x6c, 0x6d, 0x00, 0x00, 0x00, // REALM
    0x00, 0x15, 0x00, 0x04, 0x6f, 0x6e, 0x63, 0x65, // NONCE
    0x00, 0x1d, 0x00, 0x04, 0x00, 0x02, 0x00, 0x00, // PASSWORD-ALGORITHM
];

/// The value of its MESSAGE-INTEGRITY-SHA256 with 32 bytes, and of the one truncated to 16 bytes,
/// which differs because the length is covered.
const WHOLE: (u128, u128) = (
    0xa880_96f0_a601_cf29_d8e0_6812_50d7_a1c2,
    0x35c2_9d66_ad8c_14ce_ce9a_380d_0461_0a61,
);

const CUT: u128 = 0x8258_d231_ff83_5c3b_d6b2_54ba_5154_a6f4;

/// That request with a MESSAGE-INTEGRITY-SHA256 of this value.
fn request_with(alloc: Global, value: &[u8]) -> Result<Vec<u8>, Fail> {
    let length = u8::try_from(value.len()).ok().ok_or("a byte")?;
    let body = ASKS_SHA256.len() - 16 + (value.len() + 3) / 4 * 4;
    let mut asks = ASKS_SHA256;
    asks[3] = u8::try_from(body).ok().ok_or("a byte")?;
    let mut bytes = Vec::from_slice(alloc, &asks)?;
    bytes.extend_from_slice(&[0, 0x1C, 0, length])?;
    bytes.extend_from_slice(value)?;
    bytes.extend_from_slice(&[0; 4][..(4 - value.len() % 4) % 4])?;
    Ok(bytes)
}

#[test]
fn sha256_requests(rt: HostRuntime) -> Result<(), Fail> {
    let credentials = Credentials::read(rt.alloc(), b"user\trealm\tpass\n")?;
    let keys = credentials.lookup(b"user", b"realm").ok_or("keys")?;
    assert_eq!(rt; u128::from_be_bytes(keys.md5), KEY);
    assert_eq!(rt; keys.sha256, digest256(KEY256.0, KEY256.1));
    assert_eq!(rt;
        long_term_key_sha256(b"user", b"realm", b"pass"),
        keys.sha256
    );
    let whole = digest256(WHOLE.0, WHOLE.1);
    let cut = CUT.to_be_bytes();
    for (value, want) in [
        (whole.as_slice(), true),
        (&cut, true),
        (&whole[..16], false),
        (&whole[..12], false),
        (&whole[..18], false),
        (&[], false),
    ] {
        let bytes = request_with(rt.alloc(), value)?;
        let request = message(&bytes).ok_or("a message")?;
        let key = keys.chosen_by(&request).ok_or("a key")?;
        assert!(rt; key == keys.sha256.as_slice());
        assert_eq!(rt; signed(&request, key), want, "{value:?}");
        assert!(rt; !signed(&request, &keys.md5));
    }
    Ok(())
}

/// Algorithm 1 is MD5, 2 is SHA-256, and no other one is known.
#[test]
fn algorithms(rt: HostRuntime) -> Result<(), Fail> {
    let keys = Keys {
        md5: [1; 16],
        sha256: [2; 32],
    };
    for (length, number, want) in [
        (4, 1, Some([1; 16].as_slice())),
        (4, 2, Some(&[2; 32])),
        (4, 0, None),
        (4, 3, None),
        (3, 2, Some(&[1; 16])),
    ] {
        let mut bytes = ASKS_SHA256;
        let at = bytes.len() - 8;
        bytes[3] = (bytes.len() - 20) as u8;
        bytes[at + 3] = length;
        bytes[at + 5] = number;
        let request = message(&bytes).ok_or("a message")?;
        assert_eq!(rt; keys.chosen_by(&request), want, "{length} {number}");
    }
    Ok(())
}
