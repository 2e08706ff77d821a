//! HMAC-SHA1, HMAC-SHA256 and long-term keys.

use audit_keys::{hmac_sha1, hmac_sha256, long_term_key};

/// The key of user `user` of realm `realm` with password `pass`.
pub const KEY: u128 = 0x8493_fbc5_3ba5_82fb_4c04_4c45_6bdc_40eb;

#[test]
fn long_term(rt: HostRuntime) {
    let key = long_term_key(b"user", b"realm", b"pass");
    assert_eq!(rt; u128::from_be_bytes(key), KEY);
}

/// The digest that twenty bytes of hexadecimal spell.
fn digest(high: u128, low: u32) -> [u8; 20] {
    let mut digest = [0; 20];
    digest[..16].copy_from_slice(&high.to_be_bytes());
    digest[16..].copy_from_slice(&low.to_be_bytes());
    digest
}

/// The cases of RFC 2202, section 3: the key, the text in pieces, the digest.
static CASES: [(&[u8], &[&[u8]], u128, u32); 7] = [
    (
        &[0x0B; 20],
        &[b"Hi There"],
        0xb617_3186_5505_7264_e28b_c0b6_fb37_8c8e,
        0xf146_be00,
    ),
    (
        b"Jefe",
        &[b"what do ya want ", b"for nothing?"],
        0xeffc_df6a_e5eb_2fa2_d274_16d5_f184_df9c,
        0x259a_7c79,
    ),
    (
        &[0xAA; 20],
        &[&[0xDD; 50]],
        0x125d_7342_b9ac_11cd_91a3_9af4_8aa1_7b4f,
        0x63f1_75d3,
    ),
    (
        &[
            1, 2, 3, 4, 5, 6, 7, 8, 9, 10, 11, 12, 13, 14, 15, 16, 17, 18, 19, 20, 21, 22, 23, 24,
            25,
        ],
        &[&[0xCD; 50]],
        0x4c90_07f4_0262_50c6_bc84_14f9_bf50_c86c,
        0x2d72_35da,
    ),
    (
        &[0x0C; 20],
        &[b"Test With Truncation"],
        0x4c1a_0342_4b55_e07f_e7f2_7be1_d58b_b932,
        0x4a9a_5a04,
    ),
    // Of keys longer than a block.
    (
        &[0xAA; 80],
        &[b"Test Using Larger Than Block-Size Key - Hash Key First"],
        0xaa4a_e5e1_5272_d00e_9570_5637_ce8a_3b55,
        0xed40_2112,
    ),
    (
        &[0xAA; 80],
        &[
            b"Test Using Larger Than Block-Size Key and Larger ",
            b"Than One Block-Size Data",
        ],
        0xe8e9_9d0f_4523_7d78_6d6b_baa7_965c_7808,
        0xbbff_1a91,
    ),
];

#[test]
fn hmac_sha1_of_the_standard(rt: HostRuntime) {
    for (key, texts, high, low) in &CASES {
        assert_eq!(rt; hmac_sha1(key, texts), digest(*high, *low), "{key:?}");
    }
}

/// The digest that thirty-two bytes of hexadecimal spell.
pub fn digest256(high: u128, low: u128) -> [u8; 32] {
    let mut digest = [0; 32];
    digest[..16].copy_from_slice(&high.to_be_bytes());
    digest[16..].copy_from_slice(&low.to_be_bytes());
    digest
}

/// Cases of RFC 4231, section 4: a short key, a text in pieces, and a key longer than a block.
static CASES_OF_SHA256: [(&[u8], &[&[u8]], u128, u128); 3] = [
    (
        &[0x0B; 20],
        &[b"Hi There"],
        0xb034_4c61_d8db_3853_5ca8_afce_af0b_f12b,
        0x881d_c200_c983_3da7_26e9_376c_2e32_cff7,
    ),
    (
        b"Jefe",
        &[b"what do ya want ", b"for nothing?"],
        0x5bdc_c146_bf60_754e_6a04_2426_0895_75c7,
        0x5a00_3f08_9d27_3983_9dec_58b9_64ec_3843,
    ),
    (
        &[0xAA; 131],
        &[b"Test Using Larger Than Block-Size Key - Hash Key First"],
        0x60e4_3159_1ee0_b67f_0d8a_26aa_cbf5_b77f,
        0x8e0b_c621_3728_c514_0546_040f_0ee3_7f54,
    ),
];

#[test]
fn hmac_sha256_of_the_standard(rt: HostRuntime) {
    for (key, texts, high, low) in &CASES_OF_SHA256 {
        assert_eq!(rt; hmac_sha256(key, texts), digest256(*high, *low), "{key:?}");
    }
}
