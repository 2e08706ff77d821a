//! Messages and ChannelData of stored runs, and the values that they are parsed to.

use audit_model::Addr;
use audit_stun::numbers::attribute::*;
use audit_stun::numbers::method;
use audit_stun::{Class, address, channel_data, error_code, message, numbers};
use std::test::Fail;

/// The Binding request of a stored run, at field boundaries.
static REQUEST: [u8; 20] = [
    0x00, 0x01, 0x00, 0x00, // Binding request, no attributes
    0x21, 0x12, 0xA4, 0x42, // magic cookie
    0, 1, 2, 3, 4, 5, 6, 7, 8, 9, 10, 11, // transaction id
];

/// Its success response, with the mapped address 198.51.100.7:40000.
static SUCCESS: [u8; 32] = [
    0x01, 0x01, 0x00, 0x0C, // Binding success, twelve bytes of attributes
    0x21, 0x12, 0xA4, 0x42, // magic cookie
    0, 1, 2, 3, 4, 5, 6, 7, 8, 9, 10, 11, // transaction id
    0x00, 0x20, 0x00, 0x08, // XOR-MAPPED-ADDRESS
    0x00, 0x01, 0xBD, 0x52, // IPv4, xor'd port
    0xE7, 0x21, 0xC0, 0x45, // xor'd address
];

#[test]
fn binding_and_its_success(rt: HostRuntime) -> Result<(), Fail> {
    let request = message(&REQUEST).ok_or("a request")?;
    assert_eq!(rt; request.class(), Class::Request);
    assert_eq!(rt; request.method(), method::BINDING);
    assert!(rt; request.first(XOR_MAPPED_ADDRESS).is_none());
    assert!(rt; request.covered().is_none());
    let success = message(&SUCCESS).ok_or("a success")?;
    assert_eq!(rt; success.class(), Class::Success);
    assert_eq!(rt; success.method(), method::BINDING);
    assert_eq!(rt; success.tid(), [0, 1, 2, 3, 4, 5, 6, 7, 8, 9, 10, 11]);
    let mapped = success.first(XOR_MAPPED_ADDRESS).ok_or("an address")?;
    let client = Addr {
        ip: 0xC633_6407,
        port: 40000,
    };
    assert_eq!(rt; address(mapped), Some(client));
    Ok(())
}

#[test]
fn classes_and_methods(rt: HostRuntime) -> Result<(), Fail> {
    let mut bytes = REQUEST;
    for (high, low, class, number) in [
        (0x00, 0x03, Class::Request, method::ALLOCATE),
        (0x00, 0x16, Class::Indication, method::SEND),
        (0x00, 0x17, Class::Indication, method::DATA),
        (0x01, 0x04, Class::Success, method::REFRESH),
        (0x01, 0x18, Class::Error, method::CREATE_PERMISSION),
        (0x01, 0x19, Class::Error, method::CHANNEL_BIND),
        (0x3E, 0xEF, Class::Request, 0xFFF),
        (0x3F, 0xFF, Class::Error, 0xFFF),
    ] {
        bytes[0] = high;
        bytes[1] = low;
        let message = message(&bytes).ok_or("a message")?;
        assert_eq!(rt; message.class(), class);
        assert_eq!(rt; message.method(), number);
    }
    Ok(())
}

#[test]
fn payloads_that_are_no_message(rt: HostRuntime) {
    for (at, byte) in [
        (0, 0x40), // a type of fifteen bits
        (3, 0x06), // a length that is no multiple of four
        (3, 0x08), // less than the rest
        (3, 0x10), // more than the rest
        (4, 0x22), // another cookie
        (22, 0xFF), // an attribute past the end
        (23, 0x04), // half of an attribute after the first one
    ] {
        let mut bytes = SUCCESS;
        bytes[at] = byte;
        assert!(rt; message(&bytes).is_none(), "byte {at} is {byte}");
    }
    for len in 0..SUCCESS.len() {
        assert!(rt; message(&SUCCESS[..len]).is_none(), "{len} bytes");
    }
}

/// A Send indication with two peers and attributes after MESSAGE-INTEGRITY, of which some count and
/// some don't.
static AFTER_INTEGRITY: [u8; 92] = [
    0x00, 0x16, 0x00, 0x48, // Send indication
    0x21, 0x12, 0xA4, 0x42, // magic cookie
    0, 0, 0, 0, 0, 0, 0, 0, 0, 0, 0, 1, // transaction id
    0x00, 0x12, 0x00, 0x01, 0x01, 0xAA, 0xBB, 0xCC, // XOR-PEER-ADDRESS of one byte, any padding
    0x00, 0x13, 0x00, 0x00, // DATA of no bytes
    0x00, 0x12, 0x00, 0x02, 0x02, 0x02, 0x00, 0x00, // another XOR-PEER-ADDRESS
    0x00, 0x08, 0x00, 0x05, 1, 2, 3, 4, 5, 0, 0, 0, // MESSAGE-INTEGRITY of five bytes
    0x00, 0x12, 0x00, 0x01, 0x03, 0, 0, 0, // a third XOR-PEER-ADDRESS
    0x00, 0x0D, 0x00, 0x04, 0, 0, 0, 0, // LIFETIME
    0x00, 0x1C, 0x00, 0x04, 6, 6, 6, 6, // MESSAGE-INTEGRITY-SHA256
    0x00, 0x08, 0x00, 0x04, 7, 7, 7, 7, // another MESSAGE-INTEGRITY
    0x80, 0x28, 0x00, 0x04, 8, 8, 8, 8, // FINGERPRINT
];

#[test]
fn what_counts(rt: HostRuntime) -> Result<(), Fail> {
    let message = message(&AFTER_INTEGRITY).ok_or("a message")?;
    for (kind, want) in [
        (XOR_PEER_ADDRESS, Some([1].as_slice())),
        (DATA, Some([].as_slice())),
        (MESSAGE_INTEGRITY, Some([1, 2, 3, 4, 5].as_slice())),
        (LIFETIME, None),
        (MESSAGE_INTEGRITY_SHA256, Some([6, 6, 6, 6].as_slice())),
        (FINGERPRINT, Some([8, 8, 8, 8].as_slice())),
        (NONCE, None),
    ] {
        assert_eq!(rt; message.first(kind), want, "{kind}");
    }
    let mut peers = message.peers();
    assert_eq!(rt; peers.next(), Some([1].as_slice()));
    assert_eq!(rt; peers.next(), Some([2, 2].as_slice()));
    assert_eq!(rt; peers.next(), None);
    let (head, text, value) = message.covered().ok_or("an integrity")?;
    assert_eq!(rt; head, [0x00, 0x16, 0x00, 0x20]);
    assert_eq!(rt; text, &AFTER_INTEGRITY[4..40]);
    assert_eq!(rt; value, [1, 2, 3, 4, 5].as_slice());
    Ok(())
}

/// A request with PASSWORD-ALGORITHM before its MESSAGE-INTEGRITY-SHA256.
static AFTER_SHA256: [u8; 60] = [
    0x00, 0x03, 0x00, 0x28, // Allocate request
    0x21, 0x12, 0xA4, 0x42, // magic cookie
    0, 0, 0, 0, 0, 0, 0, 0, 0, 0, 0, 1, // transaction id
    0x00, 0x1D, 0x00, 0x04, 0, 2, 0, 0, // PASSWORD-ALGORITHM
    0x00, 0x1C, 0x00, 0x04, 6, 6, 6, 6, // MESSAGE-INTEGRITY-SHA256
    0x00, 0x08, 0x00, 0x04, 7, 7, 7, 7, // MESSAGE-INTEGRITY
    0x00, 0x1C, 0x00, 0x04, 5, 5, 5, 5, // another MESSAGE-INTEGRITY-SHA256
    0x80, 0x28, 0x00, 0x04, 8, 8, 8, 8, // FINGERPRINT
];

#[test]
fn two_integrities(rt: HostRuntime) -> Result<(), Fail> {
    let both = message(&AFTER_INTEGRITY).ok_or("a message")?;
    let (head, text, value) = both.covered256().ok_or("an integrity")?;
    assert_eq!(rt; head, [0x00, 0x16, 0x00, 0x38]);
    assert_eq!(rt; text, &AFTER_INTEGRITY[4..68]);
    assert_eq!(rt; value, [6, 6, 6, 6].as_slice());
    let one = message(&AFTER_SHA256).ok_or("a message")?;
    for (kind, want) in [
        (PASSWORD_ALGORITHM, Some([0, 2, 0, 0].as_slice())),
        (MESSAGE_INTEGRITY_SHA256, Some([6, 6, 6, 6].as_slice())),
        (MESSAGE_INTEGRITY, None),
        (FINGERPRINT, Some([8, 8, 8, 8].as_slice())),
    ] {
        assert_eq!(rt; one.first(kind), want, "{kind}");
    }
    assert!(rt; one.covered().is_none());
    let (head, text, value) = one.covered256().ok_or("an integrity")?;
    assert_eq!(rt; head, [0x00, 0x03, 0x00, 0x10]);
    assert_eq!(rt; text, &AFTER_SHA256[4..28]);
    assert_eq!(rt; value, [6, 6, 6, 6].as_slice());
    Ok(())
}

#[test]
fn channel_data_and_its_padding(rt: HostRuntime) {
    for (payload, want) in [
        (
            [0x40, 0, 0, 2, 0x68, 0x69].as_slice(),
            Some((0x4000, b"hi".as_slice(), 0)),
        ),
        (&[0x7F, 0xFF, 0, 0], Some((0x7FFF, &[], 0))),
        (
            &[0x4F, 0xFF, 0, 2, 0x68, 0x69, 0, 0, 0],
            Some((0x4FFF, b"hi", 3)),
        ),
        (&[0x40, 0, 0xFF, 0xFF], None),
        (&[0x40, 0, 0, 3, 0x68, 0x69], None),
        (&[0x3F, 0xFF, 0, 0], None),
        (&[0x80, 0, 0, 0], None),
        (&[0x40, 0, 0], None),
    ] {
        assert_eq!(rt; channel_data(payload), want);
    }
}

#[test]
fn addresses_and_error_codes(rt: HostRuntime) {
    for (value, want) in [
        (
            [9, 1, 0xBD, 0x52, 0xE7, 0x21, 0xC0, 0x45].as_slice(),
            Some((0xC633_6407, 40000)),
        ),
        (&[0, 2, 0xBD, 0x52, 0xE7, 0x21, 0xC0, 0x45], None),
        (&[0, 1, 0xBD, 0x52, 0xE7, 0x21, 0xC0], None),
        (&[0, 1, 0xBD, 0x52, 0xE7, 0x21, 0xC0, 0x45, 0], None),
    ] {
        let want = want.map(|(ip, port)| Addr { ip, port });
        assert_eq!(rt; address(value), want);
    }
    for (value, want) in [
        ([0, 0, 4, 1].as_slice(), Some(401)),
        (&[0xFF, 0xFF, 0xFC, 38, b'o'], Some(438)),
        (&[0, 0, 3, 0], Some(300)),
        (&[0, 0, 6, 99], Some(699)),
        (&[0, 0, 6, 100], None),
        (&[0, 0, 2, 1], None),
        (&[0, 0, 7, 1], None),
        (&[0, 0, 4], None),
    ] {
        assert_eq!(rt; error_code(value), want);
    }
}

#[test]
fn numbers_of_the_standards(rt: HostRuntime) {
    for (number, want) in [
        (USERNAME, 6),
        (MESSAGE_INTEGRITY, 8),
        (ERROR_CODE, 9),
        (UNKNOWN_ATTRIBUTES, 10),
        (CHANNEL_NUMBER, 12),
        (LIFETIME, 13),
        (XOR_PEER_ADDRESS, 18),
        (DATA, 19),
        (REALM, 20),
        (NONCE, 21),
        (XOR_RELAYED_ADDRESS, 22),
        (REQUESTED_ADDRESS_FAMILY, 23),
        (EVEN_PORT, 24),
        (REQUESTED_TRANSPORT, 25),
        (MESSAGE_INTEGRITY_SHA256, 28),
        (PASSWORD_ALGORITHM, 29),
        (XOR_MAPPED_ADDRESS, 32),
        (FINGERPRINT, 32808),
        (method::BINDING, 1),
        (method::ALLOCATE, 3),
        (method::REFRESH, 4),
        (method::SEND, 6),
        (method::DATA, 7),
        (method::CREATE_PERMISSION, 8),
        (method::CHANNEL_BIND, 9),
    ] {
        assert_eq!(rt; number, want);
    }
    assert_eq!(rt;
        numbers::MAGIC_COOKIE.to_be_bytes(),
        [0x21, 0x12, 0xA4, 0x42]
    );
    assert_eq!(rt; numbers::FAMILY_IPV4, 1);
}
