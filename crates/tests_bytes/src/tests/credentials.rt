//! The credentials file.

use super::keys::KEY;
use audit_keys::{CredFault, CredFaultKind, Credentials};
use std::alloc::{AllocError, Global};
use std::test::Fail;

/// Users and realms, and whether the file has a key for them.
static LOOKED_UP: [(&[u8], &[u8], bool); 5] = [
    (b"user", b"realm 2", true),
    (b"other", b"realm", true),
    (b"other", b"realm 2", false),
    (b"user", b"real", false),
    (b"realm", b"user", false),
];

#[test]
fn lookups(rt: HostRuntime) -> Result<(), Fail> {
    let text = b"user\trealm\tpass\nuser\trealm 2\t\nother\trealm\tpass\n";
    let credentials = Credentials::read(rt.alloc(), text)?;
    let found = credentials.lookup(b"user", b"realm").ok_or("a key")?;
    assert_eq!(rt; u128::from_be_bytes(found.md5), KEY);
    for (user, realm, is_there) in &LOOKED_UP {
        let found = credentials.lookup(user, realm);
        assert_eq!(rt; found.is_some(), *is_there, "{user:?} of {realm:?}");
    }
    let none = Credentials::read(rt.alloc(), b"")?;
    assert!(rt; none.lookup(b"user", b"realm").is_none());
    Ok(())
}

/// Texts, and the fault of each with its line.
static FAULTS: [(&[u8], CredFaultKind, u64); 12] = [
    (b"user\trealm\tpass\r\n", CredFaultKind::Character, 1),
    (
        b"user\trealm\tpass\nuser\trealm\tpass\n",
        CredFaultKind::Double,
        2,
    ),
    (
        b"user\trealm\tpass\nuser\trealm\tother\n",
        CredFaultKind::Double,
        2,
    ),
    (b"user\trealm\tpass", CredFaultKind::Line, 1),
    (b"user\trealm\tpass\n\n", CredFaultKind::Line, 2),
    (b"user\trealm\n", CredFaultKind::Line, 1),
    (b"user\trealm\tpass\tmore\n", CredFaultKind::Line, 1),
    (b"\trealm\tpass\n", CredFaultKind::Line, 1),
    (b"user\t\tpass\n", CredFaultKind::Line, 1),
    (b"user\x7F\n", CredFaultKind::Character, 1),
    (b"user\x1F", CredFaultKind::Character, 1),
    (b"us\xC3\xA9r\trealm\tpass\n", CredFaultKind::Character, 1),
];

#[test]
fn faults(rt: HostRuntime) -> Result<(), Fail> {
    for (text, kind, line) in &FAULTS {
        let read = Credentials::read(rt.alloc(), text);
        let fault = CredFault {
            kind: *kind,
            line: *line,
        };
        assert_eq!(rt; read.err(), Some(fault), "{text:?}");
    }
    Ok(())
}

/// A line of a user, a realm and a password of these lengths.
fn line_of(
    alloc: Global,
    user: usize,
    realm: usize,
    password: usize,
) -> Result<Vec<u8>, AllocError> {
    let mut text = Vec::new(alloc);
    for (length, end) in [(user, b'\t'), (realm, b'\t'), (password, b'\n')] {
        for _ in 0..length {
            text.push(b'x')?;
        }
        text.push(end)?;
    }
    Ok(text)
}

#[test]
fn long_fields(rt: HostRuntime) -> Result<(), Fail> {
    let limit = CredFault {
        kind: CredFaultKind::Limit,
        line: 1,
    };
    for (length, wanted) in [(508, None), (509, Some(limit))] {
        for (user, realm, password) in [(length, 1, 1), (1, length, 1), (1, 1, length)] {
            let text = line_of(rt.alloc(), user, realm, password)?;
            let read = Credentials::read(rt.alloc(), &text);
            assert_eq!(rt; read.err(), wanted, "{user}, {realm} and {password} bytes");
        }
    }
    Ok(())
}

#[test]
fn many_lines(rt: HostRuntime) -> Result<(), Fail> {
    let mut text = Vec::new(rt.alloc());
    for number in 0..65_536u32 {
        let user = number.to_be_bytes().map(|byte| b' ' + byte % 64);
        let realm = number.to_be_bytes().map(|byte| b' ' + byte / 64);
        text.extend_from_slice(&user)?;
        text.push(b'\t')?;
        text.extend_from_slice(&realm)?;
        text.extend_from_slice(b"\tpass\n")?;
    }
    // The same line again: the limit is reported before the duplicate.
    text.extend_from_slice(b"    \t    \tpass\n")?;
    let read = Credentials::read(rt.alloc(), text.as_slice());
    let limit = CredFault {
        kind: CredFaultKind::Limit,
        line: 65_537,
    };
    assert_eq!(rt; read.err().ok_or("a fault")?, limit);
    Ok(())
}
