//! A policy, a certificate and credentials as large as they may be.

use audit_cert::{CertFault, CertFaultKind, CertificateReader};
use audit_keys::{CredFault, CredFaultKind, CredentialsReader};
use audit_model::{PolicyFault, PolicyFaultKind, read_policy};
use std::alloc::{AllocError, Global};
use std::test::Fail;

/// How many bytes of a text are fed at once.
const PIECE: usize = 65_536;

/// A policy with all settings, this number of listen lines, and 64 relay lines.
fn policy_text(alloc: Global, listens: u32) -> Result<String, AllocError> {
    let mut text = String::from_str(
        alloc,
        "turnaudit-policy 1\nskew-us 500\ngrace-ms 1000\nhold-ms 2000\n",
    )?;
    for number in 0..64u32 {
        writeln!(text, "relay 192.0.2.{number}:49152-65535")?;
    }
    for number in 0..listens {
        writeln!(text, "listen 192.0.2.{number}:3478")?;
    }
    Ok(text)
}

#[test]
fn policy_of_128_endpoints(rt: HostRuntime) -> Result<(), Fail> {
    let text = policy_text(rt.alloc(), 64)?;
    let policy = read_policy(rt.alloc(), text.as_bytes())?;
    assert_eq!(rt; policy.listen.len(), 64);
    assert_eq!(rt; policy.relay.len(), 64);
    let text = policy_text(rt.alloc(), 65)?;
    let refused = PolicyFault {
        kind: PolicyFaultKind::Limit,
        line: 133,
    };
    assert_eq!(rt;
        read_policy(rt.alloc(), text.as_bytes()).err(),
        Some(refused)
    );
    Ok(())
}

/// A policy with this number of interface skews.
fn skews_text(alloc: Global, skews: u32) -> Result<String, AllocError> {
    let mut text = String::from_str(alloc, "turnaudit-policy 2\nlisten 192.0.2.1:3478\n")?;
    for number in 0..skews {
        writeln!(text, "skew-of {number} {number}")?;
    }
    Ok(text)
}

#[test]
fn policy_of_1024_skews(rt: HostRuntime) -> Result<(), Fail> {
    let text = skews_text(rt.alloc(), 1_024)?;
    let policy = read_policy(rt.alloc(), text.as_bytes())?;
    assert_eq!(rt; policy.skews.len(), 1_024);
    assert_eq!(rt; policy.skew_for(1_023), 1_023_000);
    assert_eq!(rt; policy.skew_for(1_024), 500_000);
    let text = skews_text(rt.alloc(), 1_025)?;
    let refused = PolicyFault {
        kind: PolicyFaultKind::Limit,
        line: 1_027,
    };
    assert_eq!(rt;
        read_policy(rt.alloc(), text.as_bytes()).err(),
        Some(refused)
    );
    Ok(())
}

/// A certificate with this number of skews, and nothing else.
fn cut_text(alloc: Global, skews: u32) -> Result<String, AllocError> {
    let mut text = String::from_str(alloc, "turnaudit-certificate 2\n")?;
    for number in 0..skews {
        writeln!(text, "skew {number} {number}")?;
    }
    text.push_str("end\n")?;
    Ok(text)
}

#[test]
fn certificate_of_1024_skews(rt: HostRuntime) -> Result<(), Fail> {
    let text = cut_text(rt.alloc(), 1_024)?;
    let certificate = audit_cert::read(rt.alloc(), text.as_bytes())?;
    assert_eq!(rt; certificate.skews.len(), 1_024);
    assert_eq!(rt; certificate.skew_of(1_023), Some(1_023));
    assert_eq!(rt; certificate.skew_of(1_024), None);
    let text = cut_text(rt.alloc(), 1_025)?;
    let refused = CertFault {
        kind: CertFaultKind::Limit,
        line: 1_026,
    };
    assert_eq!(rt;
        audit_cert::read(rt.alloc(), text.as_bytes()).err(),
        Some(refused)
    );
    Ok(())
}

/// Four megabytes of a lane's arrivals.
fn certificate_text(alloc: Global) -> Result<String, AllocError> {
    let mut text = String::from_str(
        alloc,
        "turnaudit-certificate 1\nlane 198.51.100.7:40000 192.0.2.1:3478\n",
    )?;
    for index in 0..160_000u32 {
        writeln!(text, "in 0.{index} {index} 4294967295")?;
    }
    text.push_str("end\n")?;
    Ok(text)
}

#[test]
fn certificate_of_four_megabytes(rt: HostRuntime) -> Result<(), Fail> {
    let text = certificate_text(rt.alloc())?;
    assert!(rt; text.len() > 4_000_000);
    let mut reader = CertificateReader::new(rt.alloc());
    for piece in text.as_bytes().chunks(PIECE) {
        reader = reader.feed(piece)?;
    }
    let certificate = reader.finish()?;
    assert_eq!(rt; certificate.lanes.len(), 1);
    for lane in certificate.lanes.as_slice() {
        assert_eq!(rt; lane.events.len(), 160_000);
    }
    Ok(())
}

/// This number of users of one realm.
fn credentials_text(alloc: Global, users: u32) -> Result<String, AllocError> {
    let mut text = String::new(alloc);
    for number in 0..users {
        writeln!(text, "user{number}\trealm\tpass{number}")?;
    }
    Ok(text)
}

#[test]
fn users_65536(rt: HostRuntime) -> Result<(), Fail> {
    let text = credentials_text(rt.alloc(), 65_536)?;
    let mut reader = CredentialsReader::new(rt.alloc());
    for piece in text.as_bytes().chunks(PIECE) {
        reader = reader.feed(piece)?;
    }
    let credentials = reader.finish()?;
    assert!(rt; credentials.lookup(b"user65535", b"realm").is_some());
    assert!(rt; credentials.lookup(b"user65536", b"realm").is_none());
    Ok(())
}

#[test]
fn one_user_too_many(rt: HostRuntime) -> Result<(), Fail> {
    let text = credentials_text(rt.alloc(), 65_537)?;
    let refused = CredFault {
        kind: CredFaultKind::Limit,
        line: 65_537,
    };
    let read = CredentialsReader::new(rt.alloc()).feed(text.as_bytes());
    assert_eq!(rt; read.err(), Some(refused));
    Ok(())
}
