//! Lines as long as a line may be, and longer by one byte, cut at many places.

use audit_cert::{CertFault, CertFaultKind, CertificateReader};
use audit_keys::{CredFault, CredFaultKind, CredentialsReader};
use audit_model::{PolicyFault, PolicyFaultKind, PolicyReader};
use audit_text::LONGEST_LINE;
use std::alloc::{AllocError, Global};
use std::test::Fail;

/// A text, a line that is filled up to this length, and its LF.
fn text_of(alloc: Global, front: &str, line: &str, length: usize) -> Result<String, AllocError> {
    let mut text = String::from_str(alloc, front)?;
    text.push_str(line)?;
    for _ in line.len()..length {
        text.push('9')?;
    }
    text.push('\n')?;
    Ok(text)
}

/// Why a policy of these two pieces is refused.
fn policy_fault(alloc: Global, first: &[u8], second: &[u8]) -> Option<PolicyFault> {
    match PolicyReader::new(alloc).feed(first) {
        Ok(reader) => match reader.feed(second) {
            Ok(reader) => reader.finish().err(),
            Err(fault) => Some(fault),
        },
        Err(fault) => Some(fault),
    }
}

/// Why credentials of these two pieces are refused.
fn credentials_fault(alloc: Global, first: &[u8], second: &[u8]) -> Option<CredFault> {
    match CredentialsReader::new(alloc).feed(first) {
        Ok(reader) => match reader.feed(second) {
            Ok(reader) => reader.finish().err(),
            Err(fault) => Some(fault),
        },
        Err(fault) => Some(fault),
    }
}

/// Why a certificate of these two pieces is refused.
fn certificate_fault(alloc: Global, first: &[u8], second: &[u8]) -> Option<CertFault> {
    match CertificateReader::new(alloc).feed(first) {
        Ok(reader) => match reader.feed(second) {
            Ok(reader) => reader.finish().err(),
            Err(fault) => Some(fault),
        },
        Err(fault) => Some(fault),
    }
}

/// Whether a text is cut here: around the first byte of its long line, around its end, and in steps
/// between them.
fn is_cut(at: usize, line: usize, length: usize) -> bool {
    let is_by_line = at.saturating_sub(line) < 6 && line.saturating_sub(at) < 6;
    is_by_line || length.saturating_sub(at) < 6 || at % 16_381 == 0
}

#[test]
fn long_line_of_a_policy(rt: HostRuntime) -> Result<(), Fail> {
    let lengths = [
        (3_000, PolicyFaultKind::Number),
        (LONGEST_LINE, PolicyFaultKind::Number),
        (LONGEST_LINE + 1, PolicyFaultKind::Line),
    ];
    for (length, kind) in lengths {
        let front = "turnaudit-policy 1\n";
        let text = text_of(rt.alloc(), front, "skew-us ", length)?;
        let bytes = text.as_bytes();
        for at in 0..bytes.len() {
            if is_cut(at, front.len(), bytes.len()) {
                let (first, second) = bytes.split_at(at);
                assert_eq!(rt;
                    policy_fault(rt.alloc(), first, second),
                    Some(PolicyFault { kind, line: 2 })
                );
            }
        }
    }
    Ok(())
}

#[test]
fn long_line_of_credentials(rt: HostRuntime) -> Result<(), Fail> {
    let lengths = [
        (5_000, CredFaultKind::Limit),
        (LONGEST_LINE, CredFaultKind::Limit),
        (LONGEST_LINE + 1, CredFaultKind::Line),
    ];
    for (length, kind) in lengths {
        let front = "user\trealm\tpass\n";
        let text = text_of(rt.alloc(), front, "user\trealm.example\t", length)?;
        let bytes = text.as_bytes();
        for at in 0..bytes.len() {
            if is_cut(at, front.len(), bytes.len()) {
                let (first, second) = bytes.split_at(at);
                assert_eq!(rt;
                    credentials_fault(rt.alloc(), first, second),
                    Some(CredFault { kind, line: 2 })
                );
            }
        }
    }
    Ok(())
}

#[test]
fn long_line_of_a_certificate(rt: HostRuntime) -> Result<(), Fail> {
    let lengths = [
        (3_000, CertFaultKind::Number),
        (LONGEST_LINE, CertFaultKind::Number),
        (LONGEST_LINE + 1, CertFaultKind::Line),
    ];
    for (length, kind) in lengths {
        let front = "turnaudit-certificate 1\nlane 198.51.100.7:40000 192.0.2.1:3478\n";
        let text = text_of(rt.alloc(), front, "in 0.0 1 ", length)?;
        let bytes = text.as_bytes();
        for at in 0..bytes.len() {
            if is_cut(at, front.len(), bytes.len()) {
                let (first, second) = bytes.split_at(at);
                assert_eq!(rt;
                    certificate_fault(rt.alloc(), first, second),
                    Some(CertFault { kind, line: 3 })
                );
            }
        }
    }
    Ok(())
}

/// A short text with each kind of fault, cut at each byte, is refused as in one piece.
#[test]
fn short_texts_cut_at_each_byte(rt: HostRuntime) -> Result<(), Fail> {
    let policies = [
        (
            "turnaudit-policy 1\nlisten 192.0.2.1\n",
            PolicyFaultKind::Line,
            2,
        ),
        (
            "turnaudit-policy 1\nlisten 192.0.2.1:03478\n",
            PolicyFaultKind::Number,
            2,
        ),
        (
            "turnaudit-policy 1\nlisten 192.0.2.1:3478",
            PolicyFaultKind::Line,
            2,
        ),
        (
            "turnaudit-policy 1\nskew-us 1\n",
            PolicyFaultKind::Missing,
            3,
        ),
    ];
    for (text, kind, line) in policies {
        for at in 0..text.len() {
            let (first, second) = text.as_bytes().split_at(at);
            assert_eq!(rt;
                policy_fault(rt.alloc(), first, second),
                Some(PolicyFault { kind, line })
            );
        }
    }
    let users = [
        ("user\trealm\n", CredFaultKind::Line, 1),
        ("user\trealm\tp\nuser\trealm\tq\n", CredFaultKind::Double, 2),
        ("user\trealm\tp\x07\n", CredFaultKind::Character, 1),
        ("user\trealm\tp", CredFaultKind::Line, 1),
    ];
    for (text, kind, line) in users {
        for at in 0..text.len() {
            let (first, second) = text.as_bytes().split_at(at);
            assert_eq!(rt;
                credentials_fault(rt.alloc(), first, second),
                Some(CredFault { kind, line })
            );
        }
    }
    let certificates = [
        ("turnaudit-certificate 3\nend\n", CertFaultKind::Heading, 1),
        (
            "turnaudit-certificate 1\nin 0.0 1 0\nend\n",
            CertFaultKind::Line,
            2,
        ),
        (
            "turnaudit-certificate 1\ndrop 0.01 1 0\nend\n",
            CertFaultKind::Number,
            2,
        ),
        ("turnaudit-certificate 1\n", CertFaultKind::EndMissing, 2),
    ];
    for (text, kind, line) in certificates {
        for at in 0..text.len() {
            let (first, second) = text.as_bytes().split_at(at);
            assert_eq!(rt;
                certificate_fault(rt.alloc(), first, second),
                Some(CertFault { kind, line })
            );
        }
    }
    Ok(())
}
