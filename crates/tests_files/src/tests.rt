//! The output for files in memory: the report and its status, or why there is none.

use crate::memory::{Files, Kept};
use audit_files::{Stop, Workers, check_files};
use std::alloc::Global;
use std::sync::Wait;
use std::test::*;
use std::thread::Threads;

const POLICY: &[u8] = b"turnaudit-policy 1\nlisten 192.0.2.1:3478\nrelay 192.0.2.1:49152-65535\n";

const EMPTY: &[u8] = b"turnaudit-certificate 1\nend\n";

/// A section header, and nothing after it.
const NOTHING: &[u8] = &[
    0x0a, 0x0d, 0x0d, 0x0a, 0x1c, 0, 0, 0, 0x4d, 0x3c, 0x2b, 0x1a, 1, 0, 0, 0, 0xff, 0xff, 0xff,
    0xff, 0xff, 0xff, 0xff, 0xff, 0x1c, 0, 0, 0,
];

/// The status and the report for these files.
fn told(
    rt: &(impl Threads + Wait + Sync),
    alloc: Global,
    mut files: Files<'_>,
) -> Result<(u8, Kept), Stop> {
    let mut out = Kept {
        bytes: Vec::new(alloc),
    };
    let status = check_files(
        rt,
        alloc,
        &mut files,
        "policy",
        None,
        "certificate",
        &["capture"],
        Workers::one(),
        &mut out,
    )?;
    Ok((status, out))
}

#[test]
fn captures_without_a_datagram_conform(rt: HostRuntime) -> Result<(), Fail> {
    let files = Files {
        policy: POLICY,
        certificate: EMPTY,
        capture: NOTHING,
    };
    let Ok((status, out)) = told(&rt, rt.alloc(), files) else {
        return Err(Fail::new("no report"));
    };
    assert_eq!(rt; status, 0);
    assert_eq!(rt;
        out.bytes.as_slice(),
        b"turnaudit-report 1\nconforming 0 datagrams 0 lanes\n".as_slice()
    );
    Ok(())
}

#[test]
fn a_policy_without_a_line_is_refused(rt: HostRuntime) -> Result<(), Fail> {
    let files = Files {
        policy: b"",
        certificate: EMPTY,
        capture: NOTHING,
    };
    let refused = told(&rt, rt.alloc(), files).err().map(|stop| stop.status());
    assert_eq!(rt; refused, Some(2));
    Ok(())
}
