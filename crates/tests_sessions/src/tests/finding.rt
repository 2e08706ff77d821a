//! Certificates that the finder makes for sessions, and their verdicts.

use super::relays::{
    CARRIED, GIVEN_TWICE, OTHER_DATA, OVERTAKEN, PAST_THE_CHANNELS, SENT, WITHIN_THE_GRACE,
};
use super::rows::{CHECK, Row, SESSION, conforming};
use std::alloc::{AllocError, Global};
use std::process::Abort;
use std::sync::Wait;
use std::test::Fail;
use std::thread::Threads;
use tests_datagrams::{ALLOCATED, Built, CHALLENGED, Datagram, PEER, PERMITTED, Payload, Step};
use tests_host::{Answer, Output, text_of};

static AUDIT: [&str; 6] = [
    "turnaudit",
    "audit",
    "--policy",
    "policy",
    "--creds",
    "creds",
];

static FIND: [&str; 6] = [
    "turnaudit",
    "find",
    "--policy",
    "policy",
    "--creds",
    "creds",
];

/// Whether the output is the expected one.
fn has_output(answer: &Answer, output: Output<'_>) -> bool {
    answer.output_like(&output) == output
}

/// The statuses of `audit`, of `find` and of `check` by the certificate that `find` writes, if each
/// has the expected output.
fn statuses(
    rt: &(impl Threads + Wait + Sync),
    alloc: Global,
    row: &Row,
    built: &Built,
) -> Result<Option<(u8, u8, u8)>, AllocError> {
    let audited = row.answer(rt, alloc, &AUDIT, built, "")?;
    let found = row.answer(rt, alloc, &FIND, built, "")?;
    let checked = row.answer(rt, alloc, &CHECK, built, text_of(&found.out))?;
    if has_output(&audited, row.output)
        && has_output(&found, WRITTEN)
        && has_output(&checked, row.output)
    {
        return Ok(Some((audited.status, found.status, checked.status)));
    }
    Ok(None)
}

/// Checks that `audit` has each row's expected output, and `check` by the certificate that `find`
/// writes, too.
fn play_found(
    rt: &(impl Abort + AllocGlobal + Threads + Wait + Sync),
    rows: &[Row],
) -> Result<(), Fail> {
    let alloc = rt.alloc();
    for row in rows {
        let built = row.build(alloc)?;
        assert_eq!(rt;
            statuses(rt, alloc, row, &built)?,
            Some((0, 0, 0)),
            "{}",
            row.name
        );
    }
    Ok(())
}

/// The output of `find`, except the certificate.
const WRITTEN: Output<'static> = Output {
    status: 0,
    out: None,
    err: Some(""),
};

static FOUND: [Row; 5] = [
    Row {
        name: "a_relay_is_found_whose_clock_is_early",
        output: conforming!(8),
        ..SENT
    },
    Row {
        name: "a_permission_is_found_before_its_success",
        output: conforming!(8),
        ..OVERTAKEN
    },
    Row {
        name: "a_channel_is_found_upwards",
        output: conforming!(8),
        ..CARRIED
    },
    Row {
        name: "data_that_nothing_relays_is_dropped",
        has_two_captures: true,
        steps: &[
            CHALLENGED,
            ALLOCATED,
            PERMITTED,
            Step::PeerRepeats(100, 1_030_000, b"hi"),
        ],
        output: conforming!(106),
        ..SESSION
    },
    Row {
        name: "a_send_within_the_grace_is_found",
        output: conforming!(8),
        ..WITHIN_THE_GRACE
    },
];

#[test]
fn certificates_are_found(rt: HostRuntime) -> Result<(), Fail> {
    play_found(&rt, &FOUND)
}

/// A session, and the start and the end of the report of `audit`.
#[derive(Clone, Copy)]
struct Shown {
    row: Row,
    begin: &'static str,
    end: &'static str,
}

macro_rules! shown {
    ($name:literal, $row:expr, $rule:literal, $datagram:literal) => {
        Shown {
            row: Row { name: $name, ..$row },
            begin: concat!("turnaudit-report 1\nnot shown\nrule ", $rule, "\nphase 2 "),
            end: concat!("\ndatagram ", $datagram, "\n"),
        }
    };
}

/// The peer's data after its permission expired, sent to the client.
const PAST_THE_PERMISSION: Row = Row {
    has_two_captures: true,
    steps: &[
        CHALLENGED,
        ALLOCATED,
        PERMITTED,
        Step::Seen(Datagram::FromPeer(310_000_000, b"hi")),
        Step::Seen(Datagram::ToClient(310_001_000, Payload::Data(PEER, b"hi"))),
    ],
    ..SESSION
};

static SHOWN: [Shown; 4] = [
    shown!(
        "other_data_is_shown_as_r13",
        OTHER_DATA,
        "R13 data differs",
        "0.6 198.51.100.7:40000 to 192.0.2.1:3478 44 bytes"
    ),
    shown!(
        "a_relay_past_the_permission_is_shown_as_r7",
        PAST_THE_PERMISSION,
        "R7 permission over",
        "64.0 203.0.113.9:7000 to 192.0.2.1:50000 2 bytes"
    ),
    shown!(
        "data_given_twice_is_shown_as_s10",
        GIVEN_TWICE,
        "S10 acted twice",
        "64.0 203.0.113.9:7000 to 192.0.2.1:50000 2 bytes"
    ),
    shown!(
        "a_number_past_the_channels_is_shown_as_r10",
        PAST_THE_CHANNELS,
        "R10 channel number",
        "0.4 198.51.100.7:40000 to 192.0.2.1:3478 92 bytes"
    ),
];

#[test]
fn breaches_are_shown_without_a_certificate(rt: HostRuntime) -> Result<(), Fail> {
    let alloc = rt.alloc();
    for Shown { row, begin, end } in &SHOWN {
        let built = row.build(alloc)?;
        let answer = row.answer(&rt, alloc, &AUDIT, &built, "")?;
        let report = text_of(&answer.out);
        let is_shown = answer.status == 1
            && answer.err.is_empty()
            && report.starts_with(*begin)
            && report.ends_with(*end);
        assert!(rt; is_shown, "{}: {}", row.name, report);
    }
    Ok(())
}
