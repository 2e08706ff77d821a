//! Captures that are judged while they grow.

use super::rows::{
    CERTIFICATE, CHECKED, CONFORMING, NO_REQUEST, OTHER_ADDRESS, Row, Sample, play, play_over,
};
use std::test::Fail;
use tests_host::{Files, Output, PLENTY, POLICY, run_program};

const TORN: Output<'static> = Output {
    status: 2,
    out: Some(""),
    err: Some("turnaudit: refused C1 in capture 0\n"),
};

const REFUSED: Output<'static> = Output {
    status: 2,
    out: Some(""),
    err: Some("turnaudit: refused C5 in capture 0\n"),
};

/// The Binding capture, judged while it grows.
const LIVE: Row<'static> = Row {
    name: "a_capture_that_grows_is_judged",
    words: &["turnaudit", "live", "--policy", "policy", "capture"],
    ..CHECKED
};

/// The same, with a turn without bytes that is waited for.
const PATIENT: Row<'static> = Row {
    words: &[
        "turnaudit",
        "live",
        "--policy",
        "policy",
        "--idle",
        "2",
        "capture",
    ],
    ..LIVE
};

const TWO_TURNS: Row<'static> = Row {
    name: "turns_are_counted",
    words: &[
        "turnaudit",
        "live",
        "--policy",
        "policy",
        "--turns",
        "2",
        "capture",
    ],
    ..LIVE
};

static GROWING: [Row<'static>; 9] = [
    LIVE,
    Row {
        turns: &[251, 1],
        ..LIVE
    },
    Row {
        turns: &[100, 0, 152],
        output: TORN,
        ..LIVE
    },
    Row {
        turns: &[100, 0, 152],
        ..PATIENT
    },
    Row {
        turns: &[100, 0, 0, 152],
        output: TORN,
        ..PATIENT
    },
    Row {
        name: "the_first_breach_is_told",
        capture: Sample::OtherPort,
        output: OTHER_ADDRESS,
        ..LIVE
    },
    Row {
        name: "the_first_breach_is_told",
        capture: Sample::OtherPort,
        turns: &[144, 60],
        output: OTHER_ADDRESS,
        ..LIVE
    },
    Row {
        turns: &[251, 1],
        ..TWO_TURNS
    },
    Row {
        turns: &[250, 1, 1],
        output: TORN,
        ..TWO_TURNS
    },
];

#[test]
fn captures_that_grow_are_judged(rt: HostRuntime) -> Result<(), Fail> {
    play(&rt, &GROWING)
}

#[test]
fn a_capture_may_be_cut_at_each_place_by_a_turn_without_bytes(rt: HostRuntime) -> Result<(), Fail> {
    let capture = PATIENT.capture.bytes(rt.alloc())?;
    for first in 1..capture.len() {
        let turns = &[first, 0];
        play_over(&rt, &Row { turns, ..PATIENT }, &capture)?;
    }
    Ok(())
}

#[test]
fn pauses_are_counted(rt: HostRuntime) -> Result<(), Fail> {
    let alloc = rt.alloc();
    let capture = PATIENT.capture.bytes(alloc)?;
    let mut files = Files::new(rt.alloc(), POLICY, CERTIFICATE, &capture);
    files.turns = &[100, 0, 152, 0];
    run_program(&rt, alloc, PATIENT.words, &mut files, PLENTY)?;
    // After the second turn, and after the fourth.
    assert_eq!(rt; files.pauses, 2);
    Ok(())
}

static NO_CAPTURES: [Row<'static>; 4] = [
    Row {
        name: "what_is_no_capture_is_refused, without bytes",
        capture: Sample::Nothing,
        output: REFUSED,
        ..LIVE
    },
    Row {
        name: "what_is_no_capture_is_refused, other bytes",
        capture: Sample::Noise,
        turns: &[3],
        output: REFUSED,
        ..LIVE
    },
    Row {
        name: "what_is_no_capture_is_refused, a file that is not there",
        words: &["turnaudit", "live", "--policy", "policy", "nowhere"],
        capture: Sample::Nothing,
        output: Output {
            status: 4,
            out: Some(""),
            err: Some("turnaudit: read failed\n"),
        },
        ..LIVE
    },
    Row {
        name: "what_is_no_capture_is_refused, the second in the first turn and the first in the second turn",
        words: &[
            "turnaudit",
            "live",
            "--policy",
            "policy",
            "capture",
            "second",
        ],
        capture: Sample::Section,
        second: &[7; 40],
        turns: &[28],
        output: Output {
            status: 2,
            out: Some(""),
            err: Some("turnaudit: refused C5 in capture 1\n"),
        },
        ..LIVE
    },
];

#[test]
fn what_is_no_capture_is_refused(rt: HostRuntime) -> Result<(), Fail> {
    play(&rt, &NO_CAPTURES)
}

/// An option with a number of turns.
macro_rules! with {
    ($option:literal, $number:literal, $capture:expr, $output:expr) => {
        Row {
            name: concat!($option, " ", $number),
            words: &[
                "turnaudit",
                "live",
                "--policy",
                "policy",
                $option,
                $number,
                "capture",
            ],
            capture: $capture,
            output: $output,
            ..LIVE
        }
    };
}

/// In the last three, the first turn returns the whole capture.
static NUMBERS: [Row<'static>; 9] = [
    with!("--idle", "0", Sample::Section, NO_REQUEST),
    with!("--turns", "0", Sample::Section, NO_REQUEST),
    with!("--idle", "1000001", Sample::Section, NO_REQUEST),
    with!("--turns", "1000001", Sample::Section, NO_REQUEST),
    with!("--idle", "x", Sample::Section, NO_REQUEST),
    with!("--turns", "x", Sample::Section, NO_REQUEST),
    with!("--idle", "1", Sample::Binding, CONFORMING),
    with!("--turns", "1", Sample::Binding, CONFORMING),
    with!("--turns", "1000000", Sample::Binding, CONFORMING),
];

#[test]
fn numbers_of_turns_are_1_to_1000000(rt: HostRuntime) -> Result<(), Fail> {
    play(&rt, &NUMBERS)
}
