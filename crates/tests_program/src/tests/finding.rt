//! Certificates that the finder makes for the Binding capture.

use super::rows::{CHECKED, Row, Sample, play};
use std::test::Fail;
use tests_host::{Files, Output, PLENTY, POLICY, run_program};

static FIND: [&str; 5] = ["turnaudit", "find", "--policy", "policy", "capture"];

const AUDITED: Row<'static> = Row {
    name: "a_binding_is_found",
    words: &["turnaudit", "audit", "--policy", "policy", "capture"],
    certificate: "",
    ..CHECKED
};

const FOUND: Row<'static> = Row {
    name: "no_datagrams_have_an_empty_certificate",
    words: &["turnaudit", "find", "--policy", "policy", "capture"],
    certificate: "",
    capture: Sample::Section,
    output: Output {
        status: 0,
        out: Some("turnaudit-certificate 1\nend\n"),
        err: Some(""),
    },
    ..CHECKED
};

static FINDING: [Row<'static>; 2] = [AUDITED, FOUND];

#[test]
fn captures_are_audited_without_a_certificate(rt: HostRuntime) -> Result<(), Fail> {
    play(&rt, &FINDING)
}

/// `audit` with a number of workers.
macro_rules! with_workers {
    ($count:literal) => {
        Row {
            name: concat!("audit with ", $count),
            words: &[
                "turnaudit",
                "audit",
                "--policy",
                "policy",
                "--workers",
                $count,
                "capture",
            ],
            ..AUDITED
        }
    };
}

static BY_WORKERS: [Row<'static>; 3] = [
    with_workers!("1"),
    with_workers!("2"),
    with_workers!("256"),
];

#[test]
fn any_number_of_workers_answers_alike(rt: HostRuntime) -> Result<(), Fail> {
    play(&rt, &BY_WORKERS)
}

static FIND_WITH_WORKERS: [[&str; 7]; 2] = [
    [
        "turnaudit",
        "find",
        "--policy",
        "policy",
        "--workers",
        "2",
        "capture",
    ],
    [
        "turnaudit",
        "find",
        "--policy",
        "policy",
        "--workers",
        "256",
        "capture",
    ],
];

#[test]
fn any_number_of_workers_finds_alike(rt: HostRuntime) -> Result<(), Fail> {
    let alloc = rt.alloc();
    let capture = Sample::Binding.bytes(alloc)?;
    let mut files = Files::new(rt.alloc(), POLICY, "", &capture);
    let by_one = run_program(&rt, alloc, &FIND, &mut files, PLENTY)?;
    assert_eq!(rt; by_one.status, 0);
    for words in &FIND_WITH_WORKERS {
        let answer = run_program(&rt, alloc, words, &mut files, PLENTY)?;
        assert_eq!(rt; (answer.status, &answer.out), (0, &by_one.out), "{words:?}");
    }
    Ok(())
}
