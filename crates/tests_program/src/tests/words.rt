//! Arguments that request no audit: none, usage errors, help and the release.

use super::rows::{CHECKED, NO_REQUEST, Row, Sample, answer_over, play};
use std::test::Fail;
use tests_host::{Output, SECTION};

const RELEASE: &str = "turnaudit 0.1.0, proved with rattle-kit-13f logic dac8208d650f15bf\n";

const WITHOUT_POLICY: Row<'static> = Row {
    name: "wrong_words_are_no_request, without a policy",
    words: &["turnaudit", "check", "--cert", "cert", "capture"],
    capture: Sample::Section,
    output: NO_REQUEST,
    ..CHECKED
};

const HELPED: Output<'static> = Output {
    status: 0,
    out: None,
    err: Some(""),
};

static WORDS: [Row<'static>; 4] = [
    WITHOUT_POLICY,
    Row {
        name: "wrong_words_are_no_request, an unknown option",
        words: &[
            "turnaudit",
            "check",
            "--policy",
            "policy",
            "--cert",
            "cert",
            "--fast",
            "capture",
        ],
        ..WITHOUT_POLICY
    },
    Row {
        name: "wrong_words_are_no_request, help",
        words: &["turnaudit", "check", "--help"],
        output: HELPED,
        ..WITHOUT_POLICY
    },
    Row {
        name: "the_release_is_one_line",
        words: &["turnaudit", "--version"],
        output: Output {
            status: 0,
            out: Some(RELEASE),
            err: Some(""),
        },
        ..WITHOUT_POLICY
    },
];

#[test]
fn words_are_answered(rt: HostRuntime) -> Result<(), Fail> {
    play(&rt, &WORDS)
}

static HELP: Row<'static> = Row {
    words: &["turnaudit", "--help"],
    ..WITHOUT_POLICY
};

static NO_WORDS: Row<'static> = Row {
    name: "no_words_tell_the_commands",
    words: &["turnaudit"],
    ..WITHOUT_POLICY
};

#[test]
fn no_words_tell_the_commands(rt: HostRuntime) -> Result<(), Fail> {
    let help = answer_over(&rt, &HELP, &SECTION)?;
    let answer = answer_over(&rt, &NO_WORDS, &SECTION)?;
    assert_eq!(rt;
        (help.status, answer.status, answer.out.len(), &answer.err),
        (0, 5, 0, &help.out)
    );
    Ok(())
}

/// An invalid number of workers.
macro_rules! workers {
    ($command:literal, $count:literal) => {
        Row {
            name: concat!($command, " with ", $count, " workers"),
            words: &[
                "turnaudit",
                $command,
                "--policy",
                "policy",
                "--workers",
                $count,
                "capture",
            ],
            ..WITHOUT_POLICY
        }
    };
}

static WORKERS: [Row<'static>; 8] = [
    workers!("audit", "0"),
    workers!("audit", "257"),
    workers!("audit", "-1"),
    workers!("audit", "two"),
    workers!("find", "0"),
    workers!("find", "257"),
    workers!("find", "-1"),
    workers!("find", "two"),
];

#[test]
fn workers_are_1_to_256(rt: HostRuntime) -> Result<(), Fail> {
    play(&rt, &WORKERS)
}
