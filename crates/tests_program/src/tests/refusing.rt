//! Texts and captures that are refused, each by one line on standard error.

use super::rows::{CHECKED, Row, Sample, play};
use std::test::Fail;
use tests_host::Output;

/// A policy with a skew of its own for interface 64.
const WIDER: &str =
    "turnaudit-policy 2\nlisten 192.0.2.1:3478\nrelay 192.0.2.1:49152-65535\nskew-us 100\nskew-of 64 500\n";

macro_rules! refused {
    ($line:literal) => {
        Output {
            status: 2,
            out: Some(""),
            err: Some($line),
        }
    };
}

macro_rules! refused_certificate {
    ($name:literal, $certificate:literal, $line:literal) => {
        Row {
            name: $name,
            certificate: $certificate,
            capture: Sample::Section,
            output: refused!($line),
            ..CHECKED
        }
    };
}

macro_rules! refused_policy {
    ($name:literal, $policy:literal, $line:literal) => {
        Row {
            name: $name,
            policy: $policy,
            capture: Sample::Section,
            output: refused!($line),
            ..CHECKED
        }
    };
}

static CAPTURES: [Row<'static>; 2] = [
    Row {
        name: "captures_are_refused_by_number, without bytes",
        capture: Sample::Nothing,
        output: refused!("turnaudit: refused C5 in capture 0\n"),
        ..CHECKED
    },
    Row {
        name: "captures_are_refused_by_number, a fragment",
        capture: Sample::Fragment,
        output: refused!("turnaudit: refused V1 in capture 0\n"),
        ..CHECKED
    },
];

#[test]
fn captures_are_refused_by_number(rt: HostRuntime) -> Result<(), Fail> {
    play(&rt, &CAPTURES)
}

static CERTIFICATES: [Row<'static>; 5] = [
    refused_certificate!(
        "a number with a leading zero",
        "turnaudit-certificate 1\nlane 198.51.100.7:40000 192.0.2.1:3478\nin 0.0 01000000 0\nend\n",
        "turnaudit: refused T3 in certificate line 3\n"
    ),
    refused_certificate!(
        "no end",
        "turnaudit-certificate 1\nlane 198.51.100.7:40000 192.0.2.1:3478\nin 0.0 1000000 0\nact 0.0 0.1 1000000 1\nout 0.1 1500000 0\n",
        "turnaudit: refused T6 in certificate line 6\n"
    ),
    refused_certificate!(
        "a lane twice",
        "turnaudit-certificate 1\nlane 198.51.100.7:40000 192.0.2.1:3478\nlane 198.51.100.7:40000 192.0.2.1:3478\nend\n",
        "turnaudit: refused T4 in certificate line 3\n"
    ),
    refused_certificate!(
        "a certificate without bytes",
        "",
        "turnaudit: refused T1 in certificate line 1\n"
    ),
    refused_certificate!(
        "a line behind the end",
        "turnaudit-certificate 1\nend\n\n",
        "turnaudit: refused T2 in certificate line 3\n"
    ),
];

#[test]
fn certificates_are_refused_by_number_and_line(rt: HostRuntime) -> Result<(), Fail> {
    play(&rt, &CERTIFICATES)
}

static POLICIES: [Row<'static>; 6] = [
    refused_policy!(
        "a policy without bytes",
        "",
        "turnaudit: refused P1 in policy line 1\n"
    ),
    refused_policy!(
        "heading 3",
        "turnaudit-policy 3\n",
        "turnaudit: refused P1 in policy line 1\n"
    ),
    refused_policy!(
        "a skew with a leading zero",
        "turnaudit-policy 1\nlisten 192.0.2.1:3478\nskew-us 0500\n",
        "turnaudit: refused P2 in policy line 3\n"
    ),
    refused_policy!(
        "a listen address within the relayed ports",
        "turnaudit-policy 1\nlisten 192.0.2.1:3478\nrelay 192.0.2.1:3000-4000\n",
        "turnaudit: refused P3 in policy line 3\n"
    ),
    refused_policy!(
        "no listen address",
        "turnaudit-policy 1\n",
        "turnaudit: refused P4 in policy line 2\n"
    ),
    refused_policy!(
        "a skew of more than a minute",
        "turnaudit-policy 1\nskew-us 60000001\n",
        "turnaudit: refused P5 in policy line 2\n"
    ),
];

#[test]
fn policies_are_refused_by_number_and_line(rt: HostRuntime) -> Result<(), Fail> {
    play(&rt, &POLICIES)
}

static SKEWS: [Row<'static>; 3] = [
    Row {
        policy: WIDER,
        ..refused_certificate!(
            "skews that do not rise",
            "turnaudit-certificate 2\nskew 64 400\nskew 0 400\nend\n",
            "turnaudit: refused T8 in certificate line 3\n"
        )
    },
    Row {
        policy: WIDER,
        ..refused_certificate!(
            "heading 2 without skews",
            "turnaudit-certificate 2\nlane 198.51.100.7:40000 192.0.2.1:3478\nend\n",
            "turnaudit: refused T2 in certificate line 2\n"
        )
    },
    refused_policy!(
        "a skew of an interface under heading 1",
        "turnaudit-policy 1\nlisten 192.0.2.1:3478\nrelay 192.0.2.1:49152-65535\nskew-of 64 500\n",
        "turnaudit: refused P1 in policy line 4\n"
    ),
];

#[test]
fn skews_of_both_texts_are_refused_by_number_and_line(rt: HostRuntime) -> Result<(), Fail> {
    play(&rt, &SKEWS)
}
