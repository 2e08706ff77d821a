//! Captures that are judged by a certificate, and files that can't be read.

use super::rows::{CHECKED, OTHER_ADDRESS, Row, Sample, play};
use std::test::Fail;
use tests_host::Output;

const EMPTY: Output<'static> = Output {
    status: 0,
    out: Some("turnaudit-report 1\nconforming 0 datagrams 0 lanes\n"),
    err: Some(""),
};

const READ_FAILED: Output<'static> = Output {
    status: 4,
    out: Some(""),
    err: Some("turnaudit: read failed\n"),
};

static JUDGED: [Row<'static>; 3] = [
    Row {
        name: "a_tagged_frame_conforms",
        capture: Sample::Tagged,
        ..CHECKED
    },
    Row {
        name: "another_mapped_address_is_r17",
        capture: Sample::OtherPort,
        output: OTHER_ADDRESS,
        ..CHECKED
    },
    Row {
        name: "a_section_alone_conforms_to_an_empty_certificate",
        certificate: "turnaudit-certificate 1\nend\n",
        capture: Sample::Section,
        output: EMPTY,
        ..CHECKED
    },
];

#[test]
fn captures_are_judged(rt: HostRuntime) -> Result<(), Fail> {
    play(&rt, &JUDGED)
}

/// Ten bytes of each file can be read, and then reading one of them fails.
const UNREADABLE: Row<'static> = Row {
    name: "a_file_that_cannot_be_read_is_said",
    capture: Sample::Section,
    pieces: (10, 65_536),
    output: READ_FAILED,
    ..CHECKED
};

static FAILING: [Row<'static>; 3] = [
    Row {
        fails: Some("policy"),
        ..UNREADABLE
    },
    Row {
        fails: Some("cert"),
        ..UNREADABLE
    },
    Row {
        fails: Some("capture"),
        ..UNREADABLE
    },
];

#[test]
fn a_file_that_cannot_be_read_is_said(rt: HostRuntime) -> Result<(), Fail> {
    play(&rt, &FAILING)
}
