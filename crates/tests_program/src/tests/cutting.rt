//! Files that come in pieces, and streams that accept a part of the output.

use super::rows::{CHECKED, REPORT, Row, Sample, play_over};
use std::alloc::{AllocError, Global};
use std::process::Abort;
use std::sync::Wait;
use std::test::Fail;
use std::thread::Threads;
use tests_host::{Output, run_program, text_of};

/// Ways to read a file: in two pieces, split at each place, and byte by byte. Each is the size of
/// the first piece, and of the later ones.
fn cuttings(alloc: Global, length: usize) -> Result<Vec<(usize, usize)>, AllocError> {
    let mut cuttings = Vec::new(alloc);
    cuttings.push((1, 1))?;
    for first in 1..=length {
        cuttings.push((first, 65_536))?;
    }
    Ok(cuttings)
}

/// Checks the row of a capture of this length, however its files are read.
fn play_cut(
    rt: &(impl Abort + AllocGlobal + Threads + Wait + Sync),
    row: &Row<'_>,
    length: usize,
) -> Result<(), Fail> {
    let alloc = rt.alloc();
    let capture = row.capture.bytes(alloc)?;
    assert_eq!(rt; capture.len(), length, "{}", row.name);
    for pieces in cuttings(alloc, length)? {
        play_over(rt, &Row { pieces, ..*row }, &capture)?;
    }
    Ok(())
}

static WHOLE: Row<'static> = CHECKED;

static TORN: Row<'static> = Row {
    name: "a_capture_without_its_last_byte_is_torn",
    capture: Sample::Torn,
    output: Output {
        status: 2,
        out: Some(""),
        err: Some("turnaudit: refused C1 in capture 0\n"),
    },
    ..CHECKED
};

#[test]
fn files_may_come_in_any_pieces(rt: HostRuntime) -> Result<(), Fail> {
    play_cut(&rt, &WHOLE, 252)?;
    play_cut(&rt, &TORN, 251)
}

#[test]
fn an_answer_that_cannot_be_written_is_said(rt: HostRuntime) -> Result<(), Fail> {
    let alloc = rt.alloc();
    let capture = WHOLE.capture.bytes(alloc)?;
    let report = REPORT.as_bytes();
    for room in 0..report.len() {
        let answer = run_program(
            &rt,
            alloc,
            WHOLE.words,
            &mut WHOLE.files(alloc, &capture),
            room,
        )?;
        assert_eq!(rt;
            (answer.status, answer.out.as_slice(), text_of(&answer.err)),
            (4, &report[..room], "turnaudit: write failed\n"),
            "{room} bytes"
        );
    }
    Ok(())
}
