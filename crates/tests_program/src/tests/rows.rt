//! A row of a table: arguments and files, and the expected output of the program.

use std::alloc::{AllocError, Global};
use std::process::Abort;
use std::sync::Wait;
use std::test::Fail;
use std::thread::Threads;
use tests_host::{
    Answer, Files, Output, PLENTY, POLICY, SECTION, binding_capture, binding_parts, run_program,
};

/// The capture of a row.
#[derive(Clone, Copy)]
pub enum Sample {
    /// A Binding request and its success response, 252 bytes.
    Binding,
    /// The same, its first frame tagged.
    Tagged,
    /// The same, with another port in the success response.
    OtherPort,
    /// The same, with a fragment as first datagram.
    Fragment,
    /// The same without its last byte.
    Torn,
    /// A section header alone.
    Section,
    Nothing,
    /// Forty bytes of 7.
    Noise,
}

impl Sample {
    pub fn bytes(self, alloc: Global) -> Result<Vec<u8>, AllocError> {
        let mut parts = binding_parts();
        match self {
            Sample::Section => return Vec::from_slice(alloc, &SECTION),
            Sample::Nothing => return Ok(Vec::new(alloc)),
            Sample::Noise => return Vec::from_slice(alloc, &[7; 40]),
            Sample::Tagged => {
                parts.first_tag = &[0x81, 0x00, 0x00, 0x05];
                parts.first_block = 0x64;
                parts.first_frame = 0x42;
            }
            Sample::OtherPort => parts.mapped_port = [0xbd, 0x53],
            Sample::Fragment => parts.first_flags = [0x20, 0x00],
            Sample::Binding | Sample::Torn => {}
        }
        let mut capture = binding_capture(alloc, &parts)?;
        if matches!(&self, Sample::Torn) {
            capture.truncate(251);
        }
        Ok(capture)
    }
}

/// Arguments, files, and the expected output.
#[derive(Clone, Copy)]
pub struct Row<'a> {
    pub name: &'a str,
    pub words: &'a [&'a str],
    pub policy: &'a str,
    pub certificate: &'a str,
    pub capture: Sample,
    /// Another capture.
    pub second: &'a [u8],
    /// How many bytes of a file the first read and the later reads return.
    pub pieces: (usize, usize),
    /// The file whose second piece can't be read.
    pub fails: Option<&'a str>,
    /// How many bytes each of the first turns returns while captures grow.
    pub turns: &'a [usize],
    pub output: Output<'a>,
}

pub const CERTIFICATE: &str =
    "turnaudit-certificate 1\nlane 198.51.100.7:40000 192.0.2.1:3478\nin 0.0 1000000 0\nact 0.0 0.1 1000000 1\nout 0.1 1500000 0\nend\n";

pub const REPORT: &str = "turnaudit-report 1\nconforming 2 datagrams 1 lanes\n";

pub const CONFORMING: Output<'static> = Output {
    status: 0,
    out: Some(REPORT),
    err: Some(""),
};

/// The report about the success response with another port.
pub const OTHER_ADDRESS: Output<'static> = Output {
    status: 1,
    out: Some(
        "turnaudit-report 1\nnot shown\nrule R17 mapped address\nphase 2 lane 0 event 1 moment 1000000 tie 1\ndatagram 0.0 198.51.100.7:40000 to 192.0.2.1:3478 20 bytes\n",
    ),
    err: Some(""),
};

/// The output for a usage error. Standard error is not compared.
pub const NO_REQUEST: Output<'static> = Output {
    status: 5,
    out: Some(""),
    err: None,
};

/// The Binding capture, checked by its certificate.
pub const CHECKED: Row<'static> = Row {
    name: "binding_and_its_success_conform",
    words: &[
        "turnaudit",
        "check",
        "--policy",
        "policy",
        "--cert",
        "cert",
        "capture",
    ],
    policy: POLICY,
    certificate: CERTIFICATE,
    capture: Sample::Binding,
    second: &[],
    pieces: (65_536, 65_536),
    fails: None,
    turns: &[],
    output: CONFORMING,
};

impl<'a> Row<'a> {
    /// The row's files, with the capture.
    pub fn files(&self, alloc: Global, capture: &'a [u8]) -> Files<'a> {
        let mut files = Files::new(alloc, self.policy, self.certificate, capture);
        files.second = self.second;
        (files.first, files.step) = self.pieces;
        files.fails = self.fails;
        files.turns = self.turns;
        files
    }
}

/// The output for the row, with these bytes of its capture.
pub fn answer_over<'a>(
    rt: &(impl AllocGlobal + Threads + Wait + Sync),
    row: &Row<'a>,
    capture: &'a [u8],
) -> Result<Answer, AllocError> {
    run_program(
        rt,
        rt.alloc(),
        row.words,
        &mut row.files(rt.alloc(), capture),
        PLENTY,
    )
}

/// Checks the output for the row, with these bytes of its capture.
pub fn play_over<'a>(
    rt: &(impl Abort + AllocGlobal + Threads + Wait + Sync),
    row: &Row<'a>,
    capture: &'a [u8],
) -> Result<(), Fail> {
    let answer = answer_over(rt, row, capture)?;
    let (name, pieces, turns) = (row.name, row.pieces, row.turns);
    assert_eq!(rt;
        answer.output_like(&row.output),
        row.output,
        "{name}, {pieces:?}, {turns:?}"
    );
    Ok(())
}

/// Checks the output for each row.
pub fn play(
    rt: &(impl Abort + AllocGlobal + Threads + Wait + Sync),
    rows: &[Row<'_>],
) -> Result<(), Fail> {
    for row in rows {
        let capture = row.capture.bytes(rt.alloc())?;
        play_over(rt, row, &capture)?;
    }
    Ok(())
}
