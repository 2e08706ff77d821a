//! Streams in memory, and the output of a run of the program.

ghost use Rattle.std.specs.Prelude.{[], IfOk, None, Some, map, true};
ghost use Rattle.audit_finder.specs.Found.{IsFound};
ghost use Rattle.audit_program.specs.Answered.{IsRun};
ghost use Rattle.tests_host.specs.Held.{gave_of, held_among};

use crate::files::Files;
use crate::seed::fixed_seed;
use audit_finder::WalkAndPasses;
use audit_model::{Sink, SinkFailed};
use audit_program::run;
use std::alloc::{AllocError, Global};
use std::sync::Wait;
use std::thread::Threads;

/// Enough room for all output of the program.
pub const PLENTY: usize = 1_000_000;

/// A stream that keeps the bytes that it gets, and fails once it has no room.
#[derive(Drop)]
struct Stream {
    bytes: Vec<u8>,
    room: usize,
}

impl Sink for Stream {
    ghost use Rattle.std.specs.Prelude.{Some, None};

    ghost taken = { λ stream. Some stream.bytes.items };

    ghost failures = { λ _. None };

    fn put(&mut self, piece: &[u8]) -> Result<usize, SinkFailed> {
        let count = piece.len().min(self.room);
        if count == 0 && !piece.is_empty() {
            return Err(SinkFailed);
        }
        match self.bytes.extend_from_slice(&piece[..count]) {
            Ok(()) => {
                self.room -= count;
                Ok(count)
            }
            Err(_) => Err(SinkFailed),
        }
    }
}

/// The output of a run.
#[derive(Drop)]
pub struct Answer {
    pub status: u8,
    pub out: Vec<u8>,
    pub err: Vec<u8>,
}

/// Runs the program on the arguments, with room for this number of bytes on standard output.
pub fn run_program(
    rt: &(impl Threads + Wait + Sync),
    alloc: Global,
    words: &[&str],
    files: &mut Files<'_>,
    room: usize,
) -> Result<Answer, AllocError>
    // The program's contract for files with these bytes, and for captures that returned them, holds
    // for each test.
    ensures { IfOk result (λ answer. IsRun
        (map (λ word. word.now) words.now)
        (held_among files.old.policy.now files.old.credentials.now files.old.certificate.now files.old.capture.now files.old.second.now)
        (λ name. true)
        (gave_of files.new.gave.items files.new.gave_second.items)
        (λ capture. None)
        IsFound
        (record { before = Some []; after = Some answer.out.items; said_before = Some []; said_after = Some answer.err.items })
        None None None
        answer.status) }
{
    let mut out = Stream {
        bytes: Vec::new(alloc),
        room,
    };
    let mut err = Stream {
        bytes: Vec::new(alloc),
        room: PLENTY,
    };
    let finder = WalkAndPasses::new(fixed_seed()?);
    let status = run(rt, alloc, &finder, words, files, &mut out, &mut err);
    Ok(Answer {
        status,
        out: out.bytes,
        err: err.bytes,
    })
}

/// The expected output of a run, as text. A stream that is `None` is not compared.
#[derive(Clone, Copy, Debug, PartialEq, Eq)]
pub struct Output<'a> {
    pub status: u8,
    pub out: Option<&'a str>,
    pub err: Option<&'a str>,
}

impl Answer {
    /// The output, with each stream that `expected` has.
    pub fn output_like(&self, expected: &Output<'_>) -> Output<'_> {
        Output {
            status: self.status,
            out: expected.out.map(|_| text_of(&self.out)),
            err: expected.err.map(|_| text_of(&self.err)),
        }
    }
}

/// The text of a stream.
pub fn text_of(bytes: &[u8]) -> &str {
    str::from_utf8(bytes).unwrap_or("no text")
}
