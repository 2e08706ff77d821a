//! The whole program as a function.

ghost use Rattle.std.specs.Prelude.{◌≡◌, ℕ, IfOk, OnOk, map};
ghost use Rattle.audit_model.specs.Sink.{followed_by};
ghost use Rattle.prep_program.specs.Answered.{Answers, IsSuccess, IsRun};
ghost use Rattle.prep_program.specs.CutStatus.{EndsByKept};

use crate::command_line::{Request, read as read_words};
use crate::folders::Folders;
use crate::joining::join_captures;
use crate::looking::{LookRequest, run_look};
use crate::maker::Maker;
use crate::pages::release;
use crate::policy::run_policy;
use crate::ready::run_ready;
use crate::reassembling::run_reassemble;
use crate::ring_name::gap_in;
use crate::set_aside::{CutRequest, run_cut};
use crate::source::{Source, check_repeatable};
use crate::stop::Stop;
use crate::translating::run_translate;
use crate::users::run_users;
use audit_model::{Sink, put_all};
use explain_text::Escaped;
use prep_coturn::Options;
use std::alloc::{AllocError, Global};
use std::convert::AsStr;
use std::thread::Threads;

/// The line with the reason why a run ended: the name of what can't be read or written, and the
/// system's reason.
fn line_of<'x, S: Source, M: Maker, F: Folders>(
    alloc: Global,
    source: &'x S,
    maker: &'x M,
    folders: &'x F,
    stop: &Stop,
) -> Result<String, AllocError> {
    let (verb, failure) = match stop {
        Stop::Read => ("read", source.failure()),
        Stop::Write | Stop::Exists => ("write", maker.failure().or(folders.failure())),
        _ => ("", None),
    };
    let Some(failure) = failure else {
        return format!(in alloc; "turnprep: {stop}\n");
    };
    let name = Escaped {
        bytes: failure.name.as_bytes(),
    };
    format!(in alloc; "turnprep: can't {verb} {name}: {failure}\n")
}

/// Prints the line with the reason why the run ended. If that fails, nothing more can be done.
fn put_stop<S: Source, M: Maker, F: Folders, W: Sink>(
    alloc: Global,
    source: &S,
    maker: &M,
    folders: &F,
    stop: &Stop,
    err: &mut W,
) {
    match line_of(alloc, source, maker, folders, stop) {
        Ok(line) => {
            let _ = put_all(err, line.as_bytes());
        }
        Err(_) => put_no_memory(err),
    }
}

/// Prints that there was no memory.
fn put_no_memory<W: Sink>(err: &mut W) {
    let _ = put_all(err, b"turnprep: out of memory\n");
}

/// Prints a text.
fn put_text<W: Sink>(sink: &mut W, text: &str) -> Result<(), Stop>
    ensures { OnOk result (W.taken sink.new ≡ followed_by (W.taken sink.old) text.now) }
{
    put_all(sink, text.as_bytes())?;
    Ok(())
}

/// Joins captures to a new file, and prints the number of blocks of each.
fn run_join<S: Source, M: Maker, O: Sink>(
    alloc: Global,
    captures: &[&str],
    file: &str,
    source: &mut S,
    maker: &mut M,
    out: &mut O,
) -> Result<u8, Stop>
    ensures { IsSuccess result }
{
    if let Some(gap) = gap_in(captures) {
        return Err(Stop::Missing(gap));
    }
    maker.make(file)?;
    let all = join_captures(alloc, source, captures, maker)?;
    put_all(out, b"turnprep-joined 1\n")?;
    for (capture, counts) in all.iter().enumerate() {
        let interfaces = counts.interfaces;
        let packets = counts.packets;
        let statistics = counts.statistics;
        let line = format!(in alloc;
            "capture {capture} interfaces {interfaces} packets {packets} statistics {statistics}\n"
        )?;
        put_all(out, line.as_bytes())?;
    }
    maker.publish()?;
    Ok(0)
}

/// Cuts captures, which are read twice, and publishes the output files at the end.
fn cut_and_publish<R: Threads + AllocGlobal, S: Source, M: Maker, O: Sink, E: Sink>(
    rt: &R,
    request: &CutRequest<'_>,
    source: &mut S,
    maker: &mut M,
    out: &mut O,
    err: &mut E,
) -> Result<u8, Stop>
    ensures { IfOk result (λ status. (kept : ℕ) × EndsByKept kept status (E.taken err.old) (E.taken err.new)) }
{
    let alloc = rt.alloc();
    check_repeatable(alloc, source, &request.captures)?;
    let status = run_cut(rt, request, source, maker, out, err)?;
    maker.publish()?;
    Ok(status)
}

/// Prints what captures contain, which are read twice.
fn look<S: Source, O: Sink>(
    alloc: Global,
    request: &LookRequest<'_>,
    source: &mut S,
    out: &mut O,
) -> Result<u8, Stop>
    ensures { IsSuccess result }
{
    check_repeatable(alloc, source, &request.captures)?;
    run_look(alloc, request, source, out)
}

/// Executes the request, and returns the exit status.
fn run_request<R: Threads + AllocGlobal, S: Source, M: Maker, F: Folders, O: Sink, E: Sink>(
    rt: &R,
    request: &Request<'_>,
    source: &mut S,
    maker: &mut M,
    folders: &mut F,
    out: &mut O,
    err: &mut E,
) -> Result<u8, Stop>
    ensures { Answers (record { before = O.taken out.old; after = O.taken out.new; said_before = E.taken err.old; said_after = E.taken err.new }) request.now result }
{
    let alloc = rt.alloc();
    match request {
        Request::Join { captures, file } => run_join(alloc, captures, file, source, maker, out),
        Request::Policy {
            file,
            listening,
            relaying,
            is_translated,
        } => {
            let options = Options {
                listening,
                relaying,
                is_translated: *is_translated,
            };
            run_policy(alloc, file, &options, source, out, err)
        }
        Request::Look(request) => look(alloc, request, source, out),
        Request::Cut(words) => cut_and_publish(rt, words, source, maker, out, err),
        Request::Translate(request) => run_translate(alloc, request, source, maker, out, err),
        Request::Reassemble(request) => run_reassemble(alloc, request, source, maker, out),
        Request::Users(request) => run_users(alloc, request, source, out, err),
        Request::Ready(words) => run_ready(rt, words, source, maker, folders, out, err),
        Request::Help(page) => {
            put_text(out, page.text())?;
            Ok(0)
        }
        Request::Release => {
            put_text(out, release())?;
            Ok(0)
        }
        Request::Usage(text) => {
            put_text(err, text.as_str())?;
            Ok(5)
        }
    }
}

/// Runs the program on its arguments, the first of which is its name, and returns its exit status:
/// 0 done, help or the release; 2 an input is refused; 3 out of memory; 4 a file can't be read or
/// made, or output can't be written; 5 usage error; 6 `cut` or `ready` is done and kept no
/// datagram. A run that fails prints one line on `err`.
pub fn run<R: Threads + AllocGlobal, N: AsStr, S: Source, M: Maker, F: Folders, O: Sink, E: Sink>(
    rt: &R,
    words: &[N],
    source: &mut S,
    maker: &mut M,
    folders: &mut F,
    out: &mut O,
    err: &mut E,
) -> u8
    ensures { IsRun (map N.text words.now)
        (record { before = O.taken out.old; after = O.taken out.new; said_before = E.taken err.old; said_after = E.taken err.new }) result }
{
    let alloc = rt.alloc();
    let request = match read_words(alloc, words) {
        Ok(request) => request,
        Err(_) => {
            put_no_memory(err);
            return Stop::Memory.status();
        }
    };
    match run_request(rt, &request, source, maker, folders, out, err) {
        Ok(status) => status,
        Err(stop) => {
            maker.discard();
            put_stop(alloc, source, maker, folders, &stop, err);
            stop.status()
        }
    }
}
