//! The whole program as a function.

ghost use Rattle.std.specs.Prelude.{◌≡◌, [], ℕ, IfNone, IfOk, IfSome, List, OnOk, Some, map};
ghost use Rattle.std.specs.List.{AllZip};
ghost use Rattle.audit_model.specs.Sink.{followed_by};
ghost use Rattle.explain_faults.specs.Written.{AreWrittenOf};
ghost use Rattle.explain_program.specs.Answered.{Answers, IsRun};

use crate::as_json::explain_as_json;
use crate::command_line::{Inputs, Request, read as read_words};
use crate::digesting::Digesting;
use crate::evidence::evidence;
use crate::explaining::explain;
use crate::pages::release;
use crate::refusal::{Named, refusal};
use crate::run_error::RunError;
use crate::system::{Explaining, PageFile, check_captures};
use audit_files::{Stop, Workers};
use audit_finding::CertificateFinder;
use audit_model::{Sink, put_all};
use explain_faults::faults_of_files;
use std::alloc::Global;
use std::convert::AsStr;
use std::sync::Wait;
use std::thread::Threads;

/// Prints a text.
fn put_text<W: Sink>(sink: &mut W, text: &str) -> Result<(), RunError>
    ensures { OnOk result (W.taken sink.new ≡ followed_by (W.taken sink.old) text.now) }
{
    put_all(sink, text.as_bytes())?;
    Ok(())
}

/// Prints the faults that no order of the captures explains.
fn faults<R: Threads + Sync, S: Explaining, O: Sink>(
    rt: &R,
    alloc: Global,
    source: &mut S,
    policy: &str,
    users: Option<&str>,
    captures: &[&str],
    workers: Workers,
    out: &mut O,
) -> Result<u8, RunError>
    ensures { (policy_text users_text : List ℕ) (texts : List (List ℕ)) →
        S.holds source.old policy.now ≡ Some policy_text →
        IfSome users.entry (λ name. S.holds source.old name.now ≡ Some users_text) → IfNone users.entry (users_text ≡ []) →
        AllZip (λ name text. S.holds source.old name.now ≡ Some text) captures.now texts →
        IfOk result (AreWrittenOf policy_text users_text texts (O.taken out.old) (O.taken out.new)) }
{
    check_captures(alloc, source, captures)?;
    let status = faults_of_files(rt, alloc, source, policy, users, captures, workers, out)?;
    Ok(status)
}

/// Executes the request, and returns the exit status.
fn run_request<
    R: Threads + Wait + Sync,
    F: CertificateFinder,
    S: Explaining,
    P: PageFile,
    O: Sink,
    E: Sink,
>(
    rt: &R,
    alloc: Global,
    finder: &F,
    request: &Request<'_>,
    source: &mut Digesting<S>,
    pages: &mut P,
    out: &mut O,
    err: &mut E,
) -> Result<u8, RunError>
    ensures { Answers (S.holds source.old.inner)
        (record { before = O.taken out.old; after = O.taken out.new; said_before = E.taken err.old; said_after = E.taken err.new }) request.now result }
{
    match request {
        Request::Explain { inputs, subject } => explain(
            rt,
            alloc,
            finder,
            source,
            inputs.policy,
            inputs.credentials,
            inputs.certificate,
            &inputs.captures,
            inputs.workers,
            *subject,
            out,
        ),
        Request::AsJson { inputs, subject } => explain_as_json(
            rt,
            alloc,
            finder,
            source,
            inputs.policy,
            inputs.credentials,
            inputs.certificate,
            &inputs.captures,
            inputs.workers,
            *subject,
            out,
        ),
        Request::Faults { inputs } => faults(
            rt,
            alloc,
            source,
            inputs.policy,
            inputs.credentials,
            &inputs.captures,
            inputs.workers,
            out,
        ),
        Request::Evidence {
            inputs,
            file,
            excluded,
        } => evidence(
            rt, alloc, finder, source, inputs, file, *excluded, pages, out,
        ),
        Request::Help(page) => {
            put_text(out, page.text())?;
            Ok(0)
        }
        Request::Release => {
            put_text(out, release())?;
            Ok(0)
        }
        Request::Usage(text) => {
            put_text(err, text.as_str())?;
            Ok(5)
        }
    }
}

/// The files of a request.
fn named_by<'r, 'a>(request: &'r Request<'a>) -> Option<Named<'r, 'a>> {
    match request {
        Request::Explain { inputs, .. }
        | Request::AsJson { inputs, .. }
        | Request::Faults { inputs } => Some(Named {
            inputs,
            excluded: None,
        }),
        Request::Evidence {
            inputs,
            excluded,
            ..
        } => Some(Named {
            inputs,
            excluded: *excluded,
        }),
        Request::Help(_) | Request::Release | Request::Usage(_) => None,
    }
}

/// Prints a line. If that fails, nothing more can be done.
fn put_line<W: Sink>(alloc: Global, sink: &mut W, words: &str) {
    match format!(in alloc; "turnexplain: {words}\n") {
        Ok(line) => {
            let _ = put_all(sink, line.as_bytes());
        }
        Err(_) => {
            let _ = put_all(sink, b"turnexplain: out of memory\n");
        }
    }
}

/// Prints the line with the reason why the run ended.
fn put_refusal<S: Explaining, P: PageFile, W: Sink>(
    alloc: Global,
    source: &mut Digesting<S>,
    pages: &P,
    request: &Request<'_>,
    error: &RunError,
    err: &mut W,
) {
    let Some(named) = named_by(request) else {
        put_line(alloc, err, "the answer can't be written");
        return;
    };
    match refusal(alloc, source, pages, &named, error) {
        Ok(words) => put_line(alloc, err, words.as_str()),
        Err(_) => put_line(alloc, err, "out of memory"),
    }
}

/// Runs the program on its arguments, the first of which is its name, and returns its exit status:
/// 0 conforming, no fault is shown, help or the release; 1 not shown, or faults are; 2 an input is
/// refused; 3 out of memory; 4 a file can't be read or changes while it is read, or the answer
/// can't be written; 5 usage error; 6 conforming, but fewer responses than expected. A run that
/// ends before its answer prints one line on `err`.
pub fn run<
    R: Threads + Wait + Sync,
    F: CertificateFinder,
    N: AsStr,
    S: Explaining,
    P: PageFile,
    O: Sink,
    E: Sink,
>(
    rt: &R,
    alloc: Global,
    finder: &F,
    words: &[N],
    source: S,
    pages: &mut P,
    out: &mut O,
    err: &mut E,
) -> u8
    ensures { IsRun (map N.text words.now) (S.holds source)
        (record { before = O.taken out.old; after = O.taken out.new; said_before = E.taken err.old; said_after = E.taken err.new }) result }
{
    let request = match read_words(alloc, words) {
        Ok(request) => request,
        Err(_) => {
            put_line(alloc, err, "out of memory");
            return Stop::Memory.status();
        }
    };
    let mut source = Digesting::new(alloc, source);
    match run_request(rt, alloc, finder, &request, &mut source, pages, out, err) {
        Ok(status) => status,
        Err(error) => {
            pages.discard();
            put_refusal(alloc, &mut source, pages, &request, &error, err);
            error.status()
        }
    }
}
