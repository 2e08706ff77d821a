//! Runs the program as a function.

ghost use Rattle.std.specs.Prelude.{◌≡◌, ◌⊎◌, [], ℕ, IfErr, IfNone, IfOk, IfSome, List, Some, map};
ghost use Rattle.std.specs.List.{AllZip};
ghost use Rattle.audit_files.specs.Ends.{EndsFiles, EndsWriting};
ghost use Rattle.audit_files.specs.Judged.{IsAudited};
ghost use Rattle.audit_model.specs.declared.certificate.Certificate.{Certificate as Found};
ghost use Rattle.audit_program.specs.Answered.{Answers, HaveCaptures, HaveTexts, IsRun, IsWritten};

use crate::command_line::{Inputs, Request, read as read_words};
use crate::finding::{certificate_for, found_either_way};
use crate::growing::Growing;
use crate::live::run_live;
use crate::pages::release;
use crate::writing::{put_line, put_text};
use audit_cert::write_parallel;
use audit_files::{Source, Stop, Workers, check_files, read_files, write_verdict};
use audit_finding::CertificateFinder;
use audit_model::Sink;
use std::alloc::{AllocError, Global};
use std::convert::AsStr;
use std::sync::Wait;
use std::thread::Threads;

/// Judges captures by a certificate that it finds, and writes the report. Files are read in this
/// order: policy, users, captures; each is checked before the next is read. It returns 0 if they
/// conform, and 1 if that isn't shown. The memory of the captures isn't freed then.
pub fn audit_captures<R: Threads + Wait + Sync, F: CertificateFinder, S: Source, O: Sink>(
    rt: &R,
    alloc: Global,
    finder: &F,
    source: &mut S,
    policy: &str,
    users: Option<&str>,
    captures: &[&str],
    workers: Workers,
    out: &mut O,
) -> Result<u8, Stop>
    ensures audited { (policy_text users_text : List ℕ) (texts : List (List ℕ)) →
        S.holds source.old policy.now ≡ Some policy_text →
        IfSome users.entry (λ name. S.holds source.old name.now ≡ Some users_text) → IfNone users.entry (users_text ≡ []) →
        AllZip (λ name text. S.holds source.old name.now ≡ Some text) captures.now texts →
        IfOk result (λ status. (found : Found) × IsAudited policy_text users_text texts found (O.taken out.old) (O.taken out.new) status) }
    ensures ended { (policy_text users_text : List ℕ) (texts : List (List ℕ)) →
        S.holds source.old policy.now ≡ Some policy_text →
        IfSome users.entry (λ name. S.holds source.old name.now ≡ Some users_text) → IfNone users.entry (users_text ≡ []) →
        AllZip (λ name text. S.holds source.old name.now ≡ Some text) captures.now texts →
        IfErr result (λ stop. EndsFiles (S.may_fail source.old) policy.now policy_text users.entry users_text captures.now texts stop
        ⊎ EndsWriting (O.failures out.old) (O.failures out.new) stop) }
{
    let files = read_files(rt, alloc, source, policy, users, captures, workers)?;
    let found = found_either_way(rt, alloc, finder, &files, workers)?;
    let status = write_verdict(alloc, &found.verdict, &files.intake, out)?;
    // The program ends: to free each payload by itself would take a tenth of its time.
    std::mem::forget(files);
    Ok(status)
}

/// Finds a certificate, and writes its one spelling.
fn run_find<R: Threads + Wait + Sync, F: CertificateFinder, S: Source, O: Sink>(
    rt: &R,
    alloc: Global,
    finder: &F,
    inputs: &Inputs<'_>,
    workers: Workers,
    source: &mut S,
    out: &mut O,
) -> Result<u8, Stop>
    ensures written { (policy users : List ℕ) (captures : List (List ℕ)) → HaveTexts (S.holds source.old) inputs.now policy users → HaveCaptures (S.holds source.old) inputs.now captures →
        IfOk result (IsWritten F.finds policy users captures (O.taken out.old) (O.taken out.new)) }
    ensures ended { (policy users : List ℕ) (captures : List (List ℕ)) → HaveTexts (S.holds source.old) inputs.now policy users → HaveCaptures (S.holds source.old) inputs.now captures →
        IfErr result (λ stop. EndsFiles (S.may_fail source.old) inputs.now.policy.now policy inputs.now.credentials users inputs.now.captures.items captures stop
        ⊎ EndsWriting (O.failures out.old) (O.failures out.new) stop) }
{
    let files = read_files(
        rt,
        alloc,
        source,
        inputs.policy,
        inputs.credentials,
        &inputs.captures,
        workers,
    )?;
    let certificate = certificate_for(rt, alloc, finder, &files, workers)?;
    write_parallel(rt, alloc, &certificate, workers.count, out)?;
    // The program ends here, too.
    std::mem::forget(files);
    Ok(0)
}

/// Serves the request, and returns the exit status.
fn run_request<
    R: Threads + Wait + Sync,
    F: CertificateFinder,
    S: Source + Growing,
    O: Sink,
    E: Sink,
>(
    rt: &R,
    alloc: Global,
    finder: &F,
    request: &Request<'_>,
    source: &mut S,
    out: &mut O,
    err: &mut E,
) -> Result<u8, Stop>
    ensures { Answers (S.holds source.old) (S.may_fail source.old) (S.bytes_read source.new) (S.reads source.new) F.finds
        (record { before = O.taken out.old; after = O.taken out.new; said_before = E.taken err.old; said_after = E.taken err.new })
        (record { before = O.failures out.old; after = O.failures out.new; said_before = E.failures err.old; said_after = E.failures err.new }) request.now result }
{
    match request {
        Request::Check {
            inputs,
            certificate,
            workers,
        } => check_files(
            rt,
            alloc,
            source,
            inputs.policy,
            inputs.credentials,
            certificate,
            &inputs.captures,
            *workers,
            out,
        ),
        Request::Audit { inputs, workers } => audit_captures(
            rt,
            alloc,
            finder,
            source,
            inputs.policy,
            inputs.credentials,
            &inputs.captures,
            *workers,
            out,
        ),
        Request::Find { inputs, workers } => run_find(
            rt, alloc, finder, inputs, *workers, source, out,
        ),
        Request::Live { inputs, turns } => run_live(
            alloc,
            finder,
            source,
            inputs.policy,
            inputs.credentials,
            &inputs.captures,
            *turns,
            out,
        ),
        Request::Help(page) => {
            put_text(out, page.text())?;
            Ok(0)
        }
        Request::Release => {
            put_text(out, release())?;
            Ok(0)
        }
        Request::Usage(text) => {
            put_text(err, text.as_str())?;
            Ok(5)
        }
    }
}

/// Runs the program on its arguments, the first of which is its name, and returns its exit status:
/// 0 conforming, a certificate, help or the release; 1 not shown; 2 input refused; 3 out of memory;
/// 4 a file that can't be read or an answer that can't be written; 5 usage error. The reason for an
/// end before the answer is one line on `err`.
pub fn run<
    R: Threads + Wait + Sync,
    F: CertificateFinder,
    N: AsStr,
    S: Source + Growing,
    O: Sink,
    E: Sink,
>(rt: &R, alloc: Global, finder: &F, words: &[N], source: &mut S, out: &mut O, err: &mut E) -> u8
    ensures { IsRun (map N.text words.now) (S.holds source.old) (S.may_fail source.old) (S.bytes_read source.new) (S.reads source.new) F.finds
        (record { before = O.taken out.old; after = O.taken out.new; said_before = E.taken err.old; said_after = E.taken err.new })
        (O.failures out.old) (O.failures out.new) (E.failures err.old) result }
{
    let request = match read_words(alloc, words) {
        Ok(request) => request,
        Err(_) => {
            put_line(alloc, err, &Stop::Memory);
            return Stop::Memory.status();
        }
    };
    match run_request(rt, alloc, finder, &request, source, out, err) {
        Ok(status) => status,
        Err(stop) => {
            put_line(alloc, err, &stop);
            stop.status()
        }
    }
}
