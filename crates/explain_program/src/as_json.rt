//! The commands that can answer in JSON: the verdict, and the requested part of it.

ghost use Rattle.std.specs.Prelude.{◌≡◌, [], ℕ, IfNone, IfOk, IfSome, List, OnOk, Some};
ghost use Rattle.std.specs.List.{AllZip};
ghost use Rattle.audit_model.specs.declared.certificate.Certificate.{Certificate as Found};
ghost use Rattle.explain_program.specs.Explained.{IsJsonBehind, IsWrittenAsJson, expected_by};

use crate::command_line::Subject;
use crate::digesting::{Digesting, unread};
use crate::explaining::{case_of, expected_by, expected_status};
use crate::inputs::add_inputs;
use crate::json::write_answer;
use crate::judged::judge_files;
use crate::run_error::RunError;
use crate::system::{Explaining, check_captures};
use audit_files::{Stop, Workers};
use audit_finding::CertificateFinder;
use audit_model::{Sink, Verdict, WriteFault, put_all};
use explain_json::{Object, answer_text};
use std::alloc::Global;
use std::sync::Wait;
use std::thread::Threads;

/// Writes an answer, as one line of JSON that contains the verdict.
fn put_json<O: Sink>(verdict: &Verdict, answer: Object, out: &mut O) -> Result<(), WriteFault>
    ensures { OnOk result (IsJsonBehind verdict.now (O.taken out.old) (O.taken out.new)) }
{
    let mut text = answer_text(verdict, answer)?;
    text.push_str("\n")?;
    put_all(out, text.as_bytes())?;
    Ok(())
}

/// Like `explain`, but the answer is JSON: one object on one line.
pub fn explain_as_json<R: Threads + Wait + Sync, F: CertificateFinder, S: Explaining, O: Sink>(
    rt: &R,
    alloc: Global,
    finder: &F,
    source: &mut Digesting<S>,
    policy: &str,
    users: Option<&str>,
    certificate: Option<&str>,
    captures: &[&str],
    workers: Workers,
    subject: Subject,
    out: &mut O,
) -> Result<u8, RunError>
    ensures { (policy_text users_text : List ℕ) (texts : List (List ℕ)) →
        S.holds source.old.inner policy.now ≡ Some policy_text →
        IfSome users.entry (λ name. S.holds source.old.inner name.now ≡ Some users_text) → IfNone users.entry (users_text ≡ []) →
        AllZip (λ name text. S.holds source.old.inner name.now ≡ Some text) captures.now texts →
        IfOk result (λ status. (by : Found) × IsWrittenAsJson (expected_by subject) policy_text users_text texts by (O.taken out.old) (O.taken out.new) status) }
{
    check_captures(alloc, source, captures)?;
    source.watch(unread(alloc, policy, users, certificate, captures)?);
    let judged = judge_files(
        rt,
        alloc,
        finder,
        source,
        policy,
        users,
        certificate,
        captures,
        workers,
    )?;
    let verdict = &judged.verdict;
    let mut answer = Object::new(alloc);
    add_inputs(
        alloc,
        source,
        policy,
        users,
        certificate,
        captures,
        &mut answer,
    )?;
    write_answer(
        alloc,
        source,
        case_of(&judged, captures),
        verdict,
        subject,
        &mut answer,
    )?;
    if source.changed().is_some() {
        return Err(RunError::Stopped(Stop::Read));
    }
    put_json(verdict, answer, out)?;
    let expected = expected_by(subject);
    let status = expected_status(alloc, &judged.files.intake, verdict, expected)?;
    Ok(status)
}
