//! The commands about a verdict: the verdict, and the requested part of it.

ghost use Rattle.std.specs.Prelude.{◌≡◌, [], ℕ, IfNone, IfOk, IfSome, List, Some};
ghost use Rattle.std.specs.List.{AllZip};
ghost use Rattle.audit_files.specs.Judged.{status_of};
ghost use Rattle.audit_model.specs.declared.certificate.Certificate.{Certificate as Found};
ghost use Rattle.explain_program.specs.Explained.{IsExplained, IsStatus, expected_by};

use crate::client::rest_of_client;
use crate::command_line::Subject;
use crate::digesting::{Digesting, unread};
use crate::head::{head, put_answer};
use crate::judged::{Judged, judge_files};
use crate::lanes::rest_of_lanes;
use crate::run_error::RunError;
use crate::system::{Explaining, check_captures};
use crate::verdict::rest_of_verdict;
use audit_files::{Source, Stop, Workers};
use audit_finding::CertificateFinder;
use audit_model::{Sink, Verdict};
use audit_sightings::Intake;
use explain_clients::count_answered;
use explain_story::Case;
use std::alloc::{AllocError, Global};
use std::sync::Wait;
use std::thread::Threads;

/// The inputs of a verdict.
pub fn case_of<'a>(judged: &'a Judged, captures: &'a [&'a str]) -> Case<'a> {
    Case {
        intake: &judged.files.intake,
        users: &judged.files.users,
        certificate: &judged.certificate,
        captures,
    }
}

/// The text after the head.
fn rest_of<S: Source>(
    alloc: Global,
    source: &mut S,
    case: Case<'_>,
    verdict: &Verdict,
    is_searched: bool,
    subject: Subject,
) -> Result<String, RunError> {
    let length = head(alloc, verdict)?.len();
    match subject {
        Subject::Verdict { .. } => {
            Ok(rest_of_verdict(alloc, source, case, verdict, is_searched, length)?)
        }
        Subject::Lanes { broken } => Ok(rest_of_lanes(
            alloc, source, case, verdict, broken, length,
        )?),
        Subject::Client { lane, around } => {
            rest_of_client(alloc, source, case, lane, around, length)
        }
    }
}

/// The exit status of a verdict.
pub fn status(verdict: &Verdict) -> u8
    ensures { result ≡ status_of verdict.now }
{
    match verdict {
        Verdict::Conforming { .. } => 0,
        Verdict::NotShown(_) => 1,
    }
}

/// The percentage that a command expects.
pub fn expected_by(subject: Subject) -> Option<u32>
    ensures { result ≡ expected_by subject }
{
    match subject {
        Subject::Verdict { expected } => expected,
        Subject::Lanes { .. } | Subject::Client { .. } => None,
    }
}

/// The exit status of a verdict: 6 if the captures conform and fewer of their requests than this
/// percentage have a response.
pub fn expected_status(
    alloc: Global,
    intake: &Intake,
    verdict: &Verdict,
    expected: Option<u32>,
) -> Result<u8, AllocError>
    ensures { IfOk result (IsStatus expected verdict.now) }
{
    let judged = status(verdict);
    let Some(percent) = expected else {
        return Ok(judged);
    };
    let answered = count_answered(alloc, intake)?;
    if judged == 0 && answered.percent() < u64::from(percent) {
        return Ok(6);
    }
    Ok(judged)
}

/// Judges captures, and prints the requested part of the verdict: the answer begins with the
/// verdict. It returns 0 if they conform, and 1 if that isn't shown. A capture that changes while
/// it is read is an error.
pub fn explain<R: Threads + Wait + Sync, F: CertificateFinder, S: Explaining, O: Sink>(
    rt: &R,
    alloc: Global,
    finder: &F,
    source: &mut Digesting<S>,
    policy: &str,
    users: Option<&str>,
    certificate: Option<&str>,
    captures: &[&str],
    workers: Workers,
    subject: Subject,
    out: &mut O,
) -> Result<u8, RunError>
    ensures { (policy_text users_text : List ℕ) (texts : List (List ℕ)) →
        S.holds source.old.inner policy.now ≡ Some policy_text →
        IfSome users.entry (λ name. S.holds source.old.inner name.now ≡ Some users_text) → IfNone users.entry (users_text ≡ []) →
        AllZip (λ name text. S.holds source.old.inner name.now ≡ Some text) captures.now texts →
        IfOk result (λ status. (by : Found) × IsExplained (expected_by subject) policy_text users_text texts by (O.taken out.old) (O.taken out.new) status) }
{
    check_captures(alloc, source, captures)?;
    source.watch(unread(alloc, policy, users, certificate, captures)?);
    let judged = judge_files(
        rt,
        alloc,
        finder,
        source,
        policy,
        users,
        certificate,
        captures,
        workers,
    )?;
    let case = case_of(&judged, captures);
    let is_searched = certificate.is_none();
    let rest = rest_of(alloc, source, case, &judged.verdict, is_searched, subject)?;
    if source.changed().is_some() {
        return Err(RunError::Stopped(Stop::Read));
    }
    put_answer(alloc, &judged.verdict, rest.as_str(), out)?;
    let expected = expected_by(subject);
    let status = expected_status(alloc, &judged.files.intake, &judged.verdict, expected)?;
    Ok(status)
}
