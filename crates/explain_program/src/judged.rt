//! The files of a run, and the verdict on them.

ghost use Rattle.std.specs.Prelude.{◌≡◌, [], ℕ, IfNone, IfOk, IfSome, List, Some};
ghost use Rattle.std.specs.List.{AllZip};
ghost use Rattle.audit_files.specs.Judged.{AreRead};
ghost use Rattle.audit_keys.specs.KeyFor.{key_for};
ghost use Rattle.audit_sightings.specs.Intake.{taken};
ghost use Rattle.explain_program.specs.Explained.{IsByItsCertificate};

use audit_cert::CertificateReader;
use audit_files::{
    Files, Source, Stop, Workers, read_files, read_policy, read_text, read_users, take_in,
    verdict_of,
};
use audit_finding::CertificateFinder;
use audit_model::{Certificate, Verdict};
use audit_program::found_either_way;
use audit_sightings::Intake;
use std::alloc::Global;
use std::sync::Wait;
use std::thread::Threads;

/// The contents of the files, the certificate by which they are judged, and the verdict by it.
#[derive(Drop)]
pub struct Judged {
    pub files: Files,
    pub certificate: Certificate,
    pub verdict: Verdict,
}

/// The verdict by the certificate of a file.
fn judged_by<R: Threads + Wait + Sync, S: Source>(
    rt: &R,
    alloc: Global,
    source: &mut S,
    policy: &str,
    users: Option<&str>,
    certificate: &str,
    captures: &[&str],
    workers: Workers,
) -> Result<Judged, Stop>
    ensures by { IfOk result IsByItsCertificate }
    ensures read { (policy_text users_text : List ℕ) (texts : List (List ℕ)) →
        S.holds source.old policy.now ≡ Some policy_text →
        IfSome users.entry (λ name. S.holds source.old name.now ≡ Some users_text) → IfNone users.entry (users_text ≡ []) →
        AllZip (λ name text. S.holds source.old name.now ≡ Some text) captures.now texts →
        IfOk result (λ judged. AreRead policy_text users_text texts (taken judged.files.intake) (key_for judged.files.users)) }
{
    let policy = read_policy(alloc, source, policy)?;
    let users = read_users(alloc, source, users)?;
    let reader = CertificateReader::new(alloc);
    let certificate = read_text(alloc, source, certificate, reader)?;
    let intake = Intake::new(alloc, policy);
    let intake = take_in(rt, alloc, source, captures, intake, Workers::one())?;
    let verdict = verdict_of(rt, alloc, &intake, &users, &certificate, workers)?;
    Ok(Judged {
        files: Files { intake, users },
        certificate,
        verdict,
    })
}

/// The verdict by a certificate that is found, as `turnaudit audit` finds it.
fn judged_by_finding<R: Threads + Wait + Sync, F: CertificateFinder, S: Source>(
    rt: &R,
    alloc: Global,
    finder: &F,
    source: &mut S,
    policy: &str,
    users: Option<&str>,
    captures: &[&str],
    workers: Workers,
) -> Result<Judged, Stop>
    ensures by { IfOk result IsByItsCertificate }
    ensures read { (policy_text users_text : List ℕ) (texts : List (List ℕ)) →
        S.holds source.old policy.now ≡ Some policy_text →
        IfSome users.entry (λ name. S.holds source.old name.now ≡ Some users_text) → IfNone users.entry (users_text ≡ []) →
        AllZip (λ name text. S.holds source.old name.now ≡ Some text) captures.now texts →
        IfOk result (λ judged. AreRead policy_text users_text texts (taken judged.files.intake) (key_for judged.files.users)) }
{
    let files = read_files(rt, alloc, source, policy, users, captures, Workers::one())?;
    let found = found_either_way(rt, alloc, finder, &files, workers)?;
    Ok(Judged {
        files,
        certificate: found.certificate,
        verdict: found.verdict,
    })
}

/// The verdict on the named files: by the certificate of a file if one is named, else by one that
/// the finder searches for. Files are read in this order: policy, users, certificate, captures;
/// each is judged before the next is read. One thread reads them, so that the source sees all bytes
/// that are judged.
pub fn judge_files<R: Threads + Wait + Sync, F: CertificateFinder, S: Source>(
    rt: &R,
    alloc: Global,
    finder: &F,
    source: &mut S,
    policy: &str,
    users: Option<&str>,
    certificate: Option<&str>,
    captures: &[&str],
    workers: Workers,
) -> Result<Judged, Stop>
    ensures by { IfOk result IsByItsCertificate }
    ensures read { (policy_text users_text : List ℕ) (texts : List (List ℕ)) →
        S.holds source.old policy.now ≡ Some policy_text →
        IfSome users.entry (λ name. S.holds source.old name.now ≡ Some users_text) → IfNone users.entry (users_text ≡ []) →
        AllZip (λ name text. S.holds source.old name.now ≡ Some text) captures.now texts →
        IfOk result (λ judged. AreRead policy_text users_text texts (taken judged.files.intake) (key_for judged.files.users)) }
{
    match certificate {
        Some(certificate) => judged_by(
            rt,
            alloc,
            source,
            policy,
            users,
            certificate,
            captures,
            workers,
        ),
        None => judged_by_finding(rt, alloc, finder, source, policy, users, captures, workers),
    }
}
