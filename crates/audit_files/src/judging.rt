//! The verdict on the files of a run.

ghost use Rattle.std.specs.Prelude.{◌≡◌, ◌⊎◌, ◌↔◌, [], ℕ, IfErr, IfNone, IfOk, IfSome, List, Ok, Some};
ghost use Rattle.std.specs.List.{AllZip};
ghost use Rattle.audit_cert.specs.CertText.{cert_of};
ghost use Rattle.audit_cert.specs.Spelling.{said_by};
ghost use Rattle.audit_keys.specs.KeyFor.{key_for};
ghost use Rattle.audit_model.specs.declared.certificate.Certificate.{Certificate as Written};
ghost use Rattle.audit_model.specs.Policy.{AreApart};
ghost use Rattle.audit_model.specs.PolicyText.{policy_of};
ghost use Rattle.audit_sightings.specs.Files.{StandsFor};
ghost use Rattle.audit_sightings.specs.Intake.{taken};
ghost use Rattle.audit_verdict.specs.Verdicts.{IsConforming, IsVerdict};
ghost use Rattle.audit_whole.specs.CaptureRun.{rules_for};
ghost use Rattle.audit_whole.specs.Conforms.{Conforms};
ghost use Rattle.audit_whole.specs.Headline.{Headline};
ghost use Rattle.audit_files.specs.CaptureFaults.{EndsCaptures};
ghost use Rattle.audit_files.specs.Captures.{AreTakenIn};
ghost use Rattle.audit_files.specs.CertificateTexts.{HasText};
ghost use Rattle.audit_files.specs.Ends.{EndsBoth, EndsCheck, EndsFiles, EndsWriting};
ghost use Rattle.audit_files.specs.Judged.{AreRead, AreUsers, IsAudited, IsJudged, IsTold};
ghost use Rattle.audit_files.specs.Refusals.{EndsReading, RefusesCertificate, RefusesCredentials, RefusesPolicy, may_fail_of};

use crate::captures::take_in;
use crate::certificate_text::CertificateText;
use crate::source::Source;
use crate::stop::Stop;
use crate::text::read_text;
use crate::workers::Workers;
use audit_cert::CertificateReader;
use audit_glue::check;
use audit_keys::{Credentials, CredentialsReader};
use audit_model::{Certificate, Policy, PolicyReader, Sink, Verdict};
use audit_pool::check_parallel;
use audit_report::report;
use audit_sightings::Intake;
use std::alloc::{AllocError, Global};
use std::sync::Wait;
use std::thread::{Threads, join};

/// The policy of a file.
pub fn read_policy<S: Source>(alloc: Global, source: &mut S, name: &str) -> Result<Policy, Stop>
    ensures kept { S.holds source.new ≡ S.holds source.old }
    ensures says { (text : List ℕ) → S.holds source.old name.now ≡ Some text → IfOk result (λ policy. policy_of text ≡ Ok policy) }
    ensures apart { (text : List ℕ) → S.holds source.old name.now ≡ Some text → IfOk result AreApart }
    ensures steady { S.may_fail source.new ≡ S.may_fail source.old }
    ensures refused { (text : List ℕ) → S.holds source.old name.now ≡ Some text → IfErr result (EndsReading (S.may_fail source.old name.now) text (RefusesPolicy text)) }
{
    read_text(alloc, source, name, PolicyReader::new(alloc))
}

/// The users of a file; none if no file is named.
pub fn read_users<S: Source>(
    alloc: Global,
    source: &mut S,
    name: Option<&str>,
) -> Result<Credentials, Stop>
    ensures kept { S.holds source.new ≡ S.holds source.old }
    ensures says { (text : List ℕ) → IfSome name.entry (λ name. S.holds source.old name.now ≡ Some text) → IfNone name.entry (text ≡ [])
        → IfOk result (λ users. AreUsers text (key_for users)) }
    ensures steady { S.may_fail source.new ≡ S.may_fail source.old }
    ensures refused { (text : List ℕ) → IfSome name.entry (λ name. S.holds source.old name.now ≡ Some text) → IfNone name.entry (text ≡ [])
        → IfErr result (EndsReading (may_fail_of (S.may_fail source.old) name.entry) text (RefusesCredentials text)) }
{
    match name {
        Some(name) => read_text(alloc, source, name, CredentialsReader::new(alloc)),
        None => Ok(Credentials::read(alloc, b"")?),
    }
}

/// The files that every command reads, without the certificate.
#[derive(Drop)]
pub struct Files {
    pub intake: Intake,
    pub users: Credentials,
}

/// Reads the users and the captures of a run, by its policy. Files are read in this order: policy,
/// users, captures; each is checked before the next is read. The result is the same for any number
/// of workers.
pub fn read_files<R: Threads + Sync, S: Source>(
    rt: &R,
    alloc: Global,
    source: &mut S,
    policy: &str,
    users: Option<&str>,
    captures: &[&str],
    workers: Workers,
) -> Result<Files, Stop>
    ensures read { (policy_text users_text : List ℕ) (texts : List (List ℕ)) →
        S.holds source.old policy.now ≡ Some policy_text →
        IfSome users.entry (λ name. S.holds source.old name.now ≡ Some users_text) → IfNone users.entry (users_text ≡ []) →
        AllZip (λ name text. S.holds source.old name.now ≡ Some text) captures.now texts →
        IfOk result (λ files. AreRead policy_text users_text texts (taken files.intake) (key_for files.users)) }
    ensures refused { (policy_text users_text : List ℕ) (texts : List (List ℕ)) →
        S.holds source.old policy.now ≡ Some policy_text →
        IfSome users.entry (λ name. S.holds source.old name.now ≡ Some users_text) → IfNone users.entry (users_text ≡ []) →
        AllZip (λ name text. S.holds source.old name.now ≡ Some text) captures.now texts →
        IfErr result (EndsFiles (S.may_fail source.old) policy.now policy_text users.entry users_text captures.now texts) }
{
    let policy = read_policy(alloc, source, policy)?;
    let users = read_users(alloc, source, users)?;
    let intake = Intake::new(alloc, policy);
    let intake = take_in(rt, alloc, source, captures, intake, workers)?;
    Ok(Files { intake, users })
}

/// The verdict on the captures by the certificate, the same for any number of workers.
pub fn verdict_of<R: Threads + Wait + Sync>(
    rt: &R,
    alloc: Global,
    intake: &Intake,
    users: &Credentials,
    certificate: &Certificate,
    workers: Workers,
) -> Result<Verdict, AllocError>
    ensures verdict { IfOk result (IsVerdict (taken intake.now) (key_for users.now) certificate.now) }
    ensures conforming { IfOk result (λ verdict. IsConforming verdict ↔ Conforms (taken intake.now) (rules_for (taken intake.now) (key_for users.now)) certificate.now) }
    ensures headline { IfOk result (λ verdict. IsConforming verdict → Headline (taken intake.now) (key_for users.now) certificate.now) }
{
    if workers.count == 1 {
        return check(alloc, intake, users, certificate);
    }
    let judged = check_parallel(rt, alloc, intake, users, certificate, workers.count, &())?;
    Ok(judged.verdict)
}

/// Writes the report of a verdict on the captures. It returns 0 if they conform, and 1 if that
/// isn't shown.
pub fn write_verdict<O: Sink>(
    alloc: Global,
    verdict: &Verdict,
    intake: &Intake,
    out: &mut O,
) -> Result<u8, Stop>
    ensures told { IfOk result (IsTold (taken intake.now) verdict.now (O.taken out.old) (O.taken out.new)) }
    ensures unwritten { IfErr result (EndsWriting (O.failures out.old) (O.failures out.new)) }
{
    report(alloc, verdict, intake, out)?;
    match verdict {
        Verdict::Conforming { .. } => Ok(0),
        Verdict::NotShown(_) => Ok(1),
    }
}

/// Judges the captures by the certificate, and writes the report. It returns 0 if they conform, and
/// 1 if that isn't shown, for any number of workers.
pub fn judge<R: Threads + Wait + Sync, O: Sink>(
    rt: &R,
    alloc: Global,
    intake: &Intake,
    users: &Credentials,
    certificate: &Certificate,
    workers: Workers,
    out: &mut O,
) -> Result<u8, Stop>
    ensures judged { IfOk result (IsJudged (taken intake.now) (key_for users.now) certificate.now (O.taken out.old) (O.taken out.new)) }
    ensures unwritten { IfErr result (EndsWriting (O.failures out.old) (O.failures out.new)) }
{
    let verdict = verdict_of(rt, alloc, intake, users, certificate, workers)?;
    write_verdict(alloc, &verdict, intake, out)
}

/// The certificate of a file, and the captures. One worker reads them in this order, and checks the
/// certificate before it reads a capture. With more workers one reads the certificate's lines while
/// the others read the captures; its text is in memory until then. A fault of the certificate is
/// reported before a fault of a capture.
fn read_both<R: Threads + Sync, S: Source>(
    rt: &R,
    alloc: Global,
    source: &mut S,
    certificate: &str,
    captures: &[&str],
    intake: Intake,
    workers: Workers,
) -> Result<(Certificate, Intake), Stop>
    ensures certificate { (text : List ℕ) → S.holds source.old certificate.now ≡ Some text → IfOk result (λ both. cert_of text ≡ Ok (said_by both.0)) }
    ensures policy { IfOk result (λ both. both.1.policy ≡ intake.policy) }
    ensures captures { (texts : List (List ℕ)) → StandsFor intake [] → AllZip (λ name text. S.holds source.old name.now ≡ Some text) captures.now texts
        → IfOk result (λ both. AreTakenIn texts (taken both.1)) }
    ensures refused { (text : List ℕ) (texts : List (List ℕ)) → S.holds source.old certificate.now ≡ Some text → StandsFor intake [] → AllZip (λ name text. S.holds source.old name.now ≡ Some text) captures.now texts
        → IfErr result (EndsBoth (S.may_fail source.old) certificate.now text captures.now intake.policy texts) }
{
    if workers.count == 1 {
        let reader = CertificateReader::new(alloc);
        let certificate = read_text(alloc, source, certificate, reader)?;
        let intake = take_in(rt, alloc, source, captures, intake, workers)?;
        return Ok((certificate, intake));
    }
    let text = read_text(alloc, source, certificate, CertificateText::new(alloc))?;
    let lines = move || -> Result<Certificate, Stop>
        ensures first { (bytes : List ℕ) → HasText text bytes → IfOk result (λ certificate. cert_of bytes ≡ Ok (said_by certificate)) }
        ensures refused { (bytes : List ℕ) → HasText text bytes → IfErr result (RefusesCertificate bytes) }
    { text.read() };
    let frames = move || -> Result<Intake, Stop>
        ensures policy { IfOk result (λ done. done.policy ≡ intake.policy) }
        ensures captures { (texts : List (List ℕ)) → StandsFor intake [] → AllZip (λ name text. S.holds source.entry.now name.now ≡ Some text) captures.entry.now texts
            → IfOk result (λ done. AreTakenIn texts (taken done)) }
        ensures refused { (texts : List (List ℕ)) → StandsFor intake [] → AllZip (λ name text. S.holds source.entry.now name.now ≡ Some text) captures.entry.now texts
            → IfErr result (EndsCaptures (S.may_fail source.entry.now) captures.entry.now intake.policy texts) }
    { take_in(rt, alloc, source, captures, intake, workers.others()) };
    let (certificate, intake) = join(rt, lines, frames);
    Ok((certificate?, intake?))
}

/// Judges captures by the certificate of a file, and writes the report. Files are read in this
/// order: policy, credentials, certificate, captures; each is checked before the next is read,
/// except the certificate if there is more than one worker. It returns 0 if they conform, and 1 if
/// that isn't shown. The memory of the captures isn't freed then.
pub fn check_files<R: Threads + Wait + Sync, S: Source, O: Sink>(
    rt: &R,
    alloc: Global,
    source: &mut S,
    policy: &str,
    users: Option<&str>,
    certificate: &str,
    captures: &[&str],
    workers: Workers,
    out: &mut O,
) -> Result<u8, Stop>
    ensures audited { (policy_text users_text certificate_text : List ℕ) (texts : List (List ℕ)) →
        S.holds source.old policy.now ≡ Some policy_text →
        IfSome users.entry (λ name. S.holds source.old name.now ≡ Some users_text) → IfNone users.entry (users_text ≡ []) →
        S.holds source.old certificate.now ≡ Some certificate_text →
        AllZip (λ name text. S.holds source.old name.now ≡ Some text) captures.now texts →
        IfOk result (λ status. (written : Written) × (cert_of certificate_text ≡ Ok (said_by written))
        × IsAudited policy_text users_text texts written (O.taken out.old) (O.taken out.new) status) }
    ensures ended { (policy_text users_text certificate_text : List ℕ) (texts : List (List ℕ)) →
        S.holds source.old policy.now ≡ Some policy_text →
        IfSome users.entry (λ name. S.holds source.old name.now ≡ Some users_text) → IfNone users.entry (users_text ≡ []) →
        S.holds source.old certificate.now ≡ Some certificate_text →
        AllZip (λ name text. S.holds source.old name.now ≡ Some text) captures.now texts →
        IfErr result (λ stop. EndsCheck (S.may_fail source.old) policy.now policy_text users.entry users_text certificate.now certificate_text captures.now texts stop
        ⊎ EndsWriting (O.failures out.old) (O.failures out.new) stop) }
{
    let policy = read_policy(alloc, source, policy)?;
    let users = read_users(alloc, source, users)?;
    let intake = Intake::new(alloc, policy);
    let (certificate, intake) = read_both(
        rt,
        alloc,
        source,
        certificate,
        captures,
        intake,
        workers,
    )?;
    let status = judge(rt, alloc, &intake, &users, &certificate, workers, out)?;
    // The program ends: to free each payload by itself would take a tenth of its time.
    std::mem::forget(intake);
    Ok(status)
}
