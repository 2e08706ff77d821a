//! Concludes the verdict from the findings of the lanes.

ghost use Rattle.std.specs.Prelude.{length, ◌≤◌, ◌↔◌, IfOk};
ghost use Rattle.audit_keys.specs.KeyFor.{key_for};
ghost use Rattle.audit_lane.specs.Concluded.{ConcludesTo};
ghost use Rattle.audit_verdict.specs.Verdicts.{IsConforming, IsVerdict};
ghost use Rattle.audit_whole.specs.CaptureRun.{rules_for};
ghost use Rattle.audit_whole.specs.Conforms.{Conforms};
ghost use Rattle.audit_whole.specs.Headline.{Headline};
ghost use Rattle.audit_sightings.specs.Intake.{taken};
ghost use Rattle.audit_model.specs.declared.certificate.TheConstants.{MAX_LANES};

use crate::lanes::{job, judge_all};
use audit_keys::Credentials;
use audit_lane::{Finding, all_tenancies, least_breach};
use audit_model::{Certificate, Verdict};
use audit_placement::placed;
use audit_sightings::Intake;
use audit_sightings::laws::sightings_are_numbered;
use audit_tenancy::clash;
use std::alloc::{AllocError, Global};

/// The verdict of one finding for each lane, in any order, if placement has no breach: the least
/// breach of the lanes, or else of their tenancies. It takes n log n time in the tenancies.
pub fn conclude(
    alloc: Global,
    datagrams: u32,
    findings: &[Finding<'_>],
) -> Result<Verdict, AllocError>
    requires { length findings.now ≤ MAX_LANES }
    ensures { IfOk result (ConcludesTo datagrams findings.now) }
{
    if let Some(breach) = least_breach(findings) {
        return Ok(Verdict::NotShown(breach));
    }
    if let Some(breach) = clash(alloc, all_tenancies(alloc, findings)?.as_slice())? {
        return Ok(Verdict::NotShown(breach));
    }
    Ok(Verdict::Conforming {
        datagrams,
        lanes: findings.len() as u32,
    })
}

/// The verdict of the parts: placement first, then each lane alone, then which of them hold one
/// address at once.
fn verdict_of_parts(
    alloc: Global,
    intake: &Intake,
    credentials: &Credentials,
    certificate: &Certificate,
) -> Result<Verdict, AllocError>
    ensures { IfOk result (IsVerdict (taken intake.now) (key_for credentials.now) certificate.now) }
{
    let placement = match placed(alloc, intake, certificate)? {
        Ok(placement) => placement,
        Err(breach) => return Ok(Verdict::NotShown(breach)),
    };
    let job = job(alloc, intake, credentials, certificate, &placement)?;
    let findings = judge_all(alloc, &job)?;
    conclude(alloc, placement.datagrams(), findings.as_slice())
}

/// The verdict on an intake by a certificate (RFC 8656): it conforms exactly if the certificate is
/// one run of the server that explains the captures. It takes n log n time in the events and
/// tenancies, and reads each payload a bounded number of times.
pub fn check(
    alloc: Global,
    intake: &Intake,
    credentials: &Credentials,
    certificate: &Certificate,
) -> Result<Verdict, AllocError>
    // The least breach of placement, or the verdict of the lanes.
    ensures verdict { IfOk result (IsVerdict (taken intake.now) (key_for credentials.now) certificate.now) }
    // It conforms exactly if the certificate's one list of moves is a run of the server that
    // explains the captures,
    ensures conforming { IfOk result (λ verdict. IsConforming verdict ↔ Conforms (taken intake.now) (rules_for (taken intake.now) (key_for credentials.now)) certificate.now) }
    // and then the headline holds.
    ensures headline { IfOk result (λ verdict. IsConforming verdict → Headline (taken intake.now) (key_for credentials.now) certificate.now) }
{
    sightings_are_numbered(intake);
    let verdict = verdict_of_parts(alloc, intake, credentials, certificate)?;
    Ok(verdict)
}
