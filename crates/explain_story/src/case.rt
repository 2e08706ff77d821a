//! The inputs of a verdict, and the lanes of its certificate.

ghost use Rattle.std.specs.Prelude.{IfOk, IfSome};
ghost use Rattle.audit_keys.specs.KeyFor.{key_for};
ghost use Rattle.audit_lane.specs.Concluded.{InOrder};
ghost use Rattle.audit_sightings.specs.Intake.{taken};
ghost use Rattle.explain_story.specs.Judged.{AreLanesOf};

use audit_glue::job;
use audit_keys::Credentials;
use audit_lane::{Finding, Job, judge};
use audit_model::Certificate;
use audit_placement::placed;
use audit_sightings::Intake;
use std::alloc::{AllocError, Global};
use std::sync::Arc;

/// The captures, the users and the certificate that were judged.
#[derive(Clone, Copy)]
pub struct Case<'a> {
    pub intake: &'a Intake,
    pub users: &'a Credentials,
    pub certificate: &'a Certificate,
    /// The names of the captures, as in the arguments.
    pub captures: &'a [&'a str],
}

/// All lanes of a certificate, and the finding of each, judged alone.
#[derive(Drop)]
pub struct Lanes<'a> {
    pub job: Job<'a>,
    pub findings: Vec<Finding<'a>>,
}

/// Judges each lane, in order.
fn judge_each<'a>(alloc: Global, job: &Job<'a>) -> Result<Vec<Finding<'a>>, AllocError>
    ensures { IfOk result (λ findings. InOrder job.now findings.items) }
{
    let mut findings = Vec::with_capacity(alloc, job.len() as usize)?;
    'lanes: for lane in 0..job.len() {
        let input = Arc::try_clone(job.input(lane))?;
        findings.push(judge(alloc, input)?)?;
    }
    Ok(findings)
}

/// The lanes of a certificate, each judged alone; `None` if the certificate's placement has a
/// breach. It takes n log n in the events.
pub fn lanes_of<'a>(alloc: Global, case: Case<'a>) -> Result<Option<Lanes<'a>>, AllocError>
    ensures { IfOk result (λ found. IfSome found (AreLanesOf (taken case.entry.intake.now) (key_for case.entry.users.now) case.entry.certificate.now)) }
{
    let placement = match placed(alloc, case.intake, case.certificate)? {
        Ok(placement) => placement,
        Err(_) => return Ok(None),
    };
    let job = job(alloc, case.intake, case.users, case.certificate, &placement)?;
    let findings = judge_each(alloc, &job)?;
    Ok(Some(Lanes { job, findings }))
}
