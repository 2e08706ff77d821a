//! Judges the lanes of a certificate in order.

ghost use Rattle.std.specs.Prelude.{IfOk};
ghost use Rattle.audit_verdict.specs.Verdicts.{IsJobOf};
ghost use Rattle.audit_keys.specs.KeyFor.{key_for};
ghost use Rattle.audit_lane.specs.Concluded.{InOrder};
ghost use Rattle.audit_placement.specs.Named.{AllNamed};
ghost use Rattle.audit_sightings.specs.Intake.{taken};

use audit_keys::Credentials;
use audit_lane::{Finding, Job, judge, lane_input};
use audit_model::Certificate;
use audit_placement::Placement;
use audit_sightings::Intake;
use std::alloc::{AllocError, Global};
use std::sync::Arc;

/// The inputs of a certificate's lanes, if placement has no breach.
pub fn job<'a>(
    alloc: Global,
    intake: &'a Intake,
    credentials: &Credentials,
    certificate: &Certificate,
    _placement: &Placement,
) -> Result<Job<'a>, AllocError>
    requires { AllNamed (taken intake.now) certificate.now }
    ensures { IfOk result (IsJobOf (taken intake.now) (key_for credentials.now) certificate.now) }
{
    let mut job = Job::new(alloc);
    'lanes: for (number, lane) in certificate.lanes.as_slice().iter().enumerate() {
        job.push(lane_input(alloc, number as u32, lane, intake, credentials)?)?;
    }
    Ok(job)
}

/// The finding of each lane, in the order of the lanes.
pub fn judge_all<'a>(alloc: Global, job: &Job<'a>) -> Result<Vec<Finding<'a>>, AllocError>
    ensures { IfOk result (λ findings. InOrder job.now findings.items) }
{
    let mut findings = Vec::with_capacity(alloc, job.len() as usize)?;
    'lanes: for lane in 0..job.len() {
        let input = Arc::try_clone(job.input(lane))?;
        findings.push(judge(alloc, input)?)?;
    }
    Ok(findings)
}
