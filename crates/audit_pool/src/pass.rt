//! The verdict by any number of workers.

ghost use Rattle.std.specs.Prelude.{◌≡◌, ◌<◌, ◌≤◌, ◌↔◌, IfOk, IfSome};
ghost use Rattle.audit_keys.specs.KeyFor.{key_for};
ghost use Rattle.audit_sightings.specs.Intake.{taken};
ghost use Rattle.audit_verdict.specs.Verdicts.{IsConforming, IsVerdict};
ghost use Rattle.audit_whole.specs.CaptureRun.{rules_for};
ghost use Rattle.audit_whole.specs.Conforms.{Conforms};
ghost use Rattle.audit_whole.specs.Headline.{Headline};
ghost use Rattle.audit_pool.specs.Full.{IsFullOf};

use crate::gate::Gate;
use crate::inputs::job_by;
use crate::workers::full_book;
use audit_book::Closed;
use audit_glue::{check, conclude};
use audit_keys::Credentials;
use audit_model::{Certificate, Verdict};
use audit_placement::placed_by;
use audit_sightings::Intake;
use audit_sightings::laws::sightings_are_numbered;
use std::alloc::{AllocError, Global};
use std::sync::{Arc, Wait};
use std::thread::Threads;

/// A verdict, and the book whose entries it was concluded from.
#[derive(Drop)]
pub struct Judged<'a> {
    pub verdict: Verdict,
    /// None if placement has a breach, or memory ran out for the workers.
    pub closed: Option<Closed<'a>>,
}

/// The verdict of the parts: placement first, then the lanes, by the workers, or by this thread if
/// memory ran out for them.
fn verdict_of_parts<'a, R: Threads + Wait + Sync, G: Gate + Sync>(
    rt: &R,
    alloc: Global,
    intake: &'a Intake,
    credentials: &Credentials,
    certificate: &Certificate,
    workers: u32,
    gate: &G,
) -> Result<Judged<'a>, AllocError>
    requires { (0 < workers) × (workers ≤ 256) }
    ensures verdict { IfOk result (λ j. IsVerdict (taken intake.now) (key_for credentials.now) certificate.now j.verdict) }
    ensures closed { IfOk result (λ j. IfSome j.closed (λ c. IsFullOf (taken intake.now) (key_for credentials.now) certificate.now workers c.claimants.items c.seats.items c.entries.items j.verdict)) }
{
    let placement = match placed_by(rt, alloc, intake, certificate, workers)? {
        Ok(placement) => placement,
        Err(breach) => {
            return Ok(Judged {
                verdict: Verdict::NotShown(breach),
                closed: None,
            });
        }
    };
    let job = job_by(
        rt,
        alloc,
        intake,
        credentials,
        certificate,
        &placement,
        workers,
    )?;
    let job = Arc::new(alloc, job)?;
    let filled = full_book(rt, alloc, &job, workers, gate);
    // Frees the memory of the job, which may be needed.
    drop(job);
    let Ok(closed) = filled else {
        let verdict = check(alloc, intake, credentials, certificate)?;
        return Ok(Judged {
            verdict,
            closed: None,
        });
    };
    let verdict = conclude(alloc, placement.datagrams(), closed.entries.as_slice())?;
    Ok(Judged {
        verdict,
        closed: Some(closed),
    })
}

/// The verdict of `check`, by 1 to 256 workers: each lane is judged by one of them, whichever
/// claims it, and the verdict doesn't depend on which. Before and after each judging the worker
/// calls the gate.
///
/// Its `closed` has one entry for each lane. If memory runs out for the book, or for a lane at a
/// worker, this thread judges every lane alone, and fails if memory runs out for it too. If no
/// thread can be started, the workers run one after another.
pub fn check_parallel<'a, R: Threads + Wait + Sync, G: Gate + Sync>(
    rt: &R,
    alloc: Global,
    intake: &'a Intake,
    credentials: &Credentials,
    certificate: &Certificate,
    workers: u32,
    gate: &G,
) -> Result<Judged<'a>, AllocError>
    requires { (0 < workers) × (workers ≤ 256) }
    // The least breach of placement, or the verdict of the lanes.
    ensures verdict { IfOk result (λ j. IsVerdict (taken intake.now) (key_for credentials.now) certificate.now j.verdict) }
    // It conforms exactly if the certificate's one list of moves is a run of the server that
    // explains the captures,
    ensures conforming { IfOk result (λ j. IsConforming j.verdict ↔ Conforms (taken intake.now) (rules_for (taken intake.now) (key_for credentials.now)) certificate.now) }
    // and then the headline holds.
    ensures headline { IfOk result (λ j. IsConforming j.verdict → Headline (taken intake.now) (key_for credentials.now) certificate.now) }
    // A closed book has this number of seats and an entry for each lane of the certificate's job,
    // and its entries have the verdict.
    ensures closed { IfOk result (λ j. IfSome j.closed (λ c. IsFullOf (taken intake.now) (key_for credentials.now) certificate.now workers c.claimants.items c.seats.items c.entries.items j.verdict)) }
{
    sightings_are_numbered(intake);
    let judged = verdict_of_parts(rt, alloc, intake, credentials, certificate, workers, gate)?;
    Ok(judged)
}
