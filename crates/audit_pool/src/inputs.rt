//! Builds the inputs of the lanes, by the workers.

ghost use Rattle.std.specs.Prelude.{◌<◌, ◌≡◌, ℕ, IfOk, IfSome, IsSomeAnd, length, slice_get, slice_index_or};
ghost use Rattle.audit_keys.specs.KeyFor.{key_for};
ghost use Rattle.audit_placement.specs.Named.{AllNamed};
ghost use Rattle.audit_sightings.specs.Intake.{taken};
ghost use Rattle.audit_verdict.specs.Verdicts.{IsJobOf, IsLaneInput};

use audit_keys::Credentials;
use audit_lane::{Job, LaneInput, lane_input};
use audit_model::Certificate;
use audit_placement::Placement;
use audit_sightings::Intake;
use std::alloc::{AllocError, Global};
use std::sync::Arc;
use std::thread;
use std::thread::Threads;

/// Stores the input of the lane of that number in its place, or None if memory runs out.
fn put_input<'a>(
    alloc: Global,
    intake: &'a Intake,
    credentials: &Credentials,
    certificate: &Certificate,
    number: usize,
    place: &mut Option<Arc<LaneInput<'a>>>,
)
    requires there { number < length certificate.now.lanes }
    requires named { AllNamed (taken intake.now) certificate.now }
    ensures { IfSome place.new (λ input. IsSomeAnd (slice_get certificate.now.lanes number)
        (λ lane. IsLaneInput (taken intake.now) (key_for credentials.now) number lane input.value)) }
{
    let lane = &certificate.lanes.as_slice()[number];
    *place = match lane_input(alloc, number as u32, lane, intake, credentials) {
        Ok(input) => Some(input),
        Err(_) => None,
    };
}

/// One empty place for each lane.
fn places<'a>(alloc: Global, lanes: usize) -> Result<Vec<Option<Arc<LaneInput<'a>>>>, AllocError>
    ensures { IfOk result (λ places. length places.items ≡ lanes) }
{
    let mut places = Vec::with_capacity(alloc, lanes)?;
    'lanes: while places.len() < lanes {
        places.push(None)?;
    }
    Ok(places)
}

/// Stores the input of each lane in its place, or None if memory runs out, by at most `workers`
/// threads.
fn put_inputs<'a, R: Threads + Sync>(
    rt: &R,
    alloc: Global,
    intake: &'a Intake,
    credentials: &Credentials,
    certificate: &Certificate,
    workers: u32,
    places: &mut [Option<Arc<LaneInput<'a>>>],
)
    requires workers { 0 < workers }
    requires there { length places.old ≡ length certificate.now.lanes }
    requires named { AllNamed (taken intake.now) certificate.now }
    ensures { (i : ℕ) (d : _) → i < length places.old → IfSome (slice_index_or places.new i d) (λ input. IsSomeAnd (slice_get certificate.now.lanes i)
        (λ lane. IsLaneInput (taken intake.now) (key_for credentials.now) i lane input.value)) }
{
    thread::for_each_mut(
        rt,
        places,
        workers as usize,
        &|number, place| put_input(alloc, intake, credentials, certificate, number, place),
    );
}

/// The inputs of a certificate's lanes, if placement has no breach: the same as `audit_glue::job`,
/// by at most `workers` threads.
pub fn job_by<'a, R: Threads + Sync>(
    rt: &R,
    alloc: Global,
    intake: &'a Intake,
    credentials: &Credentials,
    certificate: &Certificate,
    _placement: &Placement,
    workers: u32,
) -> Result<Job<'a>, AllocError>
    requires workers { 0 < workers }
    requires named { AllNamed (taken intake.now) certificate.now }
    ensures { IfOk result (IsJobOf (taken intake.now) (key_for credentials.now) certificate.now) }
{
    let mut places = places(alloc, certificate.lanes.len())?;
    put_inputs(
        rt,
        alloc,
        intake,
        credentials,
        certificate,
        workers,
        places.as_mut_slice(),
    );
    let mut job = Job::new(alloc);
    'lanes: for place in places.as_slice() {
        let Some(input) = place else {
            return Err(AllocError);
        };
        job.push(Arc::try_clone(input)?)?;
    }
    Ok(job)
}
