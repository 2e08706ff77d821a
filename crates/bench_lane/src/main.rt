//! How long the parts of an audit by a certificate take, one after the other: placement, the job of
//! the lanes, and the lanes' judgement.
//! `rt run -- POLICY CREDS CERTIFICATE CAPTURE..`; without these words it prints nothing.
#![tactic(auto)]

use audit_cert::read;
use audit_glue::job;
use audit_keys::Credentials;
use audit_lane::{Job, Outcome, judge};
use audit_model::{Certificate, Policy, read_policy};
use audit_placement::placed;
use audit_sightings::Intake;
use std::alloc::{AllocError, Global};
use std::rt::Files;
use std::sync::Arc;
use std::time::{Clock, Duration, Instant};
use std::{env, fs, io};

/// What the lanes came to.
#[derive(Clone, Copy)]
struct Judged {
    events: usize,
    passed: u32,
}

/// What the lanes came to, and how many nanoseconds each part took.
#[derive(Clone, Copy)]
struct Timed {
    judged: Judged,
    placement: u64,
    job: u64,
    lanes: u64,
}

/// Judges each lane of the job.
fn judge_lanes(alloc: Global, job: &Job<'_>) -> Result<Judged, AllocError> {
    let mut judged = Judged {
        events: 0,
        passed: 0,
    };
    for lane in 0..job.len() {
        let finding = judge(alloc, Arc::try_clone(job.input(lane))?)?;
        judged.events = judged.events.saturating_add(finding.input().events().len());
        if let Outcome::Passed(_) = finding.outcome() {
            judged.passed = judged.passed.saturating_add(1);
        }
    }
    Ok(judged)
}

fn nanoseconds(took: Duration) -> u64 {
    let seconds = took.as_secs().saturating_mul(1_000_000_000);
    seconds.saturating_add(u64::from(took.subsec_nanos()))
}

/// The captures of these names, taken in; none where one of them is refused.
fn taken_in<R: AllocGlobal + Files>(
    rt: &R,
    alloc: Global,
    policy: Policy,
    captures: &[String],
) -> io::Result<Option<Intake>> {
    let mut intake = Intake::new(alloc, policy);
    for name in captures {
        let Ok(file) = intake.add_file() else {
            return Ok(None);
        };
        let capture = fs::read(rt, name.as_str())?;
        if intake.feed(file, &capture).is_err() {
            return Ok(None);
        }
    }
    Ok(Some(intake))
}

/// What the lanes came to, and the times of the parts; none where a rule of placement is broken.
fn measured<R: Clock>(
    rt: &R,
    alloc: Global,
    intake: &Intake,
    credentials: &Credentials,
    certificate: &Certificate,
) -> io::Result<Option<Timed>> {
    let start = Instant::now(rt)?;
    let Ok(placement) = placed(alloc, intake, certificate)? else {
        return Ok(None);
    };
    let placement_took = nanoseconds(start.elapsed(rt)?);
    let start = Instant::now(rt)?;
    let job = job(alloc, intake, credentials, certificate, &placement)?;
    let job_took = nanoseconds(start.elapsed(rt)?);
    let start = Instant::now(rt)?;
    let judged = judge_lanes(alloc, &job)?;
    Ok(Some(Timed {
        judged,
        placement: placement_took,
        job: job_took,
        lanes: nanoseconds(start.elapsed(rt)?),
    }))
}

/// The three texts of these names, read; none where one of them is refused.
fn read_texts<R: AllocGlobal + Files>(
    rt: &R,
    alloc: Global,
    names: [&str; 3],
) -> io::Result<Option<(Policy, Credentials, Certificate)>> {
    let [policy, credentials, certificate] = names;
    let Ok(policy) = read_policy(alloc, &fs::read(rt, policy)?) else {
        return Ok(None);
    };
    let Ok(credentials) = Credentials::read(alloc, &fs::read(rt, credentials)?) else {
        return Ok(None);
    };
    match read(alloc, &fs::read(rt, certificate)?) {
        Ok(certificate) => Ok(Some((policy, credentials, certificate))),
        Err(_) => Ok(None),
    }
}

/// The times of the files that the words name.
fn times_of<R: AllocGlobal + Files + Clock>(
    rt: &R,
    alloc: Global,
    words: &[String],
) -> io::Result<Option<Timed>> {
    let [_, policy, credentials, certificate, captures @ ..] = words else {
        return Ok(None);
    };
    let names = [policy.as_str(), credentials.as_str(), certificate.as_str()];
    let Some((policy, credentials, certificate)) = read_texts(rt, alloc, names)? else {
        return Ok(None);
    };
    match taken_in(rt, alloc, policy, captures)? {
        Some(intake) => measured(rt, alloc, &intake, &credentials, &certificate),
        None => Ok(None),
    }
}

fn main(rt: HostRuntime) -> io::Result<()> {
    let alloc = rt.alloc();
    let mut words = Vec::new(alloc);
    for word in env::args(&rt)? {
        words.push(word)?;
    }
    let Some(timed) = times_of(&rt, alloc, &words)? else {
        return Ok(());
    };
    let Timed {
        judged,
        placement,
        job,
        lanes,
    } = timed;
    let Judged { events, passed } = judged;
    let count = (events as u64).max(1);
    let each_placed = placement / count;
    let each_judged = lanes / count;
    println!(rt;
        "{passed} lanes passed, {events} events: {placement} ns to place them, {each_placed} ns an event; {job} ns to make the job; {lanes} ns to judge it, {each_judged} ns an event"
    )
}
