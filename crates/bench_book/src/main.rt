//! Measures how long a claim and an entry take in a book with this number of lanes. Without a
//! number it prints nothing: `rt run -- 65536`.
#![tactic(auto)]

ghost use Rattle.std.specs.Prelude.{◌≡◌, IfOk};

use audit_book::{Audit, Book, Seat};
use audit_keys::Credentials;
use audit_lane::{Finding, Job, LaneInput, judge, lane_input};
use audit_model::{Addr, CertLane, Listed, MAX_LANES, read_policy};
use audit_sightings::Intake;
use std::alloc::{AllocError, Global};
use std::marker::Brand;
use std::sync::ledger::Blank;
use std::sync::{Arc, Wait};
use std::time::{Clock, Duration, Instant};
use std::{env, io};

const SERVER: Addr = Addr {
    ip: 0xC000_0201,
    port: 3478,
};

/// A lane without events.
fn input<'a>(
    alloc: Global,
    number: u32,
    intake: &'a Intake,
    users: &Credentials,
) -> Result<Arc<LaneInput<'a>>, AllocError>
    ensures { IfOk result (λ input. input.value.number ≡ number) }
{
    let lane = CertLane {
        events: Listed::from(Vec::new(alloc)),
        client: Addr {
            ip: number,
            port: 1,
        },
        listen: SERVER,
    };
    lane_input(alloc, number, &lane, intake, users)
}

/// A job with this number of such lanes.
fn job_of<'a>(
    alloc: Global,
    lanes: u32,
    intake: &'a Intake,
    users: &Credentials,
) -> Result<Job<'a>, AllocError> {
    let mut job = Job::new(alloc);
    for _ in 0..lanes {
        let number = job.len();
        if number as usize >= MAX_LANES {
            return Err(AllocError);
        }
        job.push(input(alloc, number, intake, users)?)?;
    }
    Ok(job)
}

/// The finding of each lane.
fn findings_of<'a>(alloc: Global, job: &Job<'a>) -> Result<Vec<Finding<'a>>, AllocError> {
    let mut findings = Vec::new(alloc);
    for lane in 0..job.len() {
        findings.push(judge(alloc, Arc::try_clone(job.input(lane))?)?)?;
    }
    Ok(findings)
}

/// Enters the findings, and returns how many are entered.
fn enter_all<'a, E: Audit, R: Wait>(
    rt: &R,
    book: &Book<'a, E>,
    seat: &mut Seat<E>,
    findings: Vec<Finding<'a>>,
) -> u32 {
    let mut entered = 0u32;
    for finding in findings {
        if book.enter(rt, seat, finding).is_ok() {
            entered = entered.saturating_add(1);
        }
    }
    entered
}

/// Makes this number of claims, and returns how many lanes are claimed.
fn claim_all<E: Audit, R: Wait>(
    rt: &R,
    book: &Book<'_, E>,
    seat: &mut Seat<E>,
    claims: u32,
) -> u32 {
    let mut claimed = 0u32;
    for _ in 0..claims {
        if book.claim(rt, seat).is_some() {
            claimed = claimed.saturating_add(1);
        }
    }
    claimed
}

/// The nanoseconds of each of `count` operations.
fn nanoseconds_each(took: Duration, count: u32) -> u64 {
    let seconds = took.as_secs().saturating_mul(1_000_000_000);
    seconds.saturating_add(u64::from(took.subsec_nanos())) / u64::from(count).max(1)
}

/// The numbers of claims and entries, with the nanoseconds of each.
#[derive(Clone, Copy)]
struct Times {
    claims: u32,
    claim: u64,
    entries: u32,
    entry: u64,
}

fn measure<'a, E: Audit, R: Wait + Clock>(
    rt: &R,
    alloc: Global,
    job: Arc<Job<'a>>,
    findings: Vec<Finding<'a>>,
    blank: Blank,
) -> io::Result<Option<Times>>
    requires blank { (blank.name ≡ E.name) × (blank.parts ≡ E.parts) × (E.parts ≡ 1) }
    requires named { E.inputs ≡ job.value }
{
    let lanes = job.len();
    let Ok((book, mut seats)) = Book::<E>::open(alloc, job, 1, blank) else {
        return Ok(None);
    };
    let Some(mut seat) = seats.pop() else {
        return Ok(None);
    };
    let start = Instant::now(rt)?;
    let claims = claim_all(rt, &book, &mut seat, lanes);
    let claiming = start.elapsed(rt)?;
    let start = Instant::now(rt)?;
    let entries = enter_all(rt, &book, &mut seat, findings);
    let entering = start.elapsed(rt)?;
    Ok(Some(Times {
        claims,
        claim: nanoseconds_each(claiming, claims),
        entries,
        entry: nanoseconds_each(entering, entries),
    }))
}

fn main(rt: HostRuntime) -> io::Result<()> {
    let Some(word) = env::args(&rt)?.nth(1) else {
        return Ok(());
    };
    let Ok(lanes) = word.as_str().parse::<u32>() else {
        return Ok(());
    };
    let alloc = rt.alloc();
    let Ok(policy) = read_policy(alloc, b"turnaudit-policy 1\nlisten 192.0.2.1:3478\n") else {
        return Ok(());
    };
    let Ok(users) = Credentials::read(alloc, b"") else {
        return Ok(());
    };
    let intake = Intake::new(alloc, policy);
    let job = Arc::new(alloc, job_of(alloc, lanes, &intake, &users)?)?;
    let findings = findings_of(alloc, &*job)?;
    let Some(times) = measure::<Brand, _>(&rt, alloc, job, findings, Blank::new(1))? else {
        return Ok(());
    };
    let Times {
        claims,
        claim,
        entries,
        entry,
    } = times;
    println!(rt; "{claims} claims, {claim} ns each; {entries} entries, {entry} ns each")
}
