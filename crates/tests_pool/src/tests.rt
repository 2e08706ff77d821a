//! Two lanes by several workers: that they are judged at once, and which breach is told.

ghost use Rattle.std.specs.Prelude.{◌<◌, ◌≤◌};

use audit_book::Closed;
use audit_cert::read;
use audit_glue::check;
use audit_keys::Credentials;
use audit_model::{Addr, Certificate, Side, Verdict, read_policy};
use audit_pool::{Gate, check_parallel};
use audit_samples::{BuildFault, Capture, UdpDatagram};
use audit_sightings::Intake;
use std::alloc::Global;
use std::sync::Wait;
use std::sync::atomic::{AtomicU64, Ordering};
use std::test::*;
use std::thread;
use std::thread::Threads;
use std::time::{Clock, Duration};

const SERVER: Addr = Addr {
    ip: 0xC000_0201,
    port: 3478,
};

const CLIENT: Addr = Addr {
    ip: 0xC633_6407,
    port: 40000,
};

const OTHER: Addr = Addr {
    ip: 0xC633_6408,
    port: 40000,
};

/// A datagram of each client, which the server drops.
const PASSING: &[u8] =
    b"turnaudit-certificate 1\nlane 198.51.100.7:40000 192.0.2.1:3478\nin 0.1 3000000000 0\nlane 198.51.100.8:40000 192.0.2.1:3478\nin 0.0 2000000000 0\nend\n";

/// In each lane an act that no rule explains: in lane 0 at 3 seconds, in lane 1 at 2.
const BROKEN: &[u8] =
    b"turnaudit-certificate 1\nlane 198.51.100.7:40000 192.0.2.1:3478\nin 0.1 3000000000 0\nact 0.1 0.2 3000000000 1\nout 0.2 3000500000 0\nlane 198.51.100.8:40000 192.0.2.1:3478\nin 0.0 2000000000 0\nact 0.0 0.3 2000000000 1\nout 0.3 3000500000 1\nend\n";

/// A worker waits before its lane until the other lane has begun too, for 100,000 turns of 100
/// microseconds at the most.
#[derive(Drop)]
struct Meeting<'r, R> {
    rt: &'r R,
    first: AtomicU64,
    second: AtomicU64,
    missed: AtomicU64,
}

impl<'r, R: Clock> Meeting<'r, R> {
    fn new(rt: &'r R) -> Meeting<'r, R> {
        Meeting {
            rt,
            first: AtomicU64::new(0),
            second: AtomicU64::new(0),
            missed: AtomicU64::new(0),
        }
    }

    fn wait_for(&self, other: &AtomicU64) {
        for _ in 0..100_000u32 {
            if other.load(Ordering::SeqCst) == 1 {
                return;
            }
            thread::sleep(self.rt, Duration::from_micros(100));
        }
        self.missed.store(1, Ordering::SeqCst);
    }
}

impl<'r, R: Clock> Gate for Meeting<'r, R> {
    fn before(&self, lane: u32) {
        if lane == 0 {
            self.first.store(1, Ordering::SeqCst);
            self.wait_for(&self.second);
        } else {
            self.second.store(1, Ordering::SeqCst);
            self.wait_for(&self.first);
        }
    }

    fn after(&self, _lane: u32) {}
}

/// Adds a datagram that is no message, seen at this many microseconds since 1970.
fn add(
    alloc: Global,
    capture: &mut Capture,
    stamp: u64,
    side: Side,
    from: Addr,
    to: Addr,
) -> Result<(), BuildFault> {
    let payload = &[1, 2];
    capture.add(
        alloc,
        stamp,
        &UdpDatagram {
            side,
            from,
            to,
            payload,
        },
    )
}

/// A datagram of each client, and where the server answers, one to each.
fn capture(alloc: Global, answers: bool) -> Result<Capture, Fail> {
    let mut capture = Capture::new(alloc)?;
    add(alloc, &mut capture, 2_000_000, Side::Arrives, OTHER, SERVER)?;
    add(
        alloc,
        &mut capture,
        3_000_000,
        Side::Arrives,
        CLIENT,
        SERVER,
    )?;
    if answers {
        add(alloc, &mut capture, 3_000_500, Side::Leaves, SERVER, CLIENT)?;
        add(alloc, &mut capture, 3_000_500, Side::Leaves, SERVER, OTHER)?;
    }
    Ok(capture)
}

fn intake(alloc: Global, answers: bool) -> Result<Intake, Fail> {
    let capture = capture(alloc, answers)?;
    let policy = read_policy(alloc, b"turnaudit-policy 1\nlisten 192.0.2.1:3478\n")?;
    let mut intake = Intake::new(alloc, policy);
    let file = intake.add_file()?;
    intake.feed(file, capture.bytes())?;
    Ok(intake)
}

/// Whether two lanes were entered by two seats, each of which claimed its lane.
fn is_by_two(closed: &Closed<'_>) -> bool {
    let ([first, second], [one, other]) = (closed.entries.as_slice(), closed.seats.as_slice())
    else {
        return false;
    };
    one != other
        && closed.claimants.get(first.input().number() as usize) == Some(one)
        && closed.claimants.get(second.input().number() as usize) == Some(other)
}

/// The verdict of two workers that meet, whether one missed the other, and whether each entered a
/// lane.
fn met<R: Clock + Threads + Wait + Sync>(
    rt: &R,
    alloc: Global,
    intake: &Intake,
    users: &Credentials,
    certificate: &Certificate,
) -> Result<(Verdict, u64, bool), Fail> {
    let gate = Meeting::new(rt);
    let judged = check_parallel(rt, alloc, intake, users, certificate, 2, &gate)?;
    let is_each = judged.closed.is_some_and(|closed| is_by_two(&closed));
    Ok((judged.verdict, gate.missed.load(Ordering::SeqCst), is_each))
}

#[test]
fn two_workers_judge_two_lanes_at_once(rt: HostRuntime) -> Result<(), Fail> {
    let alloc = rt.alloc();
    let intake = intake(alloc, false)?;
    let users = Credentials::read(alloc, b"")?;
    let certificate = read(alloc, PASSING)?;
    let verdict = check(alloc, &intake, &users, &certificate)?;
    assert_eq!(rt;
        met(&rt, alloc, &intake, &users, &certificate)?,
        (verdict, 0, true)
    );
    Ok(())
}

/// Whether this many workers give the verdict, and their book.
fn gives<R: Threads + Wait + Sync>(
    rt: &R,
    alloc: Global,
    intake: &Intake,
    certificate: &Certificate,
    workers: u32,
    verdict: Verdict,
) -> Result<bool, Fail>
    requires { (0 < workers) × (workers ≤ 256) }
{
    let users = Credentials::read(alloc, b"")?;
    let judged = check_parallel(rt, alloc, intake, &users, certificate, workers, &())?;
    Ok(judged.verdict == verdict && judged.closed.is_some())
}

#[test]
fn any_number_of_workers_tells_the_least_breach(rt: HostRuntime) -> Result<(), Fail> {
    let alloc = rt.alloc();
    let intake = intake(alloc, true)?;
    let users = Credentials::read(alloc, b"")?;
    let certificate = read(alloc, BROKEN)?;
    let verdict = check(alloc, &intake, &users, &certificate)?;
    let Verdict::NotShown(breach) = verdict else {
        return Err(Fail::new("no breach"));
    };
    assert_eq!(rt; (breach.phase, breach.at.lane), (2, 1));
    let by_one = gives(&rt, alloc, &intake, &certificate, 1, verdict)?;
    let by_two = gives(&rt, alloc, &intake, &certificate, 2, verdict)?;
    let by_seven = gives(&rt, alloc, &intake, &certificate, 7, verdict)?;
    assert_eq!(rt; (by_one, by_two, by_seven), (true, true, true));
    Ok(())
}
