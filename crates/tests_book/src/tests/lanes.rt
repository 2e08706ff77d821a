//! Jobs of lanes with one event, and their findings.

ghost use Rattle.std.specs.Prelude.{◌≡◌, ◌↔◌, IfOk, IsTrue};
ghost use Rattle.audit_sightings.specs.Intake.{IsThere, NamesWhatIsThere, taken};

use audit_keys::Credentials;
use audit_lane::{Finding, Job, LaneInput, judge, lane_input};
use audit_model::{
    Addr, At, Breach, CertLane, Event, Key, Listed, MAX_LANES, Rule, Side, SightId, read_policy,
};
use audit_samples::{BuildFault, Capture, UdpDatagram};
use audit_sightings::Intake;
use std::alloc::{AllocError, Global};
use std::sync::Arc;
use std::test::Fail;

const SERVER: Addr = Addr {
    ip: 0xC000_0201,
    port: 3478,
};

const CLIENT: Addr = Addr {
    ip: 0xC633_6407,
    port: 40000,
};

const ARRIVAL: SightId = SightId { iface: 0, index: 0 };

const DEPARTURE: SightId = SightId { iface: 0, index: 1 };

const KEY: Key = Key {
    moment: 1_000_000_000,
    tie: 0,
};

/// An arrival and a departure.
fn capture(alloc: Global) -> Result<Capture, BuildFault> {
    let mut capture = Capture::new(alloc)?;
    for (stamp, side, from, to) in [
        (1_000_000, Side::Arrives, CLIENT, SERVER),
        (1_000_200, Side::Leaves, SERVER, CLIENT),
    ] {
        let payload = &[1, 2];
        capture.add(
            alloc,
            stamp,
            &UdpDatagram {
                side,
                from,
                to,
                payload,
            },
        )?;
    }
    Ok(capture)
}

/// The intake of both.
pub fn intake(alloc: Global) -> Result<Intake, Fail> {
    let policy = read_policy(alloc, b"turnaudit-policy 1\nlisten 192.0.2.1:3478\n")?;
    let mut intake = Intake::new(alloc, policy);
    let file = intake.add_file()?;
    intake.feed(file, capture(alloc)?.bytes())?;
    Ok(intake)
}

fn is_there(intake: &Intake, side: Side, sight: SightId) -> bool
    ensures { IsTrue result ↔ IsThere (taken intake.now) side sight }
{
    match intake.sighting(sight) {
        Some(sighting) => sighting.side == side,
        None => false,
    }
}

fn names_what_is_there(intake: &Intake, event: Event) -> bool
    ensures { IsTrue result ↔ NamesWhatIsThere (taken intake.now) event }
{
    match event {
        Event::In { sight, .. } => is_there(intake, Side::Arrives, sight),
        Event::Act { sight, gives, .. } => {
            is_there(intake, Side::Arrives, sight) && is_there(intake, Side::Leaves, gives)
        }
        Event::Out { sight, .. } => is_there(intake, Side::Leaves, sight),
    }
}

/// A lane with one event. A broken one has a departure that no act sent, and another one an
/// arrival.
fn lane<'a>(
    alloc: Global,
    number: u32,
    client: Addr,
    is_broken: bool,
    intake: &'a Intake,
) -> Result<Arc<LaneInput<'a>>, Fail>
    ensures { IfOk result (λ input. input.value.number ≡ number) }
{
    let event = if is_broken {
        Event::Out {
            sight: DEPARTURE,
            key: KEY,
        }
    } else {
        Event::In {
            sight: ARRIVAL,
            key: KEY,
        }
    };
    if !names_what_is_there(intake, event) {
        return Err(Fail::new("the event names what is not there"));
    }
    let lane = CertLane {
        events: Listed::from(Vec::from_slice(alloc, &[event])?),
        client,
        listen: SERVER,
    };
    let users = Credentials::read(alloc, b"")?;
    Ok(lane_input(alloc, number, &lane, intake, &users)?)
}

/// A job with this number of lanes of clients at this port, of which these are broken.
pub fn job<'a>(
    alloc: Global,
    lanes: u32,
    port: u16,
    broken: &[u32],
    intake: &'a Intake,
) -> Result<Arc<Job<'a>>, Fail> {
    let mut job = Job::new(alloc);
    for _ in 0..lanes {
        let number = job.len();
        if number as usize >= MAX_LANES {
            return Err(Fail::new("too many lanes"));
        }
        let client = Addr { ip: number, port };
        let is_broken = broken.contains(&number);
        job.push(lane(alloc, number, client, is_broken, intake)?)?;
    }
    Ok(Arc::new(alloc, job)?)
}

/// The finding of a lane of the job. It fails also if there is no such lane.
pub fn finding<'a>(alloc: Global, job: &Job<'a>, lane: u32) -> Result<Finding<'a>, AllocError> {
    if lane >= job.len() {
        return Err(AllocError);
    }
    judge(alloc, Arc::try_clone(job.input(lane))?)
}

/// Whether the finding is of that lane of the job.
pub fn is_of_lane(finding: &Finding<'_>, job: &Job<'_>, lane: u32) -> bool {
    lane < job.len() && finding.input().equals(job.input(lane))
}

/// The breach of lane 0 if that is broken.
pub const BREACH_OF_0: Breach = Breach {
    at: At {
        key: KEY,
        lane: 0,
        place: 0,
    },
    sight: DEPARTURE,
    rule: Rule::LeftWithoutAct,
    phase: 2,
};

/// The breach of a broken lane.
pub fn breach_of(lane: u32) -> Breach {
    let at = At {
        lane,
        ..BREACH_OF_0.at
    };
    Breach { at, ..BREACH_OF_0 }
}
