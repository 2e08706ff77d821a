//! Measures how long it takes to read and parse captures: one after another by one thread, in
//! parallel by WORKERS threads, and one after another in pieces of KIBIBYTES KiB, whose frames many
//! threads parse. `rt run -- POLICY WORKERS KIBIBYTES ROUNDS CAPTURE..`; without these arguments it
//! prints nothing.
#![tactic(auto)]

mod captures;

use audit_files::{Source, Workers, take_in};
use audit_model::{Policy, read_policy};
use audit_sightings::Intake;
use captures::Captures;
use host::arguments;
use std::alloc::{AllocError, Global};
use std::thread::Threads;
use std::time::{Clock, Instant};
use std::{fmt, fs, io};

/// How captures are read.
#[derive(Clone, Copy)]
enum Way {
    InTurn,
    SideBySide(Workers),
    /// In pieces of this number of bytes.
    FramesByThreads(usize),
}

impl fmt::Display for Way {
    fn fmt<W: fmt::Write>(&self, f: &mut fmt::Formatter<W>) -> fmt::Result {
        match self {
            Way::InTurn => f.write_str("in turn"),
            Way::SideBySide(workers) => write!(f, "side by side by {}", workers.count),
            Way::FramesByThreads(bytes) => write!(f, "frames by threads, pieces of {bytes}"),
        }
    }
}

/// The captures, whose frames threads parse piece by piece; `None` if one is refused.
fn frames_by_threads<R: Threads + Sync, S: Source>(
    rt: &R,
    alloc: Global,
    source: &mut S,
    names: &[&str],
    mut intake: Intake,
    bytes: usize,
) -> Result<Option<Intake>, AllocError> {
    let mut into = vec![in alloc; 0u8; bytes]?;
    for name in names {
        let Ok(file) = intake.add_file() else {
            return Ok(None);
        };
        let mut at = 0u64;
        'pieces: for _ in 0..u64::MAX {
            let Ok(read) = source.piece(name, at, &mut into) else {
                return Ok(None);
            };
            if read == 0 {
                break 'pieces;
            }
            if intake.feed_parallel(rt, file, &into[..read]).is_err() {
                return Ok(None);
            }
            at = at.saturating_add(read as u64);
        }
    }
    Ok(Some(intake))
}

/// The captures, read in one way; `None` if one is refused.
fn read<R: Threads + Sync, S: Source>(
    rt: &R,
    alloc: Global,
    source: &mut S,
    names: &[&str],
    policy: Policy,
    way: Way,
) -> Result<Option<Intake>, AllocError> {
    let intake = Intake::new(alloc, policy);
    let workers = match way {
        Way::InTurn => Workers::one(),
        Way::SideBySide(workers) => workers,
        Way::FramesByThreads(bytes) => {
            return frames_by_threads(rt, alloc, source, names, intake, bytes);
        }
    };
    match take_in(rt, alloc, source, names, intake, workers) {
        Ok(intake) => Ok(Some(intake)),
        Err(_) => Ok(None),
    }
}

/// How many microseconds it takes to read the captures, and the number of their sightings; `None`
/// if one is refused.
fn timed<R: Threads + Clock + Sync, S: Source>(
    rt: &R,
    alloc: Global,
    source: &mut S,
    policy: &[u8],
    names: &[&str],
    way: Way,
) -> io::Result<Option<(u64, u32)>> {
    let Ok(policy) = read_policy(alloc, policy) else {
        return Ok(None);
    };
    let start = Instant::now(rt)?;
    let Some(intake) = read(rt, alloc, source, names, policy, way)? else {
        return Ok(None);
    };
    let took = start.elapsed(rt)?;
    let (_, sightings) = intake.counts();
    let microseconds = took.as_secs().saturating_mul(1_000_000);
    let microseconds = microseconds.saturating_add(u64::from(took.subsec_micros()));
    Ok(Some((microseconds, sightings)))
}

fn main(rt: HostRuntime) -> io::Result<()> {
    let alloc = rt.alloc();
    let words = arguments(&rt)?;
    let [_, policy, workers, kibibytes, rounds, captures @ ..] = words.as_slice() else {
        return Ok(());
    };
    let (Ok(workers), Ok(kibibytes), Ok(rounds)) = (
        workers.parse::<u32>(),
        kibibytes.parse::<usize>(),
        rounds.parse::<u32>(),
    ) else {
        return Ok(());
    };
    let Some(workers) = Workers::of(workers) else {
        return Ok(());
    };
    let mut names = Vec::new(alloc);
    for name in captures {
        names.push(name.as_str())?;
    }
    let policy = fs::read(&rt, policy.as_str())?;
    let mut source = Captures::new(&rt);
    let frames = Way::FramesByThreads(kibibytes.saturating_mul(1024));
    for round in 0..rounds {
        for way in [Way::InTurn, Way::SideBySide(workers), frames] {
            match timed(&rt, alloc, &mut source, &policy, &names, way)? {
                Some((took, sightings)) => println!(rt;
                    "round {round}, {way}: {took} microseconds for {sightings} sightings"
                )?,
                None => println!(rt; "refused")?,
            }
        }
    }
    Ok(())
}
