//! How long the machine takes to judge a certificate's moves, and whether it says what `check`
//! says: `rt run -- POLICY CREDS CERTIFICATE CAPTURE..`. How much memory it takes to judge them
//! again and again: `rt run -- --rounds ROUNDS POLICY CREDS CERTIFICATE CAPTURE..`. Without these
//! arguments it prints nothing.
#![tactic(auto)]

mod again;

use again::judge_again;
use audit_cert::read;
use audit_glue::check;
use audit_keys::Credentials;
use audit_machine::{Action, explains};
use audit_model::{At, Certificate, Event, Pair, Policy, Verdict, read_policy};
use audit_sightings::Intake;
use std::alloc::{AllocError, Global};
use std::rt::Files;
use std::time::{Clock, Duration, Instant};
use std::{env, fs, io};

/// What both say, how many moves there are, and how long the machine takes, in nanoseconds.
#[derive(Clone, Copy)]
struct Timed {
    conforms: bool,
    explains: bool,
    moves: usize,
    took: u64,
}

fn nanoseconds(took: Duration) -> u64 {
    let seconds = took.as_secs().saturating_mul(1_000_000_000);
    seconds.saturating_add(u64::from(took.subsec_nanos()))
}

/// A move, and its place in the order of all moves.
#[derive(Clone, Copy)]
struct Placed {
    at: At,
    action: Action,
}

fn action_of(pair: Pair, event: &Event) -> Action {
    match *event {
        Event::In { sight, key } => Action::Arrive {
            sight,
            moment: key.moment,
        },
        Event::Act { sight, gives, key } => Action::Act {
            pair,
            arrival: sight,
            departure: gives,
            moment: key.moment,
        },
        Event::Out { sight, key } => Action::Leave {
            sight,
            moment: key.moment,
        },
    }
}

/// The moves of a certificate, each with its place.
fn placed_of(alloc: Global, certificate: &Certificate) -> Result<Vec<Placed>, AllocError> {
    let mut placed = Vec::new(alloc);
    let mut number = 0u32;
    for lane in certificate.lanes.as_slice() {
        let pair = Pair {
            client: lane.client,
            listen: lane.listen,
        };
        let mut place = 0u32;
        for event in lane.events.as_slice() {
            let at = At {
                key: event.key(),
                lane: number,
                place,
            };
            let action = action_of(pair, event);
            placed.push(Placed { at, action })?;
            place = place.saturating_add(1);
        }
        number = number.saturating_add(1);
    }
    let mut place = 0u32;
    for drop in certificate.drops.as_slice() {
        let at = At {
            key: drop.key,
            lane: number,
            place,
        };
        let action = Action::Arrive {
            sight: drop.sight,
            moment: drop.key.moment,
        };
        placed.push(Placed { at, action })?;
        place = place.saturating_add(1);
    }
    Ok(placed)
}

/// The moves that a certificate stands for, by moment, tie and lane.
fn actions_of(alloc: Global, certificate: &Certificate) -> Result<Vec<Action>, AllocError> {
    let mut placed = placed_of(alloc, certificate)?;
    placed.sort_unstable_by_key(|placed| placed.at);
    let mut actions = Vec::new(alloc);
    for placed in placed {
        actions.push(placed.action)?;
    }
    Ok(actions)
}

/// The captures of these names, taken in; none where one of them is refused.
fn taken_in<R: AllocGlobal + Files>(
    rt: &R,
    alloc: Global,
    policy: Policy,
    captures: &[String],
) -> io::Result<Option<Intake>> {
    let mut intake = Intake::new(alloc, policy);
    for name in captures {
        let Ok(file) = intake.add_file() else {
            return Ok(None);
        };
        let capture = fs::read(rt, name.as_str())?;
        if intake.feed(file, &capture).is_err() {
            return Ok(None);
        }
    }
    Ok(Some(intake))
}

/// What `check` and the machine say of a certificate.
fn measured<R: Clock>(
    rt: &R,
    alloc: Global,
    intake: &Intake,
    credentials: &Credentials,
    certificate: &Certificate,
) -> io::Result<Timed> {
    let verdict = check(alloc, intake, credentials, certificate)?;
    let actions = actions_of(alloc, certificate)?;
    let start = Instant::now(rt)?;
    let explains = explains(alloc, intake, credentials, &actions);
    Ok(Timed {
        conforms: matches!(verdict, Verdict::Conforming { .. }),
        explains: explains == Ok(true),
        moves: actions.len(),
        took: nanoseconds(start.elapsed(rt)?),
    })
}

/// The three texts of these names, read; none where one of them is refused.
fn read_texts<R: AllocGlobal + Files>(
    rt: &R,
    alloc: Global,
    names: [&str; 3],
) -> io::Result<Option<(Policy, Credentials, Certificate)>> {
    let [policy, credentials, certificate] = names;
    let Ok(policy) = read_policy(alloc, &fs::read(rt, policy)?) else {
        return Ok(None);
    };
    let Ok(credentials) = Credentials::read(alloc, &fs::read(rt, credentials)?) else {
        return Ok(None);
    };
    match read(alloc, &fs::read(rt, certificate)?) {
        Ok(certificate) => Ok(Some((policy, credentials, certificate))),
        Err(_) => Ok(None),
    }
}

/// The number of rounds, if the arguments have it, and the files.
fn parse(arguments: &[String]) -> (Option<u64>, &[String]) {
    match arguments {
        [_, option, rounds, files @ ..] if option.as_str() == "--rounds" => {
            (Some(rounds.as_str().parse().unwrap_or(1)), files)
        }
        [_, files @ ..] => (None, files),
        [] => (None, &[]),
    }
}

/// The files of a run, read.
#[derive(Drop)]
struct Inputs {
    intake: Intake,
    policy: Policy,
    credentials: Credentials,
    certificate: Certificate,
}

/// Reads the files of these names; none if one of them is refused.
fn read_inputs<R: AllocGlobal + Files>(
    rt: &R,
    alloc: Global,
    files: &[String],
) -> io::Result<Option<Inputs>> {
    let [policy, credentials, certificate, captures @ ..] = files else {
        return Ok(None);
    };
    let names = [policy.as_str(), credentials.as_str(), certificate.as_str()];
    let Some((policy, ..)) = read_texts(rt, alloc, names)? else {
        return Ok(None);
    };
    let Some((other, credentials, certificate)) = read_texts(rt, alloc, names)? else {
        return Ok(None);
    };
    let Some(intake) = taken_in(rt, alloc, policy, captures)? else {
        return Ok(None);
    };
    Ok(Some(Inputs {
        intake,
        policy: other,
        credentials,
        certificate,
    }))
}

fn main(rt: HostRuntime) -> io::Result<()> {
    let alloc = rt.alloc();
    let mut arguments = Vec::new(alloc);
    for argument in env::args(&rt)? {
        arguments.push(argument)?;
    }
    let (rounds, files) = parse(&arguments);
    let Some(inputs) = read_inputs(&rt, alloc, files)? else {
        return Ok(());
    };
    let Inputs {
        intake,
        policy,
        credentials,
        certificate,
    } = inputs;
    let Some(rounds) = rounds else {
        let Timed {
            conforms,
            explains,
            moves,
            took,
        } = measured(&rt, alloc, &intake, &credentials, &certificate)?;
        let each = took / (moves as u64).max(1);
        return println!(rt;
            "check: {conforms}, machine: {explains}; {moves} moves in {took} ns, {each} ns a move"
        );
    };
    let actions = actions_of(alloc, &certificate)?;
    let (moves, end) = judge_again(alloc, &intake, &credentials, policy, &actions, rounds)?;
    match end {
        Ok(()) => println!(rt; "{moves} moves in {rounds} rounds, each accepted"),
        Err(refusal) => println!(rt; "{moves} moves, then refused: {refusal:?}"),
    }
}
