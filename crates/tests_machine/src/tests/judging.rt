//! A session with a certificate, as the machine's moves and as `check` judges it.

use audit_cert::read;
use audit_glue::check;
use audit_keys::Credentials;
use audit_machine::Action;
use audit_model::{At, Certificate, Event, Pair, Verdict, read_policy};
use audit_samples::BuildFault;
use audit_sightings::Intake;
use std::alloc::{AllocError, Global};
use std::test::Fail;
use tests_datagrams::{Built, Step};

pub(super) const POLICY: &[u8] =
    b"turnaudit-policy 1\nlisten 192.0.2.1:3478\nrelay 192.0.2.1:49152-65535\n";

const CREDENTIALS: &[u8] = b"user\trealm\tpass\n";

/// The captures of a session, and its certificate.
pub(super) fn built(alloc: Global, steps: &[Step<'_>]) -> Result<Built, BuildFault> {
    let mut built = Built::new(alloc, false, "turnaudit-certificate 1\n")?;
    for step in steps {
        built.take(step)?;
    }
    built.certificate.push_str("end\n")?;
    Ok(built)
}

/// An intake of a capture.
pub(super) fn intake_of(alloc: Global, capture: &[u8]) -> Result<Intake, Fail> {
    let mut intake = Intake::new(alloc, read_policy(alloc, POLICY)?);
    let file = intake.add_file()?;
    intake.feed(file, capture)?;
    Ok(intake)
}

pub(super) fn users(alloc: Global) -> Result<Credentials, Fail> {
    Ok(Credentials::read(alloc, CREDENTIALS)?)
}

/// A move, and its place in the order of all moves.
#[derive(Clone, Copy)]
struct Placed {
    at: At,
    action: Action,
}

pub(super) fn action_of(pair: Pair, event: &Event) -> Action {
    match *event {
        Event::In { sight, key } => Action::Arrive {
            sight,
            moment: key.moment,
        },
        Event::Act { sight, gives, key } => Action::Act {
            pair,
            arrival: sight,
            departure: gives,
            moment: key.moment,
        },
        Event::Out { sight, key } => Action::Leave {
            sight,
            moment: key.moment,
        },
    }
}

/// The moves of a certificate's lanes, each with its place.
fn placed_of(alloc: Global, certificate: &Certificate) -> Result<Vec<Placed>, AllocError> {
    let mut placed = Vec::new(alloc);
    let mut number = 0u32;
    for lane in certificate.lanes.as_slice() {
        let pair = Pair {
            client: lane.client,
            listen: lane.listen,
        };
        let mut place = 0u32;
        for event in lane.events.as_slice() {
            let at = At {
                key: event.key(),
                lane: number,
                place,
            };
            let action = action_of(pair, event);
            placed.push(Placed { at, action })?;
            place = place.saturating_add(1);
        }
        number = number.saturating_add(1);
    }
    Ok(placed)
}

/// The moves that a certificate without drops stands for, by moment, tie and lane.
fn actions_of(alloc: Global, certificate: &Certificate) -> Result<Vec<Action>, AllocError> {
    let mut placed = placed_of(alloc, certificate)?;
    placed.sort_unstable_by_key(|placed| placed.at);
    let mut actions = Vec::new(alloc);
    for placed in placed {
        actions.push(placed.action)?;
    }
    Ok(actions)
}

/// The moves of a certificate's text.
pub(super) fn actions_of_text(alloc: Global, text: &str) -> Result<Vec<Action>, Fail> {
    let certificate = read(alloc, text.as_bytes())?;
    Ok(actions_of(alloc, &certificate)?)
}

/// Whether `check` says that a session conforms.
pub(super) fn conforms(
    alloc: Global,
    intake: &Intake,
    users: &Credentials,
    text: &str,
) -> Result<bool, Fail> {
    let certificate = read(alloc, text.as_bytes())?;
    let verdict = check(alloc, intake, users, &certificate)?;
    Ok(matches!(verdict, Verdict::Conforming { .. }))
}
