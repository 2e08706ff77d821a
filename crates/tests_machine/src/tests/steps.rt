//! The machine's calls one by one.

use super::judging::{POLICY, actions_of_text, built, intake_of, users};
use super::sessions::{RETURNED, SENT};
use audit_keys::Credentials;
use audit_machine::{Action, Machine, Refusal};
use audit_model::{Pair, SightId, read_policy};
use audit_sightings::Intake;
use std::alloc::Global;
use std::test::*;
use tests_datagrams::{ALLOCATED, CHALLENGED, CLIENT, LISTEN, PERMITTED};

/// A sighting of the first interface.
fn sight(index: u32) -> SightId {
    SightId { iface: 0, index }
}

/// Skips the first two sightings, makes moves, and forgets what no later move depends on, which is
/// nothing. Whether all of it succeeds, and a departure is refused then that no act sent.
fn is_judged(
    alloc: Global,
    intake: &Intake,
    users: &Credentials,
    actions: &[Action],
) -> Result<bool, Fail> {
    let mut machine = Machine::new(alloc, read_policy(alloc, POLICY)?);
    if machine.skip(sight(0)).is_err() || machine.skip(sight(1)).is_err() {
        return Ok(false);
    }
    if machine.apply_all(alloc, intake, users, actions).is_err() {
        return Ok(false);
    }
    machine.forget_arrival(sight(2));
    machine.forget_client(Pair {
        client: CLIENT,
        listen: LISTEN,
    });
    let leave = Action::Leave {
        sight: sight(9),
        moment: 1_041_000_000,
    };
    match machine.apply_all(alloc, intake, users, &[leave]) {
        Ok(()) => Ok(false),
        Err(stop) => Ok(stop.place == 0 && stop.refusal == Refusal::NotOwed),
    }
}

#[test]
fn a_session_is_judged_without_its_first_exchange(rt: HostRuntime) -> Result<(), Fail> {
    let alloc = rt.alloc();
    let built = built(alloc, &[CHALLENGED, ALLOCATED, PERMITTED, SENT, RETURNED])?;
    let intake = intake_of(alloc, built.first())?;
    let actions = actions_of_text(alloc, built.certificate.as_str())?;
    let [_, _, _, others @ ..] = actions.as_slice() else {
        return Err(Fail::new("too few moves"));
    };
    assert_eq!(rt; is_judged(alloc, &intake, &users(alloc)?, others)?, true);
    Ok(())
}
