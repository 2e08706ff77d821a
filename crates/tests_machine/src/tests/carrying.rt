//! Machines that go on from what was carried over a cut.

use super::judging::{POLICY, actions_of_text, built, intake_of, users};
use super::sessions::{RETURNED, SENT};
use audit_cuts::{Came, Carried, Client, Interface, RebaseError};
use audit_expiry::Lease;
use audit_keys::Credentials;
use audit_machine::{Action, CarryError, Machine};
use audit_model::{Addr, Listed, Pair, Policy, SightId, read_policy};
use audit_sightings::Intake;
use std::alloc::{AllocError, Global};
use std::test::*;
use tests_datagrams::{ALLOCATED, CHALLENGED, CLIENT, LISTEN, OTHER_CLIENT, PERMITTED, RELAYED};

fn policy(alloc: Global) -> Result<Policy, Fail> {
    Ok(read_policy(alloc, POLICY)?)
}

/// Whether the moves are accepted if a machine makes the first ones, and one that goes on from what
/// was carried makes the others.
fn is_accepted_in_two(
    alloc: Global,
    intake: &Intake,
    users: &Credentials,
    front: &[Action],
    rest: &[Action],
) -> Result<bool, Fail> {
    let mut machine = Machine::new(alloc, policy(alloc)?);
    if machine.apply_all(alloc, intake, users, front).is_err() {
        return Ok(false);
    }
    let Ok(carried) = machine.carried(alloc, &[0]) else {
        return Ok(false);
    };
    let Ok(mut resumed) = Machine::resume(alloc, policy(alloc)?, &carried) else {
        return Ok(false);
    };
    Ok(resumed.apply_all(alloc, intake, users, rest).is_ok())
}

#[test]
fn a_session_is_judged_over_each_cut(rt: HostRuntime) -> Result<(), Fail> {
    let alloc = rt.alloc();
    let built = built(alloc, &[CHALLENGED, ALLOCATED, PERMITTED, SENT, RETURNED])?;
    let intake = intake_of(alloc, built.first())?;
    let users = users(alloc)?;
    let actions = actions_of_text(alloc, built.certificate.as_str())?;
    let actions = actions.as_slice();
    for place in 0..actions.len() {
        let (front, rest) = actions.split_at(place);
        let accepted = is_accepted_in_two(alloc, &intake, &users, front, rest)?;
        assert_eq!(rt; (place, accepted), (place, true));
    }
    Ok(())
}

/// A client whose allocation expires after an hour, without permissions and channels.
fn client_at(alloc: Global, client: Addr) -> Result<Client, AllocError> {
    Ok(Client {
        pair: Pair {
            client,
            listen: LISTEN,
        },
        relayed: RELAYED,
        user: Listed::from(Vec::from_slice(alloc, b"user")?),
        id: [0; 12],
        lease: Lease {
            until: 3_600_000_000_000,
        },
        permissions: Vec::new(alloc),
        channels: Vec::new(alloc),
    })
}

/// A cut with one arrival that waits, of the first interface, of which seven sightings are placed.
fn cut_at(alloc: Global, moment: u64) -> Result<Carried, AllocError> {
    let sight = SightId { iface: 0, index: 6 };
    Ok(Carried {
        moment,
        clients: Vec::new(alloc),
        waiting: Vec::from_slice(alloc, &[Came { sight, moment }])?,
        owed: Vec::new(alloc),
        interfaces: Vec::from_slice(
            alloc,
            &[Interface {
                base: 10,
                placed: 7,
            }],
        )?,
    })
}

#[test]
fn two_clients_with_one_relayed_address_are_refused(rt: HostRuntime) -> Result<(), Fail> {
    let alloc = rt.alloc();
    let mut carried = cut_at(alloc, 1_000_000_000)?;
    carried.clients.push(client_at(alloc, CLIENT)?)?;
    assert!(rt; Machine::resume(alloc, policy(alloc)?, &carried).is_ok());
    carried.clients.push(client_at(alloc, OTHER_CLIENT)?)?;
    let refused = Machine::resume(alloc, policy(alloc)?, &carried).err();
    assert_eq!(rt; refused, Some(CarryError::Held));
    // an hour and the grace later the address is free
    carried.moment = 3_603_000_000_000;
    assert!(rt; Machine::resume(alloc, policy(alloc)?, &carried).is_ok());
    Ok(())
}

#[test]
fn ids_count_from_other_bases(rt: HostRuntime) -> Result<(), Fail> {
    let alloc = rt.alloc();
    let mut carried = cut_at(alloc, 1_000_000_000)?;
    assert_eq!(rt; carried.rebase(alloc, &[]), Err(RebaseError::Interfaces));
    assert_eq!(rt; carried.rebase(alloc, &[18]), Err(RebaseError::Placed(0)));
    let sight = SightId { iface: 0, index: 6 };
    assert_eq!(rt;
        carried.rebase(alloc, &[17]),
        Err(RebaseError::Sight(sight))
    );
    assert_eq!(rt; carried.rebase(alloc, &[12]), Ok(()));
    let expected = Interface {
        base: 12,
        placed: 5,
    };
    assert_eq!(rt; carried.interfaces.as_slice(), [expected].as_slice());
    let waits = carried.waiting.first().map(|came| came.sight.index);
    assert_eq!(rt; waits, Some(4));
    Ok(())
}
