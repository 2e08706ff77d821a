//! The state of a lane's table after memory was refused. An ordinary run of the tests has enough
//! memory: under `rt try --test --fail-alloc N` the Nth allocation is refused, and then this test
//! must fail by an error and by no assertion.

use super::rows::{Row, SESSION};
use audit_keys::{Keys, long_term_key, long_term_key_sha256};
use audit_model::{Addr, At, Key, Policy, Rule, SightId, Tenancy, read_policy};
use audit_rules::{ActFault, CredRow, LaneTable, act};
use audit_samples::{Class, attribute, method};
use audit_sightings::Intake;
use std::alloc::Global;
use std::test::Fail;
use tests_datagrams::{
    ALLOCATED, BY_USER, CLIENT, Datagram, LISTEN, OF_PEER, PASSWORD, PEER, PERMIT_SUCCESS, Part,
    Payload, SIGNED, Step, THE_REALM, USER,
};
use tests_host::POLICY;

const SECOND_PEER: Addr = Addr {
    ip: 0xCB00_710A,
    ..PEER
};

const THIRD_PEER: Addr = Addr {
    ip: 0xCB00_710B,
    ..PEER
};

/// A Send of `hello` to a peer, relayed.
macro_rules! sent_to {
    ($peer:expr) => {
        Step::Exchange(
            Datagram::FromClient(1_030_000, Payload::Send($peer, b"hello")),
            Datagram::ToPeer(1_030_100, $peer, b"hello"),
        )
    };
}

/// An allocation, a CreatePermission for three peers, and a Send to each of them.
static SENT_TO_EACH: Row = Row {
    steps: &[
        ALLOCATED,
        Step::Exchange(
            Datagram::FromClient(
                1_020_000,
                Payload::Message(
                    Class::Request,
                    method::CREATE_PERMISSION,
                    &[
                        OF_PEER,
                        Part::Address(attribute::XOR_PEER_ADDRESS, SECOND_PEER),
                        Part::Address(attribute::XOR_PEER_ADDRESS, THIRD_PEER),
                        BY_USER,
                        SIGNED,
                    ],
                ),
            ),
            Datagram::ToClient(1_021_000, PERMIT_SUCCESS),
        ),
        sent_to!(PEER),
        sent_to!(SECOND_PEER),
        sent_to!(THIRD_PEER),
    ],
    ..SESSION
};

/// Judges the act that answers the datagram with this number by the next one.
fn answered(
    alloc: Global,
    intake: &Intake,
    policy: &Policy,
    table: &mut LaneTable,
    index: u32,
) -> Result<Option<Tenancy>, ActFault> {
    let arrival = intake.sighting(SightId { iface: 0, index });
    let departure = intake.sighting(SightId {
        iface: 0,
        index: index.saturating_add(1),
    });
    let (Some(arrival), Some(departure)) = (arrival, departure) else {
        return Err(ActFault::Broken(Rule::NotAnAnswer));
    };
    let users = [CredRow {
        user: USER,
        realm: THE_REALM,
        key: Keys {
            md5: long_term_key(USER, THE_REALM, PASSWORD),
            sha256: long_term_key_sha256(USER, THE_REALM, PASSWORD),
        },
    }];
    let at = At {
        key: Key {
            moment: departure.stamp,
            tie: 0,
        },
        lane: 0,
        place: index,
    };
    act(alloc, table, &users, policy, arrival, departure, at)
}

#[test]
fn three_peers_are_permitted_or_none(rt: HostRuntime) -> Result<(), Fail> {
    let alloc = rt.alloc();
    let session = SENT_TO_EACH.build(alloc)?;
    let policy = read_policy(alloc, POLICY.as_bytes())?;
    let mut intake = Intake::new(alloc, read_policy(alloc, POLICY.as_bytes())?);
    let file = intake.add_file()?;
    intake.feed(file, session.first())?;
    let mut table = LaneTable::new(0, CLIENT, LISTEN);
    answered(alloc, &intake, &policy, &mut table, 0)?;
    let refusal = answered(alloc, &intake, &policy, &mut table, 2).err();
    let expected = match refusal {
        None => None,
        Some(_) => Some(ActFault::Broken(Rule::NoPermission)),
    };
    for index in [4, 6, 8] {
        let relayed = answered(alloc, &intake, &policy, &mut table, index);
        assert_eq!(rt; relayed.err(), expected, "datagram {index}");
    }
    match refusal {
        None => Ok(()),
        Some(fault) => Err(Fail::new(format_args!("no peer is permitted: {fault:?}"))),
    }
}
