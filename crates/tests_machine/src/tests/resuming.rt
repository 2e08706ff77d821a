//! Sessions that are cut at each move, after which a walk and a machine go on.

use super::sessions::{RETURNED, SENT};
use super::walks::{INTERFACES, Outcome, Session, built, needed};
use audit_cuts::Carried;
use audit_machine::Refusal;
use audit_model::{Addr, Rule};
use audit_samples::{Class, attribute, method};
use std::alloc::Global;
use std::test::*;
use tests_datagrams::{
    ALLOCATE, ALLOCATED, BOUND_4000, BY_USER, Built, CHALLENGED, Datagram, GIVES_RELAYED,
    OTHER_CLIENT, PEER, PERMIT, PERMIT_SUCCESS, PERMITTED, Part, Payload, SIGNED, Step,
};

/// A session in one capture or two, and what becomes of the moves of its walk.
struct Row {
    name: &'static str,
    has_two_captures: bool,
    steps: &'static [Step<'static>],
    outcome: Outcome,
}

/// The success response to an Allocate of the other client, with this relayed address.
macro_rules! allocated_for_other {
    ($relayed:expr) => {
        Payload::Message(
            Class::Success,
            method::ALLOCATE,
            &[
                $relayed,
                Part::Seconds(600),
                Part::Address(attribute::XOR_MAPPED_ADDRESS, OTHER_CLIENT),
                SIGNED,
            ],
        )
    };
}

const OTHER_RELAYED: Part<'static> = Part::Address(
    attribute::XOR_RELAYED_ADDRESS,
    Addr {
        ip: 0xC000_0201,
        port: 50001,
    },
);

/// A Refresh with LIFETIME 0, and its success response.
const DELETED: Step<'static> = Step::Exchange(
    Datagram::FromClient(
        1_045_000,
        Payload::Message(
            Class::Request,
            method::REFRESH,
            &[Part::Seconds(0), BY_USER, SIGNED],
        ),
    ),
    Datagram::ToClient(
        1_046_000,
        Payload::Message(Class::Success, method::REFRESH, &[Part::Seconds(0), SIGNED]),
    ),
);

static ROWS: [Row; 9] = [
    Row {
        name: "data is relayed both ways",
        has_two_captures: false,
        steps: &[CHALLENGED, ALLOCATED, PERMITTED, SENT, RETURNED],
        outcome: Ok(true),
    },
    Row {
        name: "the peers have their own capture",
        has_two_captures: true,
        steps: &[CHALLENGED, ALLOCATED, PERMITTED, SENT, RETURNED],
        outcome: Ok(true),
    },
    Row {
        name: "data is relayed through a channel",
        has_two_captures: false,
        steps: &[
            CHALLENGED,
            ALLOCATED,
            BOUND_4000,
            Step::Exchange(
                Datagram::FromClient(1_030_000, Payload::Channel(0x4000, b"hello", b"")),
                Datagram::ToPeer(1_031_000, PEER, b"hello"),
            ),
            Step::Exchange(
                Datagram::FromPeer(1_040_000, b"hi"),
                Datagram::ToClient(1_041_000, Payload::Channel(0x4000, b"hi", b"")),
            ),
        ],
        outcome: Ok(true),
    },
    Row {
        name: "two clients have allocations",
        has_two_captures: false,
        steps: &[
            CHALLENGED,
            ALLOCATED,
            Step::Exchange(
                Datagram::FromOtherClient(1_015_000, ALLOCATE),
                Datagram::ToOtherClient(1_016_000, allocated_for_other!(OTHER_RELAYED)),
            ),
            PERMITTED,
            Step::Exchange(
                Datagram::FromOtherClient(1_025_000, PERMIT),
                Datagram::ToOtherClient(1_026_000, PERMIT_SUCCESS),
            ),
            SENT,
            RETURNED,
        ],
        outcome: Ok(true),
    },
    Row {
        name: "a relayed address is granted to one client after the other",
        has_two_captures: false,
        steps: &[
            CHALLENGED,
            ALLOCATED,
            PERMITTED,
            SENT,
            RETURNED,
            DELETED,
            Step::Exchange(
                Datagram::FromOtherClient(1_050_000, ALLOCATE),
                Datagram::ToOtherClient(1_051_000, allocated_for_other!(GIVES_RELAYED)),
            ),
        ],
        outcome: Ok(true),
    },
    Row {
        name: "arrivals wait for more than a second",
        has_two_captures: true,
        steps: &[
            CHALLENGED,
            ALLOCATED,
            Step::Seen(Datagram::FromClient(1_020_000, PERMIT)),
            Step::Seen(Datagram::FromClient(1_025_000, Payload::Send(PEER, b"hello"))),
            Step::Seen(Datagram::FromPeer(1_032_000, b"hi")),
            Step::Seen(Datagram::FromOtherClient(1_034_000, Payload::Send(PEER, b"lost"))),
            Step::Seen(Datagram::ToClient(2_500_000, PERMIT_SUCCESS)),
            Step::Seen(Datagram::ToPeer(2_501_000, PEER, b"hello")),
            Step::Seen(Datagram::ToClient(2_502_000, Payload::Data(PEER, b"hi"))),
        ],
        outcome: Ok(true),
    },
    Row {
        name: "of two copies of a request the later one is acted on",
        has_two_captures: false,
        steps: &[
            CHALLENGED,
            ALLOCATED,
            Step::Seen(Datagram::FromClient(1_020_000, PERMIT)),
            Step::Seen(Datagram::FromClient(
                2_520_000,
                Payload::Again(
                    5,
                    method::CREATE_PERMISSION,
                    &[
                        Part::Address(attribute::XOR_PEER_ADDRESS, PEER),
                        BY_USER,
                        SIGNED,
                    ],
                ),
            )),
            Step::Seen(Datagram::ToClient(4_000_000, PERMIT_SUCCESS)),
        ],
        outcome: Ok(true),
    },
    Row {
        name: "other data is relayed",
        has_two_captures: false,
        steps: &[
            CHALLENGED,
            ALLOCATED,
            PERMITTED,
            Step::Exchange(
                Datagram::FromClient(1_030_000, Payload::Send(PEER, b"hello")),
                Datagram::ToPeer(1_031_000, PEER, b"hellp"),
            ),
            RETURNED,
        ],
        outcome: Err(Refusal::Broken(Rule::DataDiffers)),
    },
    Row {
        name: "data is relayed without a permission",
        has_two_captures: false,
        steps: &[CHALLENGED, ALLOCATED, SENT],
        outcome: Err(Refusal::Broken(Rule::NoPermission)),
    },
];

/// Whether a walk and a machine that go on from a cut have this outcome, by the same captures and
/// by captures that begin at the first sightings that are needed.
fn goes_on(
    alloc: Global,
    built: &Built,
    session: &Session,
    carried: Carried,
    outcome: Outcome,
) -> Result<bool, Fail> {
    let mut carried = carried;
    if session.resumed(&carried)? != outcome {
        return Ok(false);
    }
    let bases = needed(alloc, &carried)?;
    if carried.rebase(alloc, &bases).is_err() {
        return Ok(false);
    }
    let rest = Session::new(alloc, built, &bases)?;
    Ok(rest.resumed(&carried)? == outcome)
}

/// The first move of a walk before which a cut changes what becomes of the later moves, if there is
/// one.
fn first_wrong_cut(alloc: Global, built: &Built, outcome: Outcome) -> Result<Option<usize>, Fail> {
    let session = Session::new(alloc, built, &[])?;
    let moves = session.all_moves()?;
    for place in 0..moves.len() {
        let mut machine = session.machine()?;
        let front = moves.as_slice().get(..place).unwrap_or(&[]);
        if session.outcome(&mut machine, front)?.is_err() {
            return Ok(None);
        }
        let Ok(carried) = machine.carried(alloc, &[0; INTERFACES]) else {
            return Ok(Some(place));
        };
        if !goes_on(alloc, built, &session, carried, outcome)? {
            return Ok(Some(place));
        }
    }
    Ok(None)
}

/// What becomes of the moves of a walk from the start.
fn unbroken(alloc: Global, built: &Built) -> Result<Outcome, Fail> {
    let session = Session::new(alloc, built, &[])?;
    let moves = session.all_moves()?;
    let mut machine = session.machine()?;
    session.outcome(&mut machine, &moves)
}

#[test]
fn a_walk_goes_on_over_each_cut(rt: HostRuntime) -> Result<(), Fail> {
    let alloc = rt.alloc();
    for row in &ROWS {
        let built = built(alloc, row.has_two_captures, row.steps)?;
        let outcome = unbroken(alloc, &built)?;
        assert_eq!(rt; (row.name, outcome), (row.name, row.outcome));
        let wrong = first_wrong_cut(alloc, &built, outcome)?;
        assert_eq!(rt; (row.name, wrong), (row.name, None));
    }
    Ok(())
}
