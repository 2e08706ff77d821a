//! Sessions of one client, or of two, that conform or violate a rule.

use super::judging::{actions_of_text, built, conforms, intake_of, users};
use audit_machine::{Refusal, explains};
use audit_model::Rule;
use audit_samples::{Class, attribute, method};
use std::alloc::Global;
use std::test::*;
use tests_datagrams::{
    ALLOCATE, ALLOCATED, CHALLENGED, Datagram, GIVES_RELAYED, OTHER_CLIENT, PEER, PERMITTED, Part,
    Payload, SIGNED, Step,
};

/// Data from the client to the peer, and back.
pub(super) const SENT: Step<'static> = Step::Exchange(
    Datagram::FromClient(1_030_000, Payload::Send(PEER, b"hello")),
    Datagram::ToPeer(1_031_000, PEER, b"hello"),
);

pub(super) const RETURNED: Step<'static> = Step::Exchange(
    Datagram::FromPeer(1_040_000, b"hi"),
    Datagram::ToClient(1_041_000, Payload::Data(PEER, b"hi")),
);

const SEEN_AS_OTHER_CLIENT: Part<'static> = Part::Address(
    attribute::XOR_MAPPED_ADDRESS,
    OTHER_CLIENT,
);

/// Data to the peer, placed by lines.
macro_rules! relayed {
    ($lines:literal) => {
        &[
            CHALLENGED,
            ALLOCATED,
            PERMITTED,
            Step::Seen(Datagram::FromClient(1_030_000, Payload::Send(PEER, b"hello"))),
            Step::Seen(Datagram::ToPeer(1_031_000, PEER, b"hello")),
            Step::Lines($lines),
        ]
    };
}

/// A session, and what the machine says of it.
struct Row {
    name: &'static str,
    steps: &'static [Step<'static>],
    explains: Result<bool, Refusal>,
}

static ROWS: [Row; 7] = [
    Row {
        name: "nothing is captured",
        steps: &[],
        explains: Ok(true),
    },
    Row {
        name: "data is relayed both ways",
        steps: &[CHALLENGED, ALLOCATED, PERMITTED, SENT, RETURNED],
        explains: Ok(true),
    },
    Row {
        name: "other data is relayed",
        steps: &[
            CHALLENGED,
            ALLOCATED,
            PERMITTED,
            Step::Exchange(
                Datagram::FromClient(1_030_000, Payload::Send(PEER, b"hello")),
                Datagram::ToPeer(1_031_000, PEER, b"hellp"),
            ),
        ],
        explains: Err(Refusal::Broken(Rule::DataDiffers)),
    },
    Row {
        name: "a departure is not placed",
        steps: relayed!("in 0.6 1030000000 0\n"),
        explains: Ok(false),
    },
    Row {
        name: "a departure is owed at the end",
        steps: relayed!("in 0.6 1030000000 0\nact 0.6 0.7 1030500000 0\n"),
        explains: Ok(false),
    },
    Row {
        name: "no act sent the departure",
        steps: relayed!("in 0.6 1030000000 0\nout 0.7 1031000000 0\n"),
        explains: Err(Refusal::NotOwed),
    },
    Row {
        name: "two clients have one relayed address",
        steps: &[
            CHALLENGED,
            ALLOCATED,
            Step::Lines("lane 198.51.100.8:40001 192.0.2.1:3478\n"),
            Step::Exchange(
                Datagram::FromOtherClient(1_050_000, ALLOCATE),
                Datagram::ToOtherClient(
                    1_051_000,
                    Payload::Message(
                        Class::Success,
                        method::ALLOCATE,
                        &[
                            GIVES_RELAYED,
                            Part::Seconds(600),
                            SEEN_AS_OTHER_CLIENT,
                            SIGNED,
                        ],
                    ),
                ),
            ),
        ],
        explains: Err(Refusal::Held),
    },
];

/// Whether the machine says of a session what the row says, and `check` says the same.
fn agrees(alloc: Global, row: &Row) -> Result<bool, Fail> {
    let built = built(alloc, row.steps)?;
    let intake = intake_of(alloc, built.first())?;
    let users = users(alloc)?;
    let text = built.certificate.as_str();
    let conforms = conforms(alloc, &intake, &users, text)?;
    let actions = actions_of_text(alloc, text)?;
    let explains = explains(alloc, &intake, &users, &actions);
    Ok(explains == row.explains && conforms == (explains == Ok(true)))
}

/// The machine explains a session exactly if `check` says that it conforms.
#[test]
fn the_machine_agrees_with_check(rt: HostRuntime) -> Result<(), Fail> {
    for row in &ROWS {
        assert_eq!(rt; (row.name, agrees(rt.alloc(), row)?), (row.name, true));
    }
    Ok(())
}
