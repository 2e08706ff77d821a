//! Sessions of two lanes.

use super::rows::{Row, SESSION, broken, conforming, play};
use audit_model::Addr;
use audit_samples::{Class, attribute, method};
use std::test::Fail;
use tests_datagrams::{
    ALLOCATE, ALLOCATED, Datagram, OTHER_CLIENT, PEER, PERMITTED, Part, Payload, RELAYED, SIGNED,
    Step,
};
use tests_host::Output;

/// A client with an allocation, and another client that is granted a relayed address ten
/// milliseconds later.
macro_rules! two_allocations {
    ($relayed:expr) => {
        &[
            ALLOCATED,
            Step::Lines("lane 198.51.100.8:40001 192.0.2.1:3478\n"),
            Step::Exchange(
                Datagram::FromOtherClient(1_020_000, ALLOCATE),
                Datagram::ToOtherClient(
                    1_022_000,
                    Payload::Message(
                        Class::Success,
                        method::ALLOCATE,
                        &[
                            Part::Address(attribute::XOR_RELAYED_ADDRESS, $relayed),
                            Part::Seconds(600),
                            Part::Address(attribute::XOR_MAPPED_ADDRESS, OTHER_CLIENT),
                            SIGNED,
                        ],
                    ),
                ),
            ),
        ]
    };
}

const OTHER_RELAYED: Addr = Addr {
    port: 50001,
    ..RELAYED
};

static LANES: [Row; 3] = [
    Row {
        name: "an_act_whose_departure_leaves_in_another_lane_is_s13",
        steps: &[
            ALLOCATED,
            PERMITTED,
            Step::Seen(Datagram::FromClient(1_030_000, Payload::Send(PEER, b"hello"))),
            Step::Seen(Datagram::ToPeer(1_030_100, PEER, b"hello")),
            Step::Lines(
                "in 0.4 1030000000 0\nact 0.4 0.5 1030050000 0\nlane 198.51.100.8:40001 192.0.2.1:3478\nout 0.5 1030100000 0\n",
            ),
        ],
        digests: Some("8ff7f402bea85406ede308cd648b6e5ac3a337d6"),
        output: broken!(
            "S13 act without departure",
            "phase 2 lane 0 event 7 moment 1030050000 tie 0",
            "0.4 198.51.100.7:40000 to 192.0.2.1:3478 44 bytes"
        ),
        ..SESSION
    },
    Row {
        name: "an_address_that_another_client_holds_is_r22",
        steps: two_allocations!(RELAYED),
        output: broken!(
            "R22 address held",
            "phase 3 lane 1 event 1 moment 1021000000 tie 0",
            "0.2 198.51.100.8:40001 to 192.0.2.1:3478 80 bytes"
        ),
        ..SESSION
    },
    Row {
        name: "two_clients_with_addresses_of_their_own_conform",
        steps: two_allocations!(OTHER_RELAYED),
        output: conforming!(4, 2),
        ..SESSION
    },
];

#[test]
fn two_lanes_are_judged(rt: HostRuntime) -> Result<(), Fail> {
    play(&rt, &LANES)
}
