//! CreatePermission, Send and Data.

use super::rows::{Row, SESSION, broken, conforming, play};
use audit_model::Addr;
use std::test::Fail;
use tests_datagrams::{ALLOCATED, Datagram, PEER, PERMITTED, Payload, Step};
use tests_host::Output;

/// A Send with data to a permitted peer, and other data relayed to it.
macro_rules! relayed {
    ($sent:literal, $relayed:literal) => {
        &[
            ALLOCATED,
            PERMITTED,
            Step::Exchange(
                Datagram::FromClient(1_030_000, Payload::Send(PEER, $sent)),
                Datagram::ToPeer(1_030_100, PEER, $relayed),
            ),
        ]
    };
}

/// A Send of `hello` to another address than the permitted peer's, relayed to it.
macro_rules! relayed_to {
    ($address:expr) => {
        &[
            ALLOCATED,
            PERMITTED,
            Step::Exchange(
                Datagram::FromClient(1_030_000, Payload::Send($address, b"hello")),
                Datagram::ToPeer(1_030_100, $address, b"hello"),
            ),
        ]
    };
}

const OTHER_PORT: Addr = Addr { port: 7001, ..PEER };

const OTHER_PEER: Addr = Addr {
    ip: 0xCB00_710A,
    ..PEER
};

/// A Send with an act at this moment, 301 seconds after the permission.
macro_rules! relayed_at {
    ($moment:literal) => {
        Row {
            steps: &[
                ALLOCATED,
                PERMITTED,
                Step::ExchangeAt(
                    Datagram::FromClient(302_020_000, Payload::Send(PEER, b"hello")),
                    Datagram::ToPeer(302_021_000, PEER, b"hello"),
                    $moment,
                    0,
                ),
            ],
            digests: Some("2e90b825481d9085e41df6518ae2187699f4c132"),
            ..SESSION
        }
    };
}

/// The peer's data, sent to the client by one Data indication.
const GIVEN: Step<'static> = Step::ExchangeAt(
    Datagram::FromPeer(1_030_000, b"hello"),
    Datagram::ToClient(1_030_500, Payload::Data(PEER, b"hello")),
    1_030_200_000,
    0,
);

static PERMISSIONS: [Row; 9] = [
    Row {
        name: "what_is_sent_to_a_permitted_peer_conforms",
        steps: relayed!(b"hello", b"hello"),
        digests: Some("8ff7f402bea85406ede308cd648b6e5ac3a337d6"),
        output: conforming!(6),
        ..SESSION
    },
    Row {
        name: "other_data_than_was_sent_is_r13",
        steps: relayed!(b"hello", b"hellp"),
        digests: Some("9f89b6aeea0b13a8a7cf6a553da9ad2f97dc2f05"),
        output: broken!(
            "R13 data differs",
            "phase 2 lane 0 event 7 moment 1030050000 tie 0",
            "0.4 198.51.100.7:40000 to 192.0.2.1:3478 44 bytes"
        ),
        ..SESSION
    },
    Row {
        name: "data_of_no_bytes_is_relayed",
        steps: relayed!(b"", b""),
        digests: Some("3423324342fd41528ef76bf19494e56b56f80916"),
        output: conforming!(6),
        ..SESSION
    },
    Row {
        name: "a_permission_is_for_every_port_of_the_peer",
        steps: relayed_to!(OTHER_PORT),
        digests: Some("1097961a68b23ee7e2b9260d3606088ae8186a05"),
        output: conforming!(6),
        ..SESSION
    },
    Row {
        name: "what_is_sent_to_a_peer_without_permission_is_r6",
        steps: relayed_to!(OTHER_PEER),
        digests: Some("9f238cce84134cabf2bb30ac621c8339c2e96585"),
        output: broken!(
            "R6 no permission",
            "phase 2 lane 0 event 7 moment 1030050000 tie 0",
            "0.4 198.51.100.7:40000 to 192.0.2.1:3478 44 bytes"
        ),
        ..SESSION
    },
    Row {
        name: "relay_within_the_grace_of_the_permission_conforms",
        output: conforming!(6),
        ..relayed_at!(302_020_500_000)
    },
    Row {
        name: "relay_after_the_permission_ended_is_r7",
        output: broken!(
            "R7 permission over",
            "phase 2 lane 0 event 7 moment 302020500001 tie 0",
            "0.4 198.51.100.7:40000 to 192.0.2.1:3478 44 bytes"
        ),
        ..relayed_at!(302_020_500_001)
    },
    Row {
        name: "what_a_permitted_peer_sends_is_given_to_the_client",
        steps: &[ALLOCATED, PERMITTED, GIVEN],
        digests: Some("ae8145316f1b796de5c3e55291418b5771eb9ffe"),
        output: conforming!(6),
        ..SESSION
    },
    Row {
        name: "a_datagram_given_to_the_client_twice_is_s10",
        steps: &[
            ALLOCATED,
            PERMITTED,
            GIVEN,
            Step::Seen(Datagram::ToClient(1_031_000, Payload::Data(PEER, b"hello"))),
            Step::Lines("act 0.4 0.6 1030600000 0\nout 0.6 1031000000 0\n"),
        ],
        digests: Some("6b83d5e2dc8f1088aa9ca69c33fa8720cb4671bb"),
        output: broken!(
            "S10 acted twice",
            "phase 2 lane 0 event 9 moment 1030600000 tie 0",
            "0.4 203.0.113.9:7000 to 192.0.2.1:50000 5 bytes"
        ),
        ..SESSION
    },
];

#[test]
fn permissions_are_judged(rt: HostRuntime) -> Result<(), Fail> {
    play(&rt, &PERMISSIONS)
}
