//! Allocate and Refresh, and their users.

use super::rows::{Row, SESSION, broken, conforming, play, refused};
use audit_model::Addr;
use audit_samples::{Class, attribute, method};
use std::test::Fail;
use tests_datagrams::{
    ALLOCATE, ALLOCATED, ALLOCATED_FOR_NO_TIME, BY_USER, Datagram, GIVES_RELAYED, Part, Payload,
    RELAYED, SEEN_AS_CLIENT, SIGNED, Step, UDP,
};
use tests_host::Output;

/// The Allocate and its success response.
const JUST_ALLOCATED: Row = Row {
    steps: &[ALLOCATED],
    digests: Some("af35fbc5e27f9112f594e94b42eeae2dc0f4cbdf"),
    ..SESSION
};

/// An Allocate with EVEN-PORT, and a response that grants a port.
macro_rules! even_port_asked {
    ($port:literal) => {
        &[Step::Exchange(
            Datagram::FromClient(
                1_010_000,
                Payload::Message(
                    Class::Request,
                    method::ALLOCATE,
                    &[
                        UDP,
                        Part::Value(attribute::EVEN_PORT, &[0]),
                        BY_USER,
                        SIGNED,
                    ],
                ),
            ),
            Datagram::ToClient(1_012_000, allocated_at!($port)),
        )]
    };
}

/// An Allocate success response with a port.
macro_rules! allocated_at {
    ($port:literal) => {
        Payload::Message(
            Class::Success,
            method::ALLOCATE,
            &[
                Part::Address(
                    attribute::XOR_RELAYED_ADDRESS,
                    Addr {
                        port: $port,
                        ..RELAYED
                    },
                ),
                Part::Seconds(600),
                SEEN_AS_CLIENT,
                SIGNED,
            ],
        )
    };
}

/// The Allocate again, with a success response that now grants this port.
macro_rules! repeated {
    ($port:literal) => {
        &[
            ALLOCATED,
            Step::Exchange(
                Datagram::FromClient(
                    1_020_000,
                    Payload::Again(1, method::ALLOCATE, &[UDP, BY_USER, SIGNED]),
                ),
                Datagram::ToClient(1_021_000, allocated_at!($port)),
            ),
        ]
    };
}

static ALLOCATIONS: [Row; 8] = [
    Row {
        name: "an_allocation_conforms",
        output: conforming!(2),
        ..JUST_ALLOCATED
    },
    Row {
        name: "an_allocate_under_another_password_is_r2",
        credentials: "user\trealm\tpasz\n",
        output: broken!(
            "R2 credentials",
            "phase 2 lane 0 event 1 moment 1011000000 tie 0",
            "0.0 198.51.100.7:40000 to 192.0.2.1:3478 80 bytes"
        ),
        ..JUST_ALLOCATED
    },
    Row {
        name: "an_allocation_for_no_time_is_r15",
        steps: &[ALLOCATED_FOR_NO_TIME],
        digests: Some("190f5e5a731c11846cb414d802724fe933314930"),
        output: broken!(
            "R15 lifetime",
            "phase 2 lane 0 event 1 moment 1011000000 tie 0",
            "0.0 198.51.100.7:40000 to 192.0.2.1:3478 80 bytes"
        ),
        ..SESSION
    },
    Row {
        name: "a_success_without_integrity_is_r18",
        steps: &[Step::Exchange(
            Datagram::FromClient(1_010_000, ALLOCATE),
            Datagram::ToClient(
                1_012_000,
                Payload::Message(
                    Class::Success,
                    method::ALLOCATE,
                    &[GIVES_RELAYED, Part::Seconds(600), SEEN_AS_CLIENT],
                ),
            ),
        )],
        digests: Some("006b3e1d09f1ccc09514fd405b8922c4fe4a6a89"),
        output: broken!(
            "R18 response integrity",
            "phase 2 lane 0 event 1 moment 1011000000 tie 0",
            "0.0 198.51.100.7:40000 to 192.0.2.1:3478 80 bytes"
        ),
        ..SESSION
    },
    Row {
        name: "an_odd_port_where_an_even_one_was_asked_is_r14",
        steps: even_port_asked!(50001),
        digests: Some("76a28dd9911479b0e59b58471e72a84a11fa3987"),
        output: broken!(
            "R14 relayed address",
            "phase 2 lane 0 event 1 moment 1011000000 tie 0",
            "0.0 198.51.100.7:40000 to 192.0.2.1:3478 88 bytes"
        ),
        ..SESSION
    },
    Row {
        name: "an_even_port_where_one_was_asked_conforms",
        steps: even_port_asked!(50000),
        digests: Some("35d118b8e157a8e7836b8425e4f34ce34d2b9ca5"),
        output: conforming!(2),
        ..SESSION
    },
    Row {
        name: "a_repeated_allocate_gets_the_same_address",
        steps: repeated!(50000),
        digests: Some("e0f97dd1566765366a6f8d0d889740a6d5cb84ea"),
        output: conforming!(4),
        ..SESSION
    },
    Row {
        name: "another_address_for_a_repeated_allocate_is_r14",
        steps: repeated!(50002),
        digests: Some("f99f795f909c2f53b88bb15a7f9bba193b6559ca"),
        output: broken!(
            "R14 relayed address",
            "phase 2 lane 0 event 4 moment 1020500000 tie 0",
            "0.2 198.51.100.7:40000 to 192.0.2.1:3478 80 bytes"
        ),
        ..SESSION
    },
];

#[test]
fn allocations_are_judged(rt: HostRuntime) -> Result<(), Fail> {
    play(&rt, &ALLOCATIONS)
}

/// A Refresh success response with this LIFETIME in seconds.
macro_rules! refreshed {
    ($seconds:literal) => {
        Payload::Message(
            Class::Success,
            method::REFRESH,
            &[Part::Seconds($seconds), SIGNED],
        )
    };
}

/// A Refresh without LIFETIME, with an act at this moment, 600 seconds after the allocation.
macro_rules! refreshed_at {
    ($moment:literal) => {
        Row {
            steps: &[
                ALLOCATED,
                Step::ExchangeAt(
                    Datagram::FromClient(
                        602_010_000,
                        Payload::Message(Class::Request, method::REFRESH, &[BY_USER, SIGNED]),
                    ),
                    Datagram::ToClient(602_012_000, refreshed!(600)),
                    $moment,
                    0,
                ),
            ],
            digests: Some("81548dc6f8e5838fb290b8d3500d00bd86c08ec0"),
            ..SESSION
        }
    };
}

/// A Refresh with LIFETIME 0.
const GIVE_UP: Payload<'static> = Payload::Message(
    Class::Request,
    method::REFRESH,
    &[Part::Seconds(0), BY_USER, SIGNED],
);

/// The allocation is deleted twice; the second success response has this LIFETIME in seconds.
macro_rules! given_up_twice {
    ($seconds:literal) => {
        &[
            ALLOCATED,
            Step::Exchange(
                Datagram::FromClient(1_020_000, GIVE_UP),
                Datagram::ToClient(1_021_000, refreshed!(0)),
            ),
            Step::Exchange(
                Datagram::FromClient(1_022_000, GIVE_UP),
                Datagram::ToClient(1_023_000, refreshed!($seconds)),
            ),
        ]
    };
}

static REFRESHES: [Row; 4] = [
    Row {
        name: "a_refresh_within_the_grace_conforms",
        output: conforming!(4),
        ..refreshed_at!(602_011_000_000)
    },
    Row {
        name: "a_refresh_after_the_grace_is_r5",
        output: broken!(
            "R5 allocation over",
            "phase 2 lane 0 event 4 moment 602011000001 tie 0",
            "0.2 198.51.100.7:40000 to 192.0.2.1:3478 72 bytes"
        ),
        ..refreshed_at!(602_011_000_001)
    },
    Row {
        name: "an_allocation_may_be_given_up_twice",
        steps: given_up_twice!(0),
        digests: Some("092919f00dd953505733dfe63dc69368fdf272a9"),
        output: conforming!(6),
        ..SESSION
    },
    Row {
        name: "time_for_an_allocation_that_was_given_up_is_r4",
        steps: given_up_twice!(600),
        digests: Some("5f8ddb291bff4b2d79b9d409c861e34ad7245a90"),
        output: broken!(
            "R4 no allocation",
            "phase 2 lane 0 event 7 moment 1022500000 tie 0",
            "0.4 198.51.100.7:40000 to 192.0.2.1:3478 80 bytes"
        ),
        ..SESSION
    },
];

#[test]
fn refreshes_are_judged(rt: HostRuntime) -> Result<(), Fail> {
    play(&rt, &REFRESHES)
}

static REFUSED: [Row; 3] = [
    Row {
        name: "credentials_are_refused_by_number_and_line, K2",
        credentials: "user\trealm\tpass\r\n",
        output: refused!("turnaudit: refused K2 in credentials line 1\n"),
        ..SESSION
    },
    Row {
        name: "credentials_are_refused_by_number_and_line, K3",
        credentials: "user\trealm\tpass\nuser\trealm\tpass\n",
        output: refused!("turnaudit: refused K3 in credentials line 2\n"),
        ..SESSION
    },
    Row {
        name: "credentials_are_refused_by_number_and_line, K1",
        credentials: "user\trealm\n",
        output: refused!("turnaudit: refused K1 in credentials line 1\n"),
        ..SESSION
    },
];

#[test]
fn credentials_are_refused_by_number_and_line(rt: HostRuntime) -> Result<(), Fail> {
    play(&rt, &REFUSED)
}
