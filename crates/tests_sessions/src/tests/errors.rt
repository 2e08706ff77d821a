//! Error responses.

use super::rows::{Row, SESSION, broken, conforming, play};
use audit_samples::{Class, attribute, method};
use std::test::Fail;
use tests_datagrams::{ALLOCATED, BY_USER, CHALLENGED, Datagram, Part, Payload, SIGNED, Step};
use tests_host::Output;

/// An ERROR-CODE: its class and two digits.
macro_rules! code {
    ($class:literal, $number:literal) => {
        Part::Value(
            attribute::ERROR_CODE,
            &[0, 0, $class, $number, b'n', b'o'],
        )
    };
}

/// An Allocate with this transport and without credentials, and the contents of the error response
/// to it.
macro_rules! refused {
    ($transport:literal, $parts:expr) => {
        &[Step::ExchangeAt(
            Datagram::FromClient(
                1_000_000,
                Payload::Message(
                    Class::Request,
                    method::ALLOCATE,
                    &[Part::Value(
                        attribute::REQUESTED_TRANSPORT,
                        &[$transport, 0, 0, 0],
                    )],
                ),
            ),
            Datagram::ToClient(
                1_001_000,
                Payload::Message(Class::Error, method::ALLOCATE, $parts),
            ),
            1_000_000_000,
            1,
        )]
    };
}

/// The report about that Allocate.
macro_rules! allocate_broken {
    ($rule:literal) => {
        broken!(
            $rule,
            "phase 2 lane 0 event 1 moment 1000000000 tie 1",
            "0.0 198.51.100.7:40000 to 192.0.2.1:3478 28 bytes"
        )
    };
}

static REFUSALS: [Row; 7] = [
    Row {
        name: "a_challenge_conforms",
        steps: &[CHALLENGED],
        digests: Some("a1dbb28e645be7e5abc8054f73dce758f7220077"),
        output: conforming!(2),
        ..SESSION
    },
    Row {
        name: "a_challenge_without_nonce_is_r19",
        steps: refused!(17, &[code!(4, 1), Part::Value(attribute::REALM, b"realm")]),
        digests: Some("5aa575c0695c00811d5f7ef08260a9ceecd7c35f"),
        output: allocate_broken!("R19 error condition"),
        ..SESSION
    },
    Row {
        name: "no_allocation_is_no_answer_to_an_allocate",
        steps: refused!(17, &[code!(4, 37), Part::Challenge]),
        digests: Some("eb3253b841753877d566fd02c38be07c0535d18a"),
        output: allocate_broken!("R19 error condition"),
        ..SESSION
    },
    Row {
        name: "an_error_code_of_class_seven_is_r21",
        steps: refused!(17, &[code!(7, 1), Part::Challenge]),
        digests: Some("78f1c742d25cc4064201882bbb43a4d3cf98e8c6"),
        output: allocate_broken!("R21 leaving datagram malformed"),
        ..SESSION
    },
    Row {
        name: "an_error_without_code_is_r21",
        steps: refused!(17, &[Part::Challenge]),
        digests: Some("a25190b90ce38be0bae97f62c04a123fe35d9bf8"),
        output: allocate_broken!("R21 leaving datagram malformed"),
        ..SESSION
    },
    Row {
        name: "udp_refused_as_a_transport_is_r19",
        steps: refused!(17, &[code!(4, 42)]),
        digests: Some("87b1229a467d0a59cd708b244a2c7c89125e9ef4"),
        output: allocate_broken!("R19 error condition"),
        ..SESSION
    },
    Row {
        name: "tcp_refused_as_a_transport_conforms",
        steps: refused!(6, &[code!(4, 42)]),
        digests: Some("07569f3ca61a5d62456c37c062c986fabbbc3a2b"),
        output: conforming!(2),
        ..SESSION
    },
];

#[test]
fn refusals_of_an_allocate_are_judged(rt: HostRuntime) -> Result<(), Fail> {
    play(&rt, &REFUSALS)
}

/// A Refresh of the allocation by a user, refused for wrong credentials.
macro_rules! refused_to {
    ($user:literal, $password:literal) => {
        Row {
            credentials: "user\trealm\tpass\nmate\trealm\tword\n",
            steps: &[
                ALLOCATED,
                Step::Exchange(
                    Datagram::FromClient(
                        1_020_000,
                        Payload::Message(
                            Class::Request,
                            method::REFRESH,
                            &[Part::User($user), Part::Signed($user, $password)],
                        ),
                    ),
                    Datagram::ToClient(
                        1_021_000,
                        Payload::Message(Class::Error, method::REFRESH, &[code!(4, 41)]),
                    ),
                ),
            ],
            ..SESSION
        }
    };
}

/// A Refresh with LIFETIME 0.
const GIVE_UP: Payload<'static> = Payload::Message(
    Class::Request,
    method::REFRESH,
    &[Part::Seconds(0), BY_USER, SIGNED],
);

/// A Refresh success response with this LIFETIME in seconds.
macro_rules! refreshed {
    ($seconds:literal) => {
        Payload::Message(
            Class::Success,
            method::REFRESH,
            &[Part::Seconds($seconds), SIGNED],
        )
    };
}

/// After a challenge, an allocation that is deleted twice, with this response to the second
/// Refresh.
macro_rules! given_up {
    ($answer:expr) => {
        &[
            CHALLENGED,
            ALLOCATED,
            Step::Exchange(
                Datagram::FromClient(1_013_000, GIVE_UP),
                Datagram::ToClient(1_014_000, refreshed!(0)),
            ),
            Step::Exchange(
                Datagram::FromClient(1_015_000, GIVE_UP),
                Datagram::ToClient(1_016_000, $answer),
            ),
        ]
    };
}

static REFRESHES: [Row; 5] = [
    Row {
        name: "another_user_may_be_refused_as_such",
        digests: Some("3d0d92c026b966c61ae06e22aa3bfc55bdb30ee1"),
        output: conforming!(4),
        ..refused_to!(b"mate", b"word")
    },
    Row {
        name: "the_allocations_user_refused_as_another_is_r19",
        digests: Some("66cfe1c9809bd8cfadc3c9f6edaba822992701e8"),
        output: broken!(
            "R19 error condition",
            "phase 2 lane 0 event 4 moment 1020500000 tie 0",
            "0.2 198.51.100.7:40000 to 192.0.2.1:3478 72 bytes"
        ),
        ..refused_to!(b"user", b"pass")
    },
    Row {
        name: "no_allocation_may_be_told_once_it_was_given_up",
        steps: given_up!(Payload::Message(Class::Error, method::REFRESH, &[code!(4, 37)])),
        digests: Some("0355f32826cc515bef91de1f5eb517cb64428f8f"),
        output: conforming!(8),
        ..SESSION
    },
    Row {
        name: "what_was_given_up_may_be_given_up_again",
        steps: given_up!(refreshed!(0)),
        digests: Some("88a6e3c9b50b8e5361c4d22d8a00aa6cc0e03dba"),
        output: conforming!(8),
        ..SESSION
    },
    Row {
        name: "time_for_what_was_given_up_is_r4",
        steps: given_up!(refreshed!(600)),
        digests: Some("fd2451d34d4de61bd4baca6261cca85ad1fe97de"),
        output: broken!(
            "R4 no allocation",
            "phase 2 lane 0 event 10 moment 1015500000 tie 0",
            "0.6 198.51.100.7:40000 to 192.0.2.1:3478 80 bytes"
        ),
        ..SESSION
    },
];

#[test]
fn refusals_of_a_refresh_are_judged(rt: HostRuntime) -> Result<(), Fail> {
    play(&rt, &REFRESHES)
}
