//! Sessions that begin with a challenge. Datagrams between the server and peers are in a capture of
//! their own, with its own clock.

use super::rows::{Row, SESSION, broken, conforming, play};
use std::test::Fail;
use tests_datagrams::{
    ALLOCATED, BOUND_4FFF, BOUND_4000, BOUND_5000, CHALLENGED, Datagram, PEER, PERMIT,
    PERMIT_SUCCESS, PERMITTED, Payload, Step,
};
use tests_host::Output;

const TWO_CAPTURES: Row = Row {
    has_two_captures: true,
    ..SESSION
};

/// A Send with data, and other data relayed by a clock that is 400 microseconds early.
macro_rules! relayed {
    ($sent:literal, $relayed:literal) => {
        &[
            CHALLENGED,
            ALLOCATED,
            PERMITTED,
            Step::Seen(Datagram::FromClient(1_030_000, Payload::Send(PEER, $sent))),
            Step::Seen(Datagram::ToPeer(1_029_700, PEER, $relayed)),
            Step::Lines(
                "in 0.6 1030000000 0\nact 0.6 64.0 1030050000 0\nout 64.0 1030100000 0\n",
            ),
        ]
    };
}

/// The client's datagrams up to a Send of `hello`, and the relayed datagram.
pub const SENT: Row = Row {
    steps: relayed!(b"hello", b"hello"),
    digests: Some(
        "2d2d7207552ba149a78916e496393f2c18c1456f 8f4e8ba358e0fcd8fa9f14f364132ea7d836006d",
    ),
    ..TWO_CAPTURES
};

/// The same with other data relayed.
pub const OTHER_DATA: Row = Row {
    steps: relayed!(b"hello", b"hellp"),
    digests: Some(
        "2d2d7207552ba149a78916e496393f2c18c1456f 9f531bee0df1434ca0b68be4ce05dcb9632532a8",
    ),
    ..TWO_CAPTURES
};

/// A Send and a relayed datagram without data.
pub const NO_DATA: Row = Row {
    steps: relayed!(b"", b""),
    digests: Some(
        "4e95a9b1969f73aff23837bd19e40a0a139f9a89 b2f5ad16f511a3bdac36db8e3150ab8e21fa91d4",
    ),
    ..TWO_CAPTURES
};

/// A Send with an act at this moment, 301 seconds after the permission.
macro_rules! relayed_at {
    ($moment:literal) => {
        Row {
            steps: &[
                CHALLENGED,
                ALLOCATED,
                PERMITTED,
                Step::ExchangeAt(
                    Datagram::FromClient(302_020_000, Payload::Send(PEER, b"hello")),
                    Datagram::ToPeer(302_021_000, PEER, b"hello"),
                    $moment,
                    0,
                ),
            ],
            digests: Some(
                "187989f349e7dbcbbd926577364bd673874292e9 14e93a4047356a9c9f81efaa9880307f0543c848",
            ),
            ..TWO_CAPTURES
        }
    };
}

pub const WITHIN_THE_GRACE: Row = relayed_at!(302_020_500_000);

/// A CreatePermission whose success response leaves after a datagram of the peer was sent to the
/// client, placed by these lines.
macro_rules! overtaken {
    ($lines:literal) => {
        Row {
            steps: &[
                CHALLENGED,
                ALLOCATED,
                Step::Seen(Datagram::FromClient(1_020_000, PERMIT)),
                Step::Seen(Datagram::FromPeer(1_020_200, b"hi")),
                Step::Seen(Datagram::ToClient(1_020_400, Payload::Data(PEER, b"hi"))),
                Step::Seen(Datagram::ToClient(1_021_000, PERMIT_SUCCESS)),
                Step::Lines($lines),
            ],
            digests: Some(
                "e717835046768df63e589e1b434f135af3fbc87b 8fcfc65f72119d184e90077cfae066f036b3fabc",
            ),
            ..TWO_CAPTURES
        }
    };
}

/// The act on the request is before the peer's datagram.
pub const OVERTAKEN: Row = overtaken!(
    "in 0.4 1020000000 0\nact 0.4 0.6 1020100000 0\nin 64.0 1020200000 0\nact 64.0 0.5 1020300000 0\nout 0.5 1020400000 0\nout 0.6 1021000000 0\n"
);

/// The act on the request is after the peer's datagram.
pub const ACTED_ON_LATE: Row = overtaken!(
    "in 0.4 1020000000 0\nin 64.0 1020200000 0\nact 64.0 0.5 1020300000 0\nact 0.4 0.6 1020350000 0\nout 0.5 1020400000 0\nout 0.6 1021000000 0\n"
);

pub const LAST_CHANNEL: Row = Row {
    steps: &[CHALLENGED, ALLOCATED, BOUND_4FFF],
    digests: Some("40552406f5f5d402248a7eaf2ad412ddc6484b5d"),
    ..SESSION
};

pub const PAST_THE_CHANNELS: Row = Row {
    steps: &[CHALLENGED, ALLOCATED, BOUND_5000],
    digests: Some("00d11247d39608194b7636040a190bb7cca477d4"),
    ..SESSION
};

pub const CARRIED: Row = Row {
    steps: &[
        CHALLENGED,
        ALLOCATED,
        BOUND_4000,
        Step::Exchange(
            Datagram::FromClient(310_000_000, Payload::Channel(0x4000, b"hi", b"")),
            Datagram::ToPeer(310_001_000, PEER, b"hi"),
        ),
    ],
    digests: Some(
        "310d012df31614fbca52da879c321fcb2450ed9b 617067ab7c80b43c0a4886fbc6893913acdecab6",
    ),
    ..TWO_CAPTURES
};

/// A datagram of the peer, sent to the client by two Data indications.
pub const GIVEN_TWICE: Row = Row {
    steps: &[
        CHALLENGED,
        ALLOCATED,
        PERMITTED,
        Step::Seen(Datagram::FromPeer(1_030_000, b"hi")),
        Step::Seen(Datagram::ToClient(1_030_500, Payload::Data(PEER, b"hi"))),
        Step::Seen(Datagram::ToClient(1_031_000, Payload::Data(PEER, b"hi"))),
        Step::Lines(
            "in 64.0 1030000000 0\nact 64.0 0.6 1030200000 0\nout 0.6 1030500000 0\nact 64.0 0.7 1030600000 0\nout 0.7 1031000000 0\n",
        ),
    ],
    digests: Some(
        "6ff15fe00e298aced99b9a42e5a45fcefb1619c9 f87ab6f0d4ac22e025db7de7d0c2f9a09e65dad1",
    ),
    ..TWO_CAPTURES
};

static RELAYS: [Row; 9] = [
    Row {
        name: "a_relay_seen_by_two_clocks_conforms",
        output: conforming!(8),
        ..SENT
    },
    Row {
        name: "a_clock_past_the_skew_is_s4",
        policy: "turnaudit-policy 1\nlisten 192.0.2.1:3478\nrelay 192.0.2.1:49152-65535\nskew-us 100\n",
        output: broken!(
            "S4 window",
            "phase 1 lane 0 event 11 moment 1030100000 tie 0",
            "64.0 192.0.2.1:50000 to 203.0.113.9:7000 5 bytes"
        ),
        ..SENT
    },
    Row {
        name: "another_password_is_told_at_the_first_signed_request",
        credentials: "user\trealm\tpasz\n",
        output: broken!(
            "R2 credentials",
            "phase 2 lane 0 event 4 moment 1011000000 tie 0",
            "0.2 198.51.100.7:40000 to 192.0.2.1:3478 80 bytes"
        ),
        ..SENT
    },
    Row {
        name: "other_data_in_the_other_capture_is_r13",
        output: broken!(
            "R13 data differs",
            "phase 2 lane 0 event 10 moment 1030050000 tie 0",
            "0.6 198.51.100.7:40000 to 192.0.2.1:3478 44 bytes"
        ),
        ..OTHER_DATA
    },
    Row {
        name: "no_bytes_are_relayed_into_the_other_capture",
        output: conforming!(8),
        ..NO_DATA
    },
    Row {
        name: "a_permission_lasts_to_the_end_of_its_grace",
        output: conforming!(8),
        ..WITHIN_THE_GRACE
    },
    Row {
        name: "a_nanosecond_after_its_grace_a_permission_is_r7",
        output: broken!(
            "R7 permission over",
            "phase 2 lane 0 event 10 moment 302020500001 tie 0",
            "0.6 198.51.100.7:40000 to 192.0.2.1:3478 44 bytes"
        ),
        ..relayed_at!(302_020_500_001)
    },
    Row {
        name: "a_permission_counts_from_the_act_and_not_from_its_success",
        output: conforming!(8),
        ..OVERTAKEN
    },
    Row {
        name: "a_permission_does_not_count_before_the_act",
        output: broken!(
            "R6 no permission",
            "phase 2 lane 0 event 8 moment 1020300000 tie 0",
            "64.0 203.0.113.9:7000 to 192.0.2.1:50000 2 bytes"
        ),
        ..ACTED_ON_LATE
    },
];

#[test]
fn relays_of_two_captures_are_judged(rt: HostRuntime) -> Result<(), Fail> {
    play(&rt, &RELAYS)
}

static CHANNELS: [Row; 5] = [
    Row {
        name: "a_channel_is_bound_after_a_challenge",
        output: conforming!(6),
        ..LAST_CHANNEL
    },
    Row {
        name: "a_number_past_the_channels_is_r10_after_a_challenge",
        output: broken!(
            "R10 channel number",
            "phase 2 lane 0 event 7 moment 1020500000 tie 0",
            "0.4 198.51.100.7:40000 to 192.0.2.1:3478 92 bytes"
        ),
        ..PAST_THE_CHANNELS
    },
    Row {
        name: "a_channel_carries_data_into_the_other_capture",
        output: conforming!(8),
        ..CARRIED
    },
    Row {
        name: "a_peer_without_permission_is_r7_from_the_other_capture",
        steps: &[
            CHALLENGED,
            ALLOCATED,
            BOUND_4000,
            Step::Exchange(
                Datagram::FromPeer(310_000_000, b"hi"),
                Datagram::ToClient(310_001_000, Payload::Channel(0x4000, b"hi", b"")),
            ),
        ],
        digests: Some(
            "fed154f88f0372e643a297dd0fb6dad657142ecd fab219d574c41526c2f7ba4ec1c54e5dcdcfbf64",
        ),
        output: broken!(
            "R7 permission over",
            "phase 2 lane 0 event 10 moment 310000500000 tie 0",
            "64.0 203.0.113.9:7000 to 192.0.2.1:50000 2 bytes"
        ),
        ..TWO_CAPTURES
    },
    Row {
        name: "a_datagram_of_the_other_capture_given_twice_is_s10",
        output: broken!(
            "S10 acted twice",
            "phase 2 lane 0 event 12 moment 1030600000 tie 0",
            "64.0 203.0.113.9:7000 to 192.0.2.1:50000 2 bytes"
        ),
        ..GIVEN_TWICE
    },
];

#[test]
fn channels_after_a_challenge_are_judged(rt: HostRuntime) -> Result<(), Fail> {
    play(&rt, &CHANNELS)
}
