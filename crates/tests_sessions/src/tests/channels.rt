//! ChannelBind and ChannelData.

use super::rows::{Row, SESSION, broken, conforming, play};
use std::test::Fail;
use tests_datagrams::{
    ALLOCATED, ALLOCATED_FOR_1200, BIND_4001, BIND_SUCCESS, BOUND_4FFF, BOUND_4000, BOUND_5000,
    Datagram, PEER, Payload, Step,
};
use tests_host::Output;

const HI: Payload<'static> = Payload::Channel(0x4000, b"hi", b"");

/// The client's ChannelData, with an act at this moment, 601 seconds after the channel was bound.
macro_rules! carried_at {
    ($moment:literal) => {
        Row {
            steps: &[
                ALLOCATED_FOR_1200,
                BOUND_4000,
                Step::ExchangeAt(
                    Datagram::FromClient(602_020_000, HI),
                    Datagram::ToPeer(602_021_000, PEER, b"hi"),
                    $moment,
                    0,
                ),
            ],
            digests: Some("420f2919bbad795a96b9c650e35e9ed98a362910"),
            ..SESSION
        }
    };
}

/// A ChannelBind of another number for the peer, with an act at this moment, 600 seconds after the
/// first.
macro_rules! bound_anew_at {
    ($moment:literal) => {
        Row {
            steps: &[
                ALLOCATED_FOR_1200,
                BOUND_4000,
                Step::ExchangeAt(
                    Datagram::FromClient(601_020_000, BIND_4001),
                    Datagram::ToClient(601_021_000, BIND_SUCCESS),
                    $moment,
                    0,
                ),
            ],
            digests: Some("ab7c4c0885225d833c4b3f2774d1e24a73338d4f"),
            ..SESSION
        }
    };
}

/// The peer's data, sent to the client as ChannelData with more bytes after it.
macro_rules! followed_by {
    ($more:literal) => {
        &[
            ALLOCATED,
            BOUND_4000,
            Step::Exchange(
                Datagram::FromPeer(1_030_000, b"hi"),
                Datagram::ToClient(1_030_100, Payload::Channel(0x4000, b"hi", $more)),
            ),
        ]
    };
}

static CHANNELS: [Row; 10] = [
    Row {
        name: "the_last_channel_number_is_bound",
        steps: &[ALLOCATED, BOUND_4FFF],
        digests: Some("276518b5900241ba1a73eeb033978dafabdab610"),
        output: conforming!(4),
        ..SESSION
    },
    Row {
        name: "a_number_past_the_channels_is_r10",
        steps: &[ALLOCATED, BOUND_5000],
        digests: Some("838223dd6a7788d6364be54f80b38a9fb8d46044"),
        output: broken!(
            "R10 channel number",
            "phase 2 lane 0 event 4 moment 1020500000 tie 0",
            "0.2 198.51.100.7:40000 to 192.0.2.1:3478 92 bytes"
        ),
        ..SESSION
    },
    Row {
        name: "a_channel_carries_data_without_permission",
        steps: &[
            ALLOCATED,
            BOUND_4000,
            Step::Exchange(
                Datagram::FromClient(310_000_000, HI),
                Datagram::ToPeer(310_001_000, PEER, b"hi"),
            ),
        ],
        digests: Some("3082f693964751586b0bb23800b7b9ea487ff55b"),
        output: conforming!(6),
        ..SESSION
    },
    Row {
        name: "a_peer_whose_permission_ended_is_r7_in_its_channel",
        steps: &[
            ALLOCATED,
            BOUND_4000,
            Step::Exchange(
                Datagram::FromPeer(310_000_000, b"hi"),
                Datagram::ToClient(310_001_000, HI),
            ),
        ],
        digests: Some("549e712fc15617443099683644bc4db218771a49"),
        output: broken!(
            "R7 permission over",
            "phase 2 lane 0 event 7 moment 310000500000 tie 0",
            "0.4 203.0.113.9:7000 to 192.0.2.1:50000 2 bytes"
        ),
        ..SESSION
    },
    Row {
        name: "data_within_the_grace_of_its_channel_conforms",
        output: conforming!(6),
        ..carried_at!(602_020_500_000)
    },
    Row {
        name: "data_after_its_channel_ended_is_r9",
        output: broken!(
            "R9 channel over",
            "phase 2 lane 0 event 7 moment 602020500001 tie 0",
            "0.4 198.51.100.7:40000 to 192.0.2.1:3478 6 bytes"
        ),
        ..carried_at!(602_020_500_001)
    },
    Row {
        name: "another_number_before_the_channel_is_gone_is_r11",
        output: broken!(
            "R11 channel conflict",
            "phase 2 lane 0 event 7 moment 601020500000 tie 0",
            "0.4 198.51.100.7:40000 to 192.0.2.1:3478 92 bytes"
        ),
        ..bound_anew_at!(601_020_500_000)
    },
    Row {
        name: "another_number_once_the_channel_is_gone_conforms",
        output: conforming!(6),
        ..bound_anew_at!(601_020_500_001)
    },
    Row {
        name: "three_bytes_may_follow_channel_data",
        steps: followed_by!(b"\0\0\0"),
        digests: Some("ad7cd52c02c7a4840736c57f6f21d0c490579d1f"),
        output: conforming!(6),
        ..SESSION
    },
    Row {
        name: "four_bytes_behind_channel_data_are_r21",
        steps: followed_by!(b"\0\0\0\0"),
        digests: Some("90b5456463a84675425996d0a6ec46253d8ec1af"),
        output: broken!(
            "R21 leaving datagram malformed",
            "phase 2 lane 0 event 7 moment 1030050000 tie 0",
            "0.4 203.0.113.9:7000 to 192.0.2.1:50000 2 bytes"
        ),
        ..SESSION
    },
];

#[test]
fn channels_are_judged(rt: HostRuntime) -> Result<(), Fail> {
    play(&rt, &CHANNELS)
}
