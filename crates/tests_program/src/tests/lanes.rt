//! Certificates that place a Binding request at 1,000 microseconds and its success response at
//! 1,500, and the finding of each lane.

use super::rows::{CHECKED, REPORT, Row, play};
use std::test::Fail;
use tests_host::{Output, POLICY};

/// One millisecond of hold, and half a millisecond of skew.
const SHORT_HOLD: &str =
    "turnaudit-policy 1\nlisten 192.0.2.1:3478\nrelay 192.0.2.1:49152-65535\nskew-us 500\nhold-ms 1\n";

macro_rules! placed_by {
    ($name:literal, $policy:expr, $lines:literal, $status:literal, $report:expr) => {
        Row {
            name: $name,
            policy: $policy,
            certificate: concat!(
                "turnaudit-certificate 1\nlane 198.51.100.7:40000 192.0.2.1:3478\n",
                $lines,
                "end\n"
            ),
            output: Output {
                status: $status,
                out: Some($report),
                err: Some(""),
            },
            ..CHECKED
        }
    };
}

static LANES: [Row<'static>; 7] = [
    placed_by!(
        "an_act_before_its_arrival_is_s9",
        POLICY,
        "act 0.0 0.1 1000000 0\nin 0.0 1000000 1\nout 0.1 1500000 0\n",
        1,
        "turnaudit-report 1\nnot shown\nrule S9 act before arrival\nphase 2 lane 0 event 0 moment 1000000 tie 0\ndatagram 0.0 198.51.100.7:40000 to 192.0.2.1:3478 20 bytes\n"
    ),
    placed_by!(
        "an_act_on_the_arrival_of_another_lane_is_s9",
        POLICY,
        "in 0.0 1000000 0\nout 0.1 1500000 0\nlane 198.51.100.8:40001 192.0.2.1:3478\nact 0.0 0.1 1000000 1\n",
        1,
        "turnaudit-report 1\nnot shown\nrule S9 act before arrival\nphase 2 lane 1 event 0 moment 1000000 tie 1\ndatagram 0.0 198.51.100.7:40000 to 192.0.2.1:3478 20 bytes\n"
    ),
    placed_by!(
        "an_act_on_an_arrival_that_was_dropped_is_s9",
        POLICY,
        "act 0.0 0.1 1000000 1\nout 0.1 1500000 0\ndrop 0.0 1000000 0\n",
        1,
        "turnaudit-report 1\nnot shown\nrule S9 act before arrival\nphase 2 lane 0 event 0 moment 1000000 tie 1\ndatagram 0.0 198.51.100.7:40000 to 192.0.2.1:3478 20 bytes\n"
    ),
    placed_by!(
        "a_departure_that_no_act_gave_is_s11",
        POLICY,
        "in 0.0 1000000 0\nout 0.1 1500000 0\n",
        1,
        "turnaudit-report 1\nnot shown\nrule S11 left without act\nphase 2 lane 0 event 1 moment 1500000 tie 0\ndatagram 0.1 192.0.2.1:3478 to 198.51.100.7:40000 32 bytes\n"
    ),
    placed_by!(
        "hold_is_measured_from_the_arrival, act and departure a millisecond after it",
        SHORT_HOLD,
        "in 0.0 900000 0\nact 0.0 0.1 1900000 0\nout 0.1 1900000 1\n",
        0,
        REPORT
    ),
    placed_by!(
        "hold_is_measured_from_the_arrival, the act a nanosecond later",
        SHORT_HOLD,
        "in 0.0 900000 0\nact 0.0 0.1 1900001 0\nout 0.1 1900001 1\n",
        1,
        "turnaudit-report 1\nnot shown\nrule S12 held too long\nphase 2 lane 0 event 1 moment 1900001 tie 0\ndatagram 0.0 198.51.100.7:40000 to 192.0.2.1:3478 20 bytes\n"
    ),
    placed_by!(
        "hold_is_measured_from_the_arrival, the departure a nanosecond later",
        SHORT_HOLD,
        "in 0.0 900000 0\nact 0.0 0.1 1899999 0\nout 0.1 1900001 0\n",
        1,
        "turnaudit-report 1\nnot shown\nrule S12 held too long\nphase 2 lane 0 event 2 moment 1900001 tie 0\ndatagram 0.1 192.0.2.1:3478 to 198.51.100.7:40000 32 bytes\n"
    ),
];

#[test]
fn each_lane_shows_its_breach(rt: HostRuntime) -> Result<(), Fail> {
    play(&rt, &LANES)
}
