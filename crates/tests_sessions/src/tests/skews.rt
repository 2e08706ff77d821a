//! Skews of interfaces: a relayed datagram in a capture of its own, by a clock that is 400
//! microseconds early.

use super::relays::SENT;
use super::rows::{Row, broken, conforming, play};
use std::test::Fail;
use tests_host::Output;

static SKEWS: [Row; 3] = [
    Row {
        name: "a_wider_skew_of_the_other_interface_conforms",
        policy: "turnaudit-policy 2\nlisten 192.0.2.1:3478\nrelay 192.0.2.1:49152-65535\nskew-us 100\nskew-of 64 500\n",
        output: conforming!(8),
        ..SENT
    },
    Row {
        name: "a_window_that_is_cut_to_400_microseconds_conforms",
        front: "turnaudit-certificate 2\nskew 64 400\n",
        output: conforming!(8),
        ..SENT
    },
    Row {
        name: "a_window_that_is_cut_to_399_microseconds_is_s4",
        front: "turnaudit-certificate 2\nskew 64 399\n",
        output: broken!(
            "S4 window",
            "phase 1 lane 0 event 11 moment 1030100000 tie 0",
            "64.0 192.0.2.1:50000 to 203.0.113.9:7000 5 bytes"
        ),
        ..SENT
    },
];

#[test]
fn skews_of_interfaces_are_judged(rt: HostRuntime) -> Result<(), Fail> {
    play(&rt, &SKEWS)
}
