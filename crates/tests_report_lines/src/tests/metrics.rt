//! Files of metrics.

use crate::tests::narrow::Narrow;
use audit_model::WriteFault;
use std::alloc::AllocGlobal;
use std::process::Abort;
use std::test::*;
use watch_report::{BreachCount, Metrics, write_metrics};

const TEXT: &str = "\
# HELP turnwatch_conforming Whether all that was captured since the claim began conforms so far (1) or not (0).
# TYPE turnwatch_conforming gauge
turnwatch_conforming 1
# HELP turnwatch_claim_begin_timestamp_seconds When the present claim began, by the captures, in seconds since 1970.
# TYPE turnwatch_claim_begin_timestamp_seconds gauge
turnwatch_claim_begin_timestamp_seconds 1700000000.000000000
# HELP turnwatch_judged_up_to_timestamp_seconds The moment up to which all is judged, by the captures, in seconds since 1970.
# TYPE turnwatch_judged_up_to_timestamp_seconds gauge
turnwatch_judged_up_to_timestamp_seconds 1700000060.500000001
# HELP turnwatch_lag_seconds Time from the moment up to which all is judged until the newest captured datagram.
# TYPE turnwatch_lag_seconds gauge
turnwatch_lag_seconds 2.051000000
# HELP turnwatch_datagrams_total Judged datagrams between the server and clients, or peers.
# TYPE turnwatch_datagrams_total counter
turnwatch_datagrams_total{side=\"client\"} 300100
turnwatch_datagrams_total{side=\"peer\"} 299000
# HELP turnwatch_relayed_bytes_total Bytes of application data that the server relayed.
# TYPE turnwatch_relayed_bytes_total counter
turnwatch_relayed_bytes_total 51428000
# HELP turnwatch_allocations Allocations that have not expired.
# TYPE turnwatch_allocations gauge
turnwatch_allocations 50
# HELP turnwatch_permissions Permissions that have not expired.
# TYPE turnwatch_permissions gauge
turnwatch_permissions 120
# HELP turnwatch_channels Channel bindings that have not expired.
# TYPE turnwatch_channels gauge
turnwatch_channels 99
# HELP turnwatch_waiting_arrivals Datagrams that arrived and on which the server may still act.
# TYPE turnwatch_waiting_arrivals gauge
turnwatch_waiting_arrivals 7
# HELP turnwatch_owed_departures Datagrams that the server sent by an act and that have not left yet.
# TYPE turnwatch_owed_departures gauge
turnwatch_owed_departures 0
# HELP turnwatch_breaches_total Breaches, by the violated rule.
# TYPE turnwatch_breaches_total counter
turnwatch_breaches_total{rule=\"R5\"} 2
turnwatch_breaches_total{rule=\"a\\\"b\\\\c\\nd\"} 18446744073709551615
# HELP turnwatch_gaps_total Gaps in the ring, each of which ended a claim.
# TYPE turnwatch_gaps_total counter
turnwatch_gaps_total 1
# HELP turnwatch_epochs_total Epochs, after each of which what is not needed any more is forgotten.
# TYPE turnwatch_epochs_total counter
turnwatch_epochs_total 4
# HELP turnwatch_resident_memory_bytes Resident memory of the process.
# TYPE turnwatch_resident_memory_bytes gauge
turnwatch_resident_memory_bytes 104857600
# HELP turnwatch_checkpoint_timestamp_seconds When the last checkpoint was written, in seconds since 1970.
# TYPE turnwatch_checkpoint_timestamp_seconds gauge
turnwatch_checkpoint_timestamp_seconds 1700000061.000000000
";

/// The second rule is text that has to be escaped.
const BREACHES: [BreachCount<'static>; 2] = [
    BreachCount {
        rule: "R5",
        count: 2,
    },
    BreachCount {
        rule: "a\"b\\c\nd",
        count: u64::MAX,
    },
];

fn metrics<'a>(breaches: &'a [BreachCount<'static>]) -> Metrics<'a> {
    Metrics {
        conforming: true,
        claim_begin: 1_700_000_000_000_000_000,
        judged_up_to: 1_700_000_060_500_000_001,
        lag: 2_051_000_000,
        client_datagrams: 300_100,
        peer_datagrams: 299_000,
        relayed_bytes: 51_428_000,
        allocations: 50,
        permissions: 120,
        channels: 99,
        waiting_arrivals: 7,
        owed_departures: 0,
        breaches,
        gaps: 1,
        epochs: 4,
        resident_memory: 104_857_600,
        checkpoint: Some(1_700_000_061_000_000_000),
    }
}

/// That a sink with room for a number of bytes gets so many of the text, and the wanted result.
fn assert_text(rt: &(impl Abort + AllocGlobal), room: usize, wanted: Result<(), WriteFault>) {
    let breaches = BREACHES;
    let metrics = metrics(&breaches);
    let mut sink = Narrow::new(rt.alloc(), room);
    let written = write_metrics(rt.alloc(), &metrics, &mut sink);
    let text = TEXT.as_bytes();
    let taken = text.get(..room).unwrap_or(text);
    assert_eq!(rt;
        (written, sink.bytes.as_slice(), sink.has_failed),
        (wanted, taken, wanted.is_err()),
        "room for {room} bytes"
    );
}

#[test]
fn the_text_of_metrics(rt: HostRuntime) -> Result<(), Fail> {
    assert_text(&rt, TEXT.len(), Ok(()));
    Ok(())
}

#[test]
fn a_sink_that_fails_has_a_prefix(rt: HostRuntime) -> Result<(), Fail> {
    for room in 0..TEXT.len() {
        assert_text(&rt, room, Err(WriteFault::Device));
    }
    Ok(())
}
