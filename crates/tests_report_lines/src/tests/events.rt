//! The lines of events.

use crate::tests::narrow::Narrow;
use audit_model::{Addr, Pair, Rule, SightId, WriteFault};
use std::alloc::AllocGlobal;
use std::process::Abort;
use std::test::*;
use watch_report::{
    Breach, BreachReason, Claim, Endpoint, Event, FramePlace, Gap, GapReason, Unread, UnreadReason,
    write_event,
};

/// More room than a line needs.
const PLENTY: usize = 10_000;

/// From 22:13:20 to 22:14:20.5 on 14 November 2023.
const CLAIM: Claim = Claim {
    begin: 1_700_000_000_000_000_000,
    up_to: 1_700_000_060_500_000_000,
};

const CLAIM_LINE: &str = "{\"begin\":\"1700000000000000000\",\
    \"begin_utc\":\"2023-11-14T22:13:20Z\",\"event\":\"claim\",\"schema\":\"turnwatch/1\",\
    \"up_to\":\"1700000060500000000\",\"up_to_utc\":\"2023-11-14T22:14:20Z\",\
    \"verdict\":\"conforming so far\"}\n";

const END_LINE: &str = "{\"begin\":\"1700000000000000000\",\
    \"begin_utc\":\"2023-11-14T22:13:20Z\",\"event\":\"end\",\"schema\":\"turnwatch/1\",\
    \"up_to\":\"1700000060500000000\",\"up_to_utc\":\"2023-11-14T22:14:20Z\",\
    \"verdict\":\"conforming\"}\n";

const BREACH_LINE: &str = "{\"begin\":\"1700000000000000000\",\
    \"begin_utc\":\"2023-11-14T22:13:20Z\",\"capture\":\"turn_00017_20231114221400.pcapng\",\
    \"client\":\"198.51.100.7:40000\",\"event\":\"breach\",\"frame\":1234,\"index\":5678,\
    \"interface\":1,\"listen\":\"192.0.2.1:3478\",\"moment\":\"1700000060700000001\",\
    \"moment_utc\":\"2023-11-14T22:14:20Z\",\"refusal\":null,\"relayed\":\"192.0.2.15:50000\",\
    \"rule\":\"R5 allocation over\",\"schema\":\"turnwatch/1\",\
    \"up_to\":\"1700000060500000000\",\"up_to_utc\":\"2023-11-14T22:14:20Z\"}\n";

/// A departure that no act sent, of no known client.
const UNKNOWN_LINE: &str = "{\"begin\":\"1700000000000000000\",\
    \"begin_utc\":\"2023-11-14T22:13:20Z\",\"capture\":\"turn_00017_20231114221400.pcapng\",\
    \"client\":null,\"event\":\"breach\",\"frame\":null,\"index\":5678,\
    \"interface\":1,\"listen\":null,\"moment\":\"1700000060700000001\",\
    \"moment_utc\":\"2023-11-14T22:14:20Z\",\"refusal\":\"not owed\",\"relayed\":null,\
    \"rule\":null,\"schema\":\"turnwatch/1\",\
    \"up_to\":\"1700000060500000000\",\"up_to_utc\":\"2023-11-14T22:14:20Z\"}\n";

const GAP_LINE: &str = "{\"begin\":\"1700000000000000000\",\
    \"begin_utc\":\"2023-11-14T22:13:20Z\",\"event\":\"gap\",\
    \"from_capture\":\"turn_00017_20231114221400.pcapng\",\"reason\":\"file missing\",\
    \"schema\":\"turnwatch/1\",\"to_capture\":\"turn_00019_20231114221600.pcapng\",\
    \"up_to\":\"1700000060500000000\",\"up_to_utc\":\"2023-11-14T22:14:20Z\"}\n";

const OPEN_GAP_LINE: &str = "{\"begin\":\"1700000000000000000\",\
    \"begin_utc\":\"2023-11-14T22:13:20Z\",\"event\":\"gap\",\
    \"from_capture\":\"turn_00017_20231114221400.pcapng\",\"reason\":\"packets dropped\",\
    \"schema\":\"turnwatch/1\",\"to_capture\":null,\
    \"up_to\":\"1700000060500000000\",\"up_to_utc\":\"2023-11-14T22:14:20Z\"}\n";

const CHECKPOINT_LINE: &str = "{\"begin\":\"1700000000000000000\",\
    \"begin_utc\":\"2023-11-14T22:13:20Z\",\"event\":\"checkpoint\",\
    \"file\":\"/var/lib/turnwatch/checkpoint\",\"schema\":\"turnwatch/1\",\
    \"up_to\":\"1700000060500000000\",\"up_to_utc\":\"2023-11-14T22:14:20Z\"}\n";

/// A quote, a backslash, ESC, an e with an acute accent, a byte that is no UTF-8, an LF and DEL.
const HOSTILE_NAME: &[u8; 13] = b"a\"b\\c\x1B\xC3\xA9\xFF\n\x7Fd~";

const HOSTILE_LINE: &str = "{\"begin\":\"1700000000000000000\",\
    \"begin_utc\":\"2023-11-14T22:13:20Z\",\"event\":\"checkpoint\",\
    \"file\":\"a\\\\x22b\\\\x5Cc\\\\x1B\\\\xC3\\\\xA9\\\\xFF\\\\x0A\\\\x7Fd~\",\
    \"schema\":\"turnwatch/1\",\
    \"up_to\":\"1700000060500000000\",\"up_to_utc\":\"2023-11-14T22:14:20Z\"}\n";

const FRAGMENT_LINE: &str = "{\"begin\":\"1700000000000000000\",\
    \"begin_utc\":\"2023-11-14T22:13:20Z\",\"capture\":\"turn_00017_20231114221400.pcapng\",\
    \"event\":\"unread\",\"frame\":1234,\"from\":\"203.0.113.9\",\"packets\":3,\
    \"reason\":\"V1 fragment\",\"schema\":\"turnwatch/1\",\"to\":\"192.0.2.1:3478\",\
    \"up_to\":\"1700000060500000000\",\"up_to_utc\":\"2023-11-14T22:14:20Z\"}\n";

/// Moments in the first and the last second that a stamp can have.
const EXTREME: Claim = Claim {
    begin: 0,
    up_to: u64::MAX,
};

const EXTREME_LINE: &str = "{\"begin\":\"0\",\
    \"begin_utc\":\"1970-01-01T00:00:00Z\",\"event\":\"claim\",\"schema\":\"turnwatch/1\",\
    \"up_to\":\"18446744073709551615\",\"up_to_utc\":\"2554-07-21T23:34:33Z\",\
    \"verdict\":\"conforming so far\"}\n";

const PLACE: FramePlace<'static> = FramePlace {
    capture: b"turn_00017_20231114221400.pcapng",
    frame: Some(1234),
};

fn address(a: u8, b: u8, c: u8, d: u8, port: u16) -> Addr {
    Addr {
        ip: u32::from_be_bytes([a, b, c, d]),
        port,
    }
}

fn breach() -> Breach<'static> {
    Breach {
        reason: BreachReason::Rule(Rule::AllocationOver),
        moment: 1_700_000_060_700_000_001,
        sight: SightId {
            iface: 1,
            index: 5678,
        },
        place: PLACE,
        pair: Some(Pair {
            client: address(198, 51, 100, 7, 40000),
            listen: address(192, 0, 2, 1, 3478),
        }),
        relayed: Some(address(192, 0, 2, 15, 50000)),
    }
}

fn unknown() -> Breach<'static> {
    Breach {
        reason: BreachReason::NotOwed,
        place: FramePlace {
            frame: None,
            ..PLACE
        },
        pair: None,
        relayed: None,
        ..breach()
    }
}

fn gap(to: Option<&'static [u8]>, reason: GapReason) -> Gap<'static> {
    Gap {
        from: PLACE.capture,
        to,
        reason,
    }
}

fn fragment() -> Unread<'static> {
    Unread {
        reason: UnreadReason::Fragment,
        from: Endpoint::Ip(u32::from_be_bytes([203, 0, 113, 9])),
        to: Endpoint::Address(address(192, 0, 2, 1, 3478)),
        packets: 3,
        first: PLACE,
    }
}

/// That a sink with room for a number of bytes gets so many of the line, and the wanted result.
fn assert_line(
    rt: &(impl Abort + AllocGlobal),
    claim: Claim,
    event: &Event<'_>,
    line: &str,
    room: usize,
    wanted: Result<(), WriteFault>,
) {
    let mut sink = Narrow::new(rt.alloc(), room);
    let written = write_event(rt.alloc(), claim, event, &mut sink);
    let line = line.as_bytes();
    let taken = line.get(..room).unwrap_or(line);
    assert_eq!(rt;
        (written, sink.bytes.as_slice(), sink.has_failed),
        (wanted, taken, wanted.is_err()),
        "room for {room} bytes"
    );
}

/// That this is the line of the event.
fn assert_event(rt: &(impl Abort + AllocGlobal), event: &Event<'_>, line: &str) {
    assert_line(rt, CLAIM, event, line, PLENTY, Ok(()));
}

#[test]
fn the_line_of_each_event(rt: HostRuntime) -> Result<(), Fail> {
    let later: &'static [u8] = b"turn_00019_20231114221600.pcapng";
    let missing = gap(Some(later), GapReason::Missing);
    let dropped = gap(None, GapReason::Dropped);
    assert_event(&rt, &Event::Claim, CLAIM_LINE);
    assert_event(&rt, &Event::End, END_LINE);
    assert_event(&rt, &Event::Breach(breach()), BREACH_LINE);
    assert_event(&rt, &Event::Breach(unknown()), UNKNOWN_LINE);
    assert_event(&rt, &Event::Gap(missing), GAP_LINE);
    assert_event(&rt, &Event::Gap(dropped), OPEN_GAP_LINE);
    assert_event(
        &rt,
        &Event::Checkpoint(b"/var/lib/turnwatch/checkpoint"),
        CHECKPOINT_LINE,
    );
    assert_event(&rt, &Event::Unread(fragment()), FRAGMENT_LINE);
    Ok(())
}

#[test]
fn the_label_of_a_breach(rt: HostRuntime) -> Result<(), Fail> {
    assert_eq!(rt; breach().reason.label(), "R5");
    assert_eq!(rt; unknown().reason.label(), "not owed");
    Ok(())
}

#[test]
fn a_hostile_name_is_printable(rt: HostRuntime) -> Result<(), Fail> {
    assert_event(&rt, &Event::Checkpoint(HOSTILE_NAME), HOSTILE_LINE);
    Ok(())
}

#[test]
fn the_extreme_moments_have_dates(rt: HostRuntime) -> Result<(), Fail> {
    assert_line(&rt, EXTREME, &Event::Claim, EXTREME_LINE, PLENTY, Ok(()));
    Ok(())
}

#[test]
fn a_sink_that_fails_has_a_prefix(rt: HostRuntime) -> Result<(), Fail> {
    let event = Event::Breach(breach());
    let fault = Err(WriteFault::Device);
    for room in 0..BREACH_LINE.len() {
        assert_line(&rt, CLAIM, &event, BREACH_LINE, room, fault);
    }
    assert_line(&rt, CLAIM, &event, BREACH_LINE, BREACH_LINE.len(), Ok(()));
    Ok(())
}
