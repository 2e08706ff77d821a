//! An audit in turns, over a capture of a Binding request and its success: the calls of each test
//! and what each of them has to answer.

use audit_keys::Credentials;
use audit_live::{Live, LiveEnd, LiveFault, Progress};
use audit_model::{
    Addr, At, Breach, Event, Extension, Key, Listed, Rule, Side, SightId, Verdict, read_policy,
};
use audit_pcapng::CaptureFault;
use audit_samples::{BuildFault, Capture, MessageBuilder, UdpDatagram};
use audit_sightings::{IntakeFault, IntakeFaultKind};
use audit_stun::Class;
use audit_stun::numbers::attribute::XOR_MAPPED_ADDRESS;
use audit_stun::numbers::method::BINDING;
use std::alloc::{AllocError, Global};
use std::process::Abort;
use std::test::Fail;

const SERVER: Addr = Addr {
    ip: 0xC000_0201,
    port: 3478,
};

const CLIENT: Addr = Addr {
    ip: 0xC633_6407,
    port: 40000,
};

const OTHER: Addr = Addr {
    ip: 0xC633_6407,
    port: 40001,
};

/// The request of the client, and a success that tells it this address.
fn capture(alloc: Global, mapped: Addr) -> Result<Capture, BuildFault> {
    let transaction = [0, 1, 2, 3, 4, 5, 6, 7, 8, 9, 10, 11];
    let request = MessageBuilder::new(alloc, Class::Request, BINDING, transaction);
    let success = MessageBuilder::new(alloc, Class::Success, BINDING, transaction).with_address(
        XOR_MAPPED_ADDRESS,
        mapped,
    )?;
    let mut capture = Capture::new(alloc)?;
    capture.add(
        alloc,
        1_000,
        &UdpDatagram {
            side: Side::Arrives,
            from: CLIENT,
            to: SERVER,
            payload: &request.payload(alloc)?,
        },
    )?;
    capture.add(
        alloc,
        1_500,
        &UdpDatagram {
            side: Side::Leaves,
            from: SERVER,
            to: CLIENT,
            payload: &success.payload(alloc)?,
        },
    )?;
    Ok(capture)
}

/// What a certificate gains in a turn.
#[derive(Clone, Copy)]
struct Turn<'a> {
    lanes: &'a [(Addr, Addr)],
    events: &'a [(u32, Event)],
}

/// A call and what it has to answer.
#[derive(Clone, Copy)]
enum Step<'a> {
    AddFile(Result<u32, LiveFault>),
    Feed(&'a [u8], Result<(), LiveFault>),
    Advance(u64, Turn<'a>, Result<Progress, LiveFault>),
    Finish(Result<Verdict, LiveEnd>),
}

fn advance(
    alloc: Global,
    live: &mut Live,
    horizon: u64,
    turn: Turn,
) -> Result<Result<Progress, LiveFault>, AllocError> {
    let extension = Extension {
        lanes: Listed::from(Vec::from_slice(alloc, turn.lanes)?),
        events: Listed::from(Vec::from_slice(alloc, turn.events)?),
        drops: Listed::new(alloc),
    };
    Ok(live.advance(horizon, extension))
}

fn feed(live: &mut Live, piece: &[u8]) -> Result<Result<(), LiveFault>, Fail> {
    if live.intake().counts().0 == 0 {
        return Err(Fail::from("no capture was added"));
    }
    Ok(live.feed(0, piece))
}

fn open(alloc: Global) -> Result<Live, Fail> {
    let policy = read_policy(
        alloc,
        b"turnaudit-policy 1\nlisten 192.0.2.1:3478\nrelay 192.0.2.1:49152-65535\n",
    )?;
    Ok(Live::open(alloc, policy, Credentials::read(alloc, b"")?))
}

/// That each step of an audit is answered as it says.
fn play(rt: &(impl Abort + AllocGlobal), steps: &[Step]) -> Result<(), Fail> {
    let alloc = rt.alloc();
    let mut live = open(alloc)?;
    for (number, step) in steps.iter().enumerate() {
        match *step {
            Step::AddFile(answer) => {
                assert_eq!(rt; live.add_file(), answer, "step {number}");
            }
            Step::Feed(piece, answer) => {
                assert_eq!(rt; feed(&mut live, piece)?, answer, "step {number}");
            }
            Step::Advance(horizon, turn, answer) => {
                let given = advance(alloc, &mut live, horizon, turn)?;
                assert_eq!(rt; given, answer, "step {number}");
            }
            Step::Finish(answer) => {
                assert_eq!(rt; live.finish(), answer, "step {number}");
            }
        }
    }
    Ok(())
}

const REQUEST: SightId = SightId { iface: 0, index: 0 };

const SUCCESS: SightId = SightId { iface: 0, index: 1 };

/// When the request arrived, and when it was answered.
const ARRIVED: Key = Key {
    moment: 1_000_000,
    tie: 0,
};

const ACTED: Key = Key {
    moment: 1_000_000,
    tie: 1,
};

const NOTHING: Turn<'static> = Turn {
    lanes: &[],
    events: &[],
};

/// The turn of the request and its answer, which hasn't left.
const ANSWERED: Turn<'static> = Turn {
    lanes: &[(CLIENT, SERVER)],
    events: &[
        (
            0,
            Event::In {
                sight: REQUEST,
                key: ARRIVED,
            },
        ),
        (
            0,
            Event::Act {
                sight: REQUEST,
                gives: SUCCESS,
                key: ACTED,
            },
        ),
    ],
};

const fn progress(horizon: u64, placed: u32, lanes: u32, owed: u32) -> Result<Progress, LiveFault> {
    Ok(Progress {
        horizon,
        placed,
        lanes,
        owed,
    })
}

/// Turns in which the success leaves: at the last horizon, past the new one, in time, and with the
/// lane once more.
const TOO_EARLY: Turn<'static> = Turn {
    lanes: &[],
    events: &[(
        0,
        Event::Out {
            sight: SUCCESS,
            key: Key {
                moment: 1_200_000,
                tie: 0,
            },
        },
    )],
};

const TOO_LATE: Turn<'static> = Turn {
    lanes: &[],
    events: &[(
        0,
        Event::Out {
            sight: SUCCESS,
            key: Key {
                moment: 1_500_001,
                tie: 0,
            },
        },
    )],
};

const IN_TIME: Turn<'static> = Turn {
    lanes: &[],
    events: &[(
        0,
        Event::Out {
            sight: SUCCESS,
            key: Key {
                moment: 1_500_000,
                tie: 0,
            },
        },
    )],
};

const LANE_AGAIN: Turn<'static> = Turn {
    lanes: &[(CLIENT, SERVER)],
    events: &[(
        0,
        Event::Out {
            sight: SUCCESS,
            key: Key {
                moment: 1_500_000,
                tie: 0,
            },
        },
    )],
};

/// A fault of the first capture.
const fn refused(fault: CaptureFault) -> IntakeFault {
    IntakeFault {
        kind: IntakeFaultKind::Capture(fault),
        file: 0,
    }
}

const NOT_SHOWN: Breach = Breach {
    at: At {
        key: ACTED,
        lane: 0,
        place: 1,
    },
    sight: REQUEST,
    rule: Rule::MappedAddress,
    phase: 2,
};

/// The success, behind the last lane.
const UNPLACED: Breach = Breach {
    at: At {
        key: Key {
            moment: 1_500_000,
            tie: 0,
        },
        lane: 1,
        place: 0,
    },
    sight: SUCCESS,
    rule: Rule::Unplaced,
    phase: 1,
};

const CONFORMING: Verdict = Verdict::Conforming {
    datagrams: 2,
    lanes: 1,
};

#[test]
fn refused_turns_change_nothing(rt: HostRuntime) -> Result<(), Fail> {
    let capture = capture(rt.alloc(), CLIENT)?;
    let (Some(front), Some(last)) = (capture.bytes().get(..251), capture.bytes().get(251..)) else {
        return Err(Fail::from("the capture is too short"));
    };
    let steps = [
        Step::AddFile(Ok(0)),
        Step::Feed(front, Ok(())),
        Step::Finish(Err(LiveEnd::Input(refused(CaptureFault::Torn)))),
        Step::Advance(999_999, NOTHING, progress(999_999, 0, 0, 0)),
        Step::Advance(999_999, NOTHING, Err(LiveFault::Horizon)),
        Step::Feed(last, Ok(())),
        Step::Advance(1_200_000, ANSWERED, progress(1_200_000, 1, 1, 1)),
        Step::Finish(Ok(Verdict::NotShown(UNPLACED))),
        Step::Advance(1_500_000, TOO_EARLY, Err(LiveFault::OutOfTurn)),
        Step::Advance(1_500_000, TOO_LATE, Err(LiveFault::OutOfTurn)),
        Step::Advance(1_500_000, LANE_AGAIN, Err(LiveFault::Lane)),
        Step::Advance(1_500_000, IN_TIME, progress(1_500_000, 2, 1, 0)),
        Step::Finish(Ok(CONFORMING)),
    ];
    play(&rt, &steps)
}

#[test]
fn the_first_breach_ends_the_audit(rt: HostRuntime) -> Result<(), Fail> {
    let capture = capture(rt.alloc(), OTHER)?;
    let steps = [
        Step::AddFile(Ok(0)),
        Step::Feed(capture.bytes(), Ok(())),
        Step::Advance(1_200_000, ANSWERED, Err(LiveFault::Breach(NOT_SHOWN))),
        Step::Feed(&[], Err(LiveFault::Ended)),
        Step::AddFile(Err(LiveFault::Ended)),
        Step::Advance(1_500_000, NOTHING, Err(LiveFault::Ended)),
        Step::Finish(Ok(Verdict::NotShown(NOT_SHOWN))),
    ];
    play(&rt, &steps)
}

#[test]
fn a_refused_capture_ends_the_audit(rt: HostRuntime) -> Result<(), Fail> {
    // A section whose total length is 16.
    let section = [
        0x0a, 0x0d, 0x0d, 0x0a, 16, 0, 0, 0, 0x4d, 0x3c, 0x2b, 0x1a, 1, 0, 0, 0,
    ];
    let fault = refused(CaptureFault::Length);
    let steps = [
        Step::AddFile(Ok(0)),
        Step::Feed(&section, Err(LiveFault::Input(fault))),
        Step::AddFile(Err(LiveFault::Ended)),
        Step::Feed(&[], Err(LiveFault::Ended)),
        Step::Advance(1, NOTHING, Err(LiveFault::Ended)),
        Step::Finish(Err(LiveEnd::Input(fault))),
    ];
    play(&rt, &steps)
}
