//! Placement in portions, for captures of two clients.

ghost use Rattle.std.specs.Prelude.{OnOk};
ghost use Rattle.audit_sightings.specs.Intake.{taken};
ghost use Rattle.audit_order.specs.Kept.{Keeps};

use audit_model::{
    Addr, At, Breach, CertDrop, Event, Extension, Key, Listed, Rule, Side, SightId, read_policy,
};
use audit_order::Placing;
use audit_samples::{BuildFault, Capture, UdpDatagram};
use audit_sightings::Intake;
use std::alloc::{AllocError, Global};
use std::process::Abort;
use std::test::Fail;

const SERVER: Addr = Addr {
    ip: 0xC000_0201,
    port: 3478,
};

const CLIENT: Addr = Addr {
    ip: 0xC633_6407,
    port: 40000,
};

const OTHER: Addr = Addr {
    ip: 0xC633_6408,
    port: 40000,
};

/// The client's datagram, the server's response, and a datagram of another client, within the skew
/// of each other.
fn capture(alloc: Global) -> Result<Capture, BuildFault> {
    let mut capture = Capture::new(alloc)?;
    for (stamp, side, from, to) in [
        (1_000_000, Side::Arrives, CLIENT, SERVER),
        (1_000_200, Side::Leaves, SERVER, CLIENT),
        (1_000_400, Side::Arrives, OTHER, SERVER),
    ] {
        let payload = &[1, 2];
        capture.add(
            alloc,
            stamp,
            &UdpDatagram {
                side,
                from,
                to,
                payload,
            },
        )?;
    }
    Ok(capture)
}

/// An intake with one file, to which these bytes are fed.
fn intake(alloc: Global, bytes: &[u8]) -> Result<Intake, Fail> {
    let policy = read_policy(alloc, b"turnaudit-policy 1\nlisten 192.0.2.1:3478\n")?;
    let mut intake = Intake::new(alloc, policy);
    let file = intake.add_file()?;
    intake.feed(file, bytes)?;
    Ok(intake)
}

fn sight(index: u32) -> SightId {
    SightId { iface: 0, index }
}

fn key(moment: u64) -> Key {
    Key { moment, tie: 0 }
}

/// The additions of a portion to a certificate.
#[derive(Clone, Copy)]
struct Gained<'a> {
    lanes: &'a [(Addr, Addr)],
    events: &'a [(u32, Event)],
    drops: &'a [CertDrop],
}

/// The state after the additions: whether a rule is violated, how many sightings are placed, and
/// the first one that isn't.
#[derive(Clone, Copy, Debug, PartialEq, Eq)]
struct State {
    answer: Result<(), Breach>,
    count: u32,
    unplaced: Option<SightId>,
}

fn portion(alloc: Global, gained: Gained<'_>) -> Result<Extension, AllocError> {
    Ok(Extension {
        lanes: Listed::from(Vec::from_slice(alloc, gained.lanes)?),
        events: Listed::from(Vec::from_slice(alloc, gained.events)?),
        drops: Listed::from(Vec::from_slice(alloc, gained.drops)?),
    })
}

/// Adds a portion that fits.
fn added(
    placing: &mut Placing,
    intake: &Intake,
    portion: &Extension,
) -> Result<Result<(), Breach>, Fail>
    requires { Keeps (taken intake.now) placing.old }
    ensures { OnOk result (Keeps (taken intake.now) placing.new) }
{
    if !placing.fits(portion)? {
        return Err(Fail::new("the portion does not fit"));
    }
    Ok(placing.add(intake, portion)?)
}

/// Adds a portion to a certificate, and returns the state.
fn state_after(
    alloc: Global,
    placing: &mut Placing,
    intake: &Intake,
    gained: Gained<'_>,
) -> Result<State, Fail>
    requires { Keeps (taken intake.now) placing.old }
    ensures { OnOk result (Keeps (taken intake.now) placing.new) }
{
    let portion = portion(alloc, gained)?;
    let answer = added(placing, intake, &portion)?;
    Ok(State {
        answer,
        count: placing.count(),
        unplaced: placing.unplaced(intake).map(|breach| breach.sight),
    })
}

/// Checks the state after each portion.
fn play(rt: &(impl Abort + AllocGlobal), portions: &[(Gained<'_>, State)]) -> Result<(), Fail> {
    let alloc = rt.alloc();
    let intake = intake(alloc, capture(alloc)?.bytes())?;
    let mut placing = Placing::new(alloc);
    'portions: for (gained, state) in portions {
        assert_eq!(rt; state_after(alloc, &mut placing, &intake, *gained)?, *state);
    }
    Ok(())
}

/// An event that places the arrival of a sighting at a moment.
fn arrives(index: u32, moment: u64) -> Event {
    Event::In {
        sight: sight(index),
        key: key(moment),
    }
}

/// The breach of a rule by the first event of the second lane.
fn broken(moment: u64, index: u32, rule: Rule) -> Breach {
    Breach {
        at: At {
            key: key(moment),
            lane: 1,
            place: 0,
        },
        sight: sight(index),
        rule,
        phase: 1,
    }
}

#[test]
fn portions_are_placed_as_they_come(rt: HostRuntime) -> Result<(), Fail> {
    let act = Event::Act {
        sight: sight(0),
        gives: sight(1),
        key: key(1_000_100_000),
    };
    let answer = Event::Out {
        sight: sight(1),
        key: key(1_000_200_000),
    };
    let dropped = CertDrop {
        sight: sight(2),
        key: key(1_000_400_000),
    };
    let first = Gained {
        lanes: &[(CLIENT, SERVER)],
        events: &[(0, arrives(0, 1_000_000_000))],
        drops: &[],
    };
    let second = Gained {
        lanes: &[],
        events: &[(0, act), (0, answer)],
        drops: &[dropped],
    };
    let one = State {
        answer: Ok(()),
        count: 1,
        unplaced: Some(sight(1)),
    };
    let all = State {
        answer: Ok(()),
        count: 3,
        unplaced: None,
    };
    play(&rt, &[(first, one), (second, all)])
}

#[test]
fn a_first_placement_that_comes_later_makes_the_earlier_one_the_second(
    rt: HostRuntime,
) -> Result<(), Fail> {
    let first = Gained {
        lanes: &[(OTHER, SERVER), (CLIENT, SERVER)],
        events: &[(1, arrives(0, 1_000_000_000))],
        drops: &[],
    };
    let again = Gained {
        lanes: &[],
        events: &[(0, arrives(0, 1_000_100_000))],
        drops: &[],
    };
    let no_events = [];
    let nothing = Gained {
        lanes: &[],
        events: &no_events,
        drops: &[],
    };
    let one = State {
        answer: Ok(()),
        count: 1,
        unplaced: Some(sight(1)),
    };
    let twice = State {
        answer: Err(broken(1_000_000_000, 0, Rule::PlacedTwice)),
        count: 2,
        unplaced: Some(sight(1)),
    };
    play(&rt, &[(first, one), (again, twice), (nothing, twice)])
}

#[test]
fn a_neighbour_that_comes_later_shows_the_order(rt: HostRuntime) -> Result<(), Fail> {
    let answer = Event::Out {
        sight: sight(1),
        key: key(1_000_100_000),
    };
    let of_other = Gained {
        lanes: &[(CLIENT, SERVER), (OTHER, SERVER)],
        events: &[(1, arrives(2, 1_000_100_000))],
        drops: &[],
    };
    let of_client = Gained {
        lanes: &[],
        events: &[(0, answer)],
        drops: &[],
    };
    let one = State {
        answer: Ok(()),
        count: 1,
        unplaced: Some(sight(0)),
    };
    let two = State {
        answer: Err(broken(1_000_100_000, 2, Rule::InterfaceOrder)),
        count: 2,
        unplaced: Some(sight(0)),
    };
    play(&rt, &[(of_other, one), (of_client, two)])
}

/// Whether a portion with these lanes and one event, of that lane, fits an empty certificate.
fn fits(alloc: Global, lanes: &[(Addr, Addr)], lane: u32) -> Result<bool, Fail> {
    let gained = Gained {
        lanes,
        events: &[(lane, arrives(0, 1_000_000_000))],
        drops: &[],
    };
    Ok(Placing::new(alloc).fits(&portion(alloc, gained)?)?)
}

#[test]
fn what_does_not_fit_is_told(rt: HostRuntime) -> Result<(), Fail> {
    let alloc = rt.alloc();
    let pair = (CLIENT, SERVER);
    assert_eq!(rt; fits(alloc, &[pair], 0)?, true);
    assert_eq!(rt; fits(alloc, &[pair], 1)?, false);
    assert_eq!(rt; fits(alloc, &[pair, pair], 0)?, false);
    Ok(())
}
