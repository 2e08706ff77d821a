//! Checks the sightings that `feed` reads from many datagrams, and that `feed_parallel` reads the
//! same. Below 4 MiB neither starts a thread.

use audit_model::{Addr, Side, SightId, Sighting, read_policy};
use audit_samples::{BuildFault, Capture, UdpDatagram};
use audit_sightings::{Intake, IntakeFault, IntakeFaultKind};
use std::alloc::{AllocError, Global};
use std::process::Abort;
use std::test::*;
use std::thread::Threads;

const SERVER: Addr = Addr {
    ip: 0xC000_0201,
    port: 3478,
};

const POLICY: &[u8] = b"turnaudit-policy 1\nlisten 192.0.2.1:3478\n";

const CLIENT: Addr = Addr {
    ip: 0xC633_6407,
    port: 40000,
};

/// The length of each packet block, and the offset of the flags of its IPv4 header.
const BLOCK: usize = 84;

const FLAGS: usize = 28 + 14 + 6;

/// The offset of the packet blocks.
const PACKETS: usize = 48;

/// An intake of one file, to which one thread fed these bytes, and the result of the feed.
fn fed(alloc: Global, bytes: &[u8]) -> Result<(Intake, Result<(), IntakeFault>), Fail> {
    let policy = read_policy(alloc, POLICY)?;
    let mut intake = Intake::new(alloc, policy);
    let file = intake.add_file()?;
    let said = intake.feed(file, bytes);
    Ok((intake, said))
}

/// The same by many threads.
fn fed_parallel<R: Threads + Sync>(
    rt: &R,
    alloc: Global,
    bytes: &[u8],
) -> Result<(Intake, Result<(), IntakeFault>), Fail> {
    let policy = read_policy(alloc, POLICY)?;
    let mut intake = Intake::new(alloc, policy);
    let file = intake.add_file()?;
    let said = intake.feed_parallel(rt, file, bytes);
    Ok((intake, said))
}

/// This number of pairs of a datagram of the client and one to it; each has the number of its pair
/// as payload and as stamp.
fn capture(alloc: Global, pairs: u64) -> Result<Capture, BuildFault> {
    let mut capture = Capture::new(alloc)?;
    for pair in 0..pairs {
        let payload = pair.to_be_bytes();
        let (arriving, leaving) = (
            UdpDatagram {
                side: Side::Arrives,
                from: CLIENT,
                to: SERVER,
                payload: &payload,
            },
            UdpDatagram {
                side: Side::Leaves,
                from: SERVER,
                to: CLIENT,
                payload: &payload,
            },
        );
        capture.add(alloc, pair, &arriving)?;
        capture.add(alloc, pair, &leaving)?;
    }
    Ok(capture)
}

/// The capture's bytes, with the packet after `before` others changed to the first fragment of a
/// longer datagram.
fn with_fragment(alloc: Global, capture: &Capture, before: usize) -> Result<Vec<u8>, AllocError> {
    let mut bytes = Vec::from_slice(alloc, capture.bytes())?;
    let place = before.saturating_mul(BLOCK).saturating_add(PACKETS + FLAGS);
    if let Some(flags) = bytes.get_mut(place) {
        *flags = 0x20;
    }
    Ok(bytes)
}

/// The facts of a sighting, except its payload.
fn facts(sighting: &Sighting) -> ((SightId, Side), (Addr, Addr), (u64, u64, u64)) {
    (
        (sighting.id, sighting.side),
        (sighting.from, sighting.to),
        (sighting.stamp, sighting.lo, sighting.hi),
    )
}

/// Checks that both have this number of sightings, the same ones, each with the number of its pair.
fn assert_same(rt: &impl Abort, one: &Intake, many: &Intake, sightings: u32) -> Result<(), Fail> {
    for index in 0..sightings {
        let id = SightId { iface: 0, index };
        let by_one = one.sighting(id).ok_or("it is there")?;
        let by_many = many.sighting(id).ok_or("it is there")?;
        let number = u64::from(index) / 2;
        assert_eq!(rt; by_one.payload.as_slice(), number.to_be_bytes().as_slice());
        assert_eq!(rt; by_many.payload.as_slice(), by_one.payload.as_slice());
        assert_eq!(rt; facts(by_many), facts(by_one));
    }
    Ok(())
}

#[test]
fn as_many_threads_take_them_in(rt: HostRuntime) -> Result<(), Fail> {
    let alloc = rt.alloc();
    for (pairs, sightings) in [(2500u64, 5000u32), (30_000, 60_000)] {
        let capture = capture(alloc, pairs)?;
        let (one, fed_by_one) = fed(alloc, capture.bytes())?;
        let (many, fed_by_many) = fed_parallel(&rt, alloc, capture.bytes())?;
        assert_eq!(rt; (fed_by_one, fed_by_many), (Ok(()), Ok(())));
        assert_eq!(rt;
            (one.counts(), many.counts()),
            ((1, sightings), (1, sightings))
        );
        assert_same(&rt, &one, &many, sightings)?;
        many.finish()?;
    }
    Ok(())
}

#[test]
fn what_comes_before_a_fragment_is_kept(rt: HostRuntime) -> Result<(), Fail> {
    let alloc = rt.alloc();
    for (pairs, kept) in [(2500u64, 3000u32), (30_000, 50_000)] {
        let capture = capture(alloc, pairs)?;
        let bytes = with_fragment(alloc, &capture, kept as usize)?;
        let (one, fed_by_one) = fed(alloc, &bytes)?;
        let (many, fed_by_many) = fed_parallel(&rt, alloc, &bytes)?;
        let fragment = Err(IntakeFault {
            kind: IntakeFaultKind::Fragment,
            file: 0,
        });
        let failed = Err(IntakeFault {
            kind: IntakeFaultKind::Failed,
            file: 0,
        });
        assert_eq!(rt; (fed_by_one, fed_by_many), (fragment, fragment));
        assert_eq!(rt; (one.counts(), many.counts()), ((1, kept), (1, kept)));
        assert_eq!(rt; many.finish(), failed);
    }
    Ok(())
}
