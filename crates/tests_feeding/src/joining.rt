//! The files of two intakes together.

ghost use Rattle.std.specs.Prelude.{◌≡◌, IfOk};

use audit_model::{Addr, Side, SightId, read_policy};
use audit_samples::{BuildFault, Capture, UdpDatagram};
use audit_sightings::{Intake, IntakeFault, IntakeFaultKind};
use std::alloc::Global;
use std::test::*;

const POLICY: &[u8] = b"turnaudit-policy 1\nlisten 192.0.2.1:3478\n";

const SERVER: Addr = Addr {
    ip: 0xC000_0201,
    port: 3478,
};

/// A capture of one datagram with this payload, at this stamp, from a client.
fn capture(alloc: Global, payload: &[u8], stamp: u64) -> Result<Capture, BuildFault> {
    let mut capture = Capture::new(alloc)?;
    let datagram = UdpDatagram {
        side: Side::Arrives,
        from: Addr {
            ip: 0xC633_6407,
            port: 40000,
        },
        to: SERVER,
        payload,
    };
    capture.add(alloc, stamp, &datagram)?;
    Ok(capture)
}

/// An intake of one file, and one of two files of which only the second one is fed.
fn apart(alloc: Global, first: &[u8], second: &[u8]) -> Result<(Intake, Intake), Fail>
    ensures { IfOk result (λ both. both.1.policy ≡ both.0.policy) }
{
    let mut one = Intake::new(alloc, read_policy(alloc, POLICY)?);
    let mut other = one.beside()?;
    let file = one.add_file()?;
    let _ = one.feed(file, first);
    other.add_file()?;
    let file = other.add_file()?;
    let _ = other.feed(file, second);
    Ok((one, other))
}

#[test]
fn joined_files_are_as_fed_to_one(rt: HostRuntime) -> Result<(), Fail> {
    let alloc = rt.alloc();
    let (first, second) = (
        capture(alloc, b"one", 3000)?,
        capture(alloc, b"three", 5000)?,
    );
    let (one, other) = apart(alloc, first.bytes(), second.bytes())?;
    let both = one.joined(other)?;
    assert_eq!(rt; (both.counts(), both.interfaces()), ((2, 2), 65));
    for (iface, payload) in [(0u32, b"one".as_slice()), (64, b"three".as_slice())] {
        let sighting = both
            .sighting(SightId { iface, index: 0 })
            .ok_or("it is there")?;
        assert_eq!(rt; sighting.payload.as_slice(), payload);
    }
    let mut whole = both.beside()?;
    for bytes in [first.bytes(), second.bytes()] {
        let file = whole.add_file()?;
        whole.feed(file, bytes)?;
    }
    assert_eq!(rt;
        (both.newest(0), both.newest(1)),
        (whole.newest(0), whole.newest(1))
    );
    assert!(rt; both.newest(0) < both.newest(1));
    both.finish()?;
    Ok(())
}

#[test]
fn the_others_fault_stays(rt: HostRuntime) -> Result<(), Fail> {
    let alloc = rt.alloc();
    let first = capture(alloc, b"one", 3000)?;
    let (one, other) = apart(alloc, first.bytes(), b"this is no capture of blocks")?;
    let mut both = one.joined(other)?;
    let failed = Err(IntakeFault {
        kind: IntakeFaultKind::Failed,
        file: 1,
    });
    assert_eq!(rt; (both.counts(), both.finish()), ((2, 1), failed));
    assert_eq!(rt; both.feed(0, b""), failed);
    Ok(())
}

#[test]
fn none_is_joined_after_a_fault(rt: HostRuntime) -> Result<(), Fail> {
    let alloc = rt.alloc();
    let second = capture(alloc, b"three", 5000)?;
    let (one, other) = apart(alloc, b"this is no capture of blocks", second.bytes())?;
    let failed = IntakeFault {
        kind: IntakeFaultKind::Failed,
        file: 0,
    };
    assert_eq!(rt; one.joined(other).err(), Some(failed));
    Ok(())
}
