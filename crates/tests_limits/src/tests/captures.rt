//! The most files, sightings and bytes of a packet that captures may have.

use audit_model::{Addr, Policy, Side, read_policy};
use audit_samples::{BuildFault, Capture, UdpDatagram};
use audit_sightings::{Intake, IntakeFault, IntakeFaultKind};
use std::alloc::Global;
use std::test::Fail;

const SERVER: Addr = Addr {
    ip: 0xC000_0201,
    port: 3478,
};

const CLIENT: Addr = Addr {
    ip: 0xC633_6407,
    port: 40000,
};

fn policy(alloc: Global) -> Result<Policy, Fail> {
    Ok(read_policy(alloc, b"turnaudit-policy 1\nlisten 192.0.2.1:3478\n")?)
}

/// This number of the client's datagrams, one in each microsecond.
fn capture(alloc: Global, datagrams: u64, payload: &[u8]) -> Result<Capture, BuildFault> {
    let mut capture = Capture::new(alloc)?;
    let datagram = UdpDatagram {
        side: Side::Arrives,
        from: CLIENT,
        to: SERVER,
        payload,
    };
    for stamp in 0..datagrams {
        capture.add(alloc, stamp, &datagram)?;
    }
    Ok(capture)
}

#[test]
fn sixteen_files(rt: HostRuntime) -> Result<(), Fail> {
    let capture = capture(rt.alloc(), 1, b"")?;
    let mut intake = Intake::new(rt.alloc(), policy(rt.alloc())?);
    'files: for number in 0..16u32 {
        let file = intake.add_file()?;
        assert_eq!(rt; file, number);
        intake.feed(file, capture.bytes())?;
    }
    let refused = IntakeFault {
        kind: IntakeFaultKind::Limit,
        file: 16,
    };
    assert_eq!(rt; intake.add_file().err(), Some(refused));
    assert_eq!(rt; intake.counts(), (16, 16));
    Ok(())
}

#[test]
fn sightings_of_one_interface_200000(rt: HostRuntime) -> Result<(), Fail> {
    let capture = capture(rt.alloc(), 200_000, &[1, 2, 3])?;
    let mut intake = Intake::new(rt.alloc(), policy(rt.alloc())?);
    let file = intake.add_file()?;
    intake.feed(file, capture.bytes())?;
    intake.finish()?;
    assert_eq!(rt; intake.interface(0).len(), 200_000);
    Ok(())
}

/// The largest datagram, truncated by nine bytes.
fn cut_capture(alloc: Global) -> Result<Vec<u8>, Fail> {
    let payload = vec![in alloc; 7u8; 65_507]?;
    let whole = capture(alloc, 1, &payload)?;
    let bytes = whole.bytes();
    let mut cut = Vec::from_slice(alloc, bytes.get(..48).unwrap_or(&[]))?;
    for number in [6u32, 65_572, 0, 0, 0, 65_540, 65_549] {
        cut.extend_from_slice(&number.to_le_bytes())?;
    }
    cut.extend_from_slice(bytes.get(76..76 + 65_540).unwrap_or(&[]))?;
    cut.extend_from_slice(&65_572u32.to_le_bytes())?;
    Ok(cut)
}

/// Why a capture in two pieces is refused.
fn refused_in_two(alloc: Global, front: &[u8], rest: &[u8]) -> Result<Option<IntakeFault>, Fail> {
    let mut intake = Intake::new(alloc, policy(alloc)?);
    let file = intake.add_file()?;
    intake.feed(file, front)?;
    Ok(intake.feed(file, rest).err())
}

#[test]
fn cut_packet_of_more_than_64_kib(rt: HostRuntime) -> Result<(), Fail> {
    let cut = cut_capture(rt.alloc())?;
    assert_eq!(rt; cut.len(), 65_620);
    let refused = IntakeFault {
        kind: IntakeFaultKind::CutDatagram,
        file: 0,
    };
    for size in [0, 100, 65_536, 65_619] {
        let front = cut.get(..size).unwrap_or(&[]);
        let rest = cut.get(size..).unwrap_or(&[]);
        assert_eq!(rt; refused_in_two(rt.alloc(), front, rest)?, Some(refused));
    }
    Ok(())
}
