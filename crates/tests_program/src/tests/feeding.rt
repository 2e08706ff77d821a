//! Many datagrams in one feed.

use audit_model::read_policy;
use audit_sightings::{Intake, IntakeFault, IntakeFaultKind, Side, SightId};
use std::alloc::{AllocError, Global};
use std::test::Fail;
use tests_host::{POLICY, Parts, binding_capture, binding_parts};

/// The offset of the Binding capture's packets, and that of the second one.
const PACKETS: usize = 48;

const SUCCESS: usize = 144;

/// The Binding capture with its two packets 2,500 times. The requests from pair `changed` on are
/// those of `parts`.
fn repeated(alloc: Global, parts: &Parts<'_>, changed: u32) -> Result<Vec<u8>, AllocError> {
    let plain = binding_capture(alloc, &binding_parts())?;
    let other = binding_capture(alloc, parts)?;
    let mut out = Vec::new(alloc);
    out.extend_from_slice(plain.get(..PACKETS).unwrap_or(&[]))?;
    for pair in 0..2500u32 {
        let from = if pair < changed { &plain } else { &other };
        out.extend_from_slice(from.get(PACKETS..SUCCESS).unwrap_or(&[]))?;
        out.extend_from_slice(plain.get(SUCCESS..).unwrap_or(&[]))?;
    }
    Ok(out)
}

#[test]
fn five_thousand_sightings_by_one_feed(rt: HostRuntime) -> Result<(), Fail> {
    let alloc = rt.alloc();
    let policy = read_policy(alloc, POLICY.as_bytes())?;
    let mut intake = Intake::new(alloc, policy);
    let file = intake.add_file()?;
    let capture = repeated(alloc, &binding_parts(), 2500)?;
    assert_eq!(rt; capture.len(), 510_048);
    intake.feed(file, &capture)?;
    intake.finish()?;
    assert_eq!(rt; intake.counts(), (1, 5000));
    assert_eq!(rt; intake.interfaces(), 1);
    assert_eq!(rt; intake.interface(0).len(), 5000);
    for (index, side, size) in [(0, Side::Arrives, 20), (4999, Side::Leaves, 32)] {
        let sighting = intake
            .sighting(SightId { iface: 0, index })
            .ok_or("it is there")?;
        assert_eq!(rt; sighting.side, side);
        assert_eq!(rt; sighting.payload.len(), size);
    }
    assert!(rt;
        intake
            .sighting(SightId {
                iface: 0,
                index: 5000
            })
            .is_none()
    );
    Ok(())
}

#[test]
fn what_comes_before_a_fragment_is_kept(rt: HostRuntime) -> Result<(), Fail> {
    let alloc = rt.alloc();
    let policy = read_policy(alloc, POLICY.as_bytes())?;
    let mut intake = Intake::new(alloc, policy);
    let file = intake.add_file()?;
    let mut fragment = binding_parts();
    fragment.first_flags = [0x20, 0x00];
    let fed = intake.feed(file, &repeated(alloc, &fragment, 1500)?);
    assert_eq!(rt;
        fed,
        Err(IntakeFault {
            kind: IntakeFaultKind::Fragment,
            file: 0
        })
    );
    assert_eq!(rt; intake.counts(), (1, 3000));
    let failed = IntakeFault {
        kind: IntakeFaultKind::Failed,
        file: 0,
    };
    assert_eq!(rt; intake.feed(file, &[]), Err(failed));
    assert_eq!(rt; intake.finish(), Err(failed));
    assert_eq!(rt; intake.add_file(), Err(failed));
    assert_eq!(rt; intake.counts(), (1, 3000));
    Ok(())
}
