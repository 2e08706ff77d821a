//! Leases, and tables of them.

mod usage;

use audit_expiry::{Lease, Leases};
use std::alloc::{AllocError, Global};
use std::process::Abort;
use std::test::Fail;

#[test]
fn usable_through_the_grace_and_gone_after_the_end(rt: HostRuntime) {
    let lease = Lease::lasting(7, 3);
    assert_eq!(rt; lease.until, 10);
    assert!(rt; lease.usable(15, 5));
    assert!(rt; !lease.usable(16, 5));
    assert!(rt; lease.gone(11));
    assert!(rt; !lease.gone(10));
}

#[test]
fn sums_stop_at_the_greatest_moment(rt: HostRuntime) {
    let lease = Lease::lasting(u64::MAX - 1, 5);
    assert_eq!(rt; lease.until, u64::MAX);
    assert!(rt; lease.usable(u64::MAX, 5));
    assert!(rt; !lease.gone(u64::MAX));
}

#[test]
fn keeps_the_last_lease_of_a_key(rt: HostRuntime) -> Result<(), Fail> {
    let mut leases: Leases<u32> = Leases::new(rt.alloc());
    assert_eq!(rt; leases.get(1), None);
    leases.put(1, Lease { until: 10 })?;
    leases.put(1, Lease { until: 20 })?;
    assert_eq!(rt; leases.get(1), Some(Lease { until: 20 }));
    assert!(rt; leases.any(|key, lease| key == 1 && lease.gone(21)));
    assert!(rt; !leases.any(|key, lease| key == 1 && lease.gone(20)));
    leases.remove(1);
    assert_eq!(rt; leases.get(1), None);
    Ok(())
}

/// More keys than the table has room for at first.
const KEYS: [u32; 24] = [
    11, 2, 13, 4, 15, 6, 17, 8, 19, 10, 1, 12, 3, 14, 5, 16, 7, 18, 9, 20, 2, 21, 22, 11,
];

// A table in which key 2 ends at 10, and then, if memory suffices, all keys at 30.
fn renewed(rt: &impl Abort, alloc: Global) -> Result<Leases<u32>, AllocError> {
    let mut leases = Leases::new(alloc);
    leases.put(2, Lease { until: 10 })?;
    if leases.put_all(&KEYS, Lease { until: 30 }).is_err() {
        assert_eq!(rt; leases.get(2), Some(Lease { until: 10 }));
        assert!(rt; !leases.any(|key, _| key != 2));
        return Err(AllocError);
    }
    Ok(leases)
}

#[test]
fn puts_all_keys_or_none(rt: HostRuntime) -> Result<(), Fail> {
    let leases = renewed(&rt, rt.alloc())?;
    for key in 1..23 {
        assert_eq!(rt; leases.get(key), Some(Lease { until: 30 }));
    }
    assert_eq!(rt; leases.get(23), None);
    Ok(())
}
