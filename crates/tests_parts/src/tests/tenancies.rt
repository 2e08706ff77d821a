//! Relayed addresses that two clients hold at once.

use audit_model::{Addr, At, Breach, Key, Rule, SightId, Tenancy};
use audit_tenancy::clash;
use std::alloc::Global;
use std::test::Fail;

const RELAYED: Addr = Addr {
    ip: 0xC000_0201,
    port: 50000,
};

fn key(moment: u64, tie: u32) -> Key {
    Key { moment, tie }
}

/// An allocation by the act 1 of the lane, for a request that is the lane's sighting.
fn tenancy(lane: u32, born: Key, last: u64, stopped: Option<Key>) -> Tenancy {
    Tenancy {
        born: At {
            key: born,
            lane,
            place: 1,
        },
        stopped,
        last,
        relayed: RELAYED,
        sight: SightId {
            iface: 0,
            index: lane,
        },
    }
}

fn held(lane: u32, born: Key) -> Breach {
    Breach {
        at: At {
            key: born,
            lane,
            place: 1,
        },
        sight: SightId {
            iface: 0,
            index: lane,
        },
        rule: Rule::AddressHeld,
        phase: 3,
    }
}

// A client gives an address up by the act at which another client gets it.
fn handed_over(alloc: Global, from: u32, to: u32) -> Result<Option<Breach>, Fail> {
    let at = key(2_000_000_000, 5);
    let first = tenancy(from, key(1_000_000_000, 0), 602_000_000_000, Some(at));
    let second = tenancy(to, at, 603_000_000_000, None);
    Ok(clash(alloc, &[second, first])?)
}

#[test]
fn an_address_given_up_before_by_lane_is_free(rt: HostRuntime) -> Result<(), Fail> {
    assert_eq!(rt; handed_over(rt.alloc(), 0, 1)?, None);
    Ok(())
}

#[test]
fn an_address_given_up_after_by_lane_is_held(rt: HostRuntime) -> Result<(), Fail> {
    let breach = held(0, key(2_000_000_000, 5));
    assert_eq!(rt; handed_over(rt.alloc(), 1, 0)?, Some(breach));
    Ok(())
}

#[test]
fn held_through_its_last_moment(rt: HostRuntime) -> Result<(), Fail> {
    let first = tenancy(3, key(100, 9), 500, None);
    let second = tenancy(4, key(500, 0), 900, None);
    assert_eq!(rt;
        clash(rt.alloc(), &[first, second])?,
        Some(held(4, key(500, 0)))
    );
    let later = tenancy(4, key(501, 0), 900, None);
    assert_eq!(rt; clash(rt.alloc(), &[first, later])?, None);
    Ok(())
}

#[test]
fn the_first_of_several_is_told(rt: HostRuntime) -> Result<(), Fail> {
    let mut other = tenancy(7, key(10, 0), 1000, None);
    other.relayed.port = 50001;
    let mut last = tenancy(8, key(30, 0), 1000, None);
    last.relayed.port = 50001;
    let first = tenancy(5, key(20, 0), 1000, None);
    let again = tenancy(5, key(40, 0), 2000, None);
    let second = tenancy(6, key(50, 0), 1000, None);
    let tenancies = [second, again, first, last, other];
    assert_eq!(rt; clash(rt.alloc(), &tenancies)?, Some(held(8, key(30, 0))));
    assert_eq!(rt;
        clash(rt.alloc(), &tenancies[..3])?,
        Some(held(6, key(50, 0)))
    );
    assert_eq!(rt; clash(rt.alloc(), &tenancies[1..3])?, None);
    assert_eq!(rt; clash(rt.alloc(), &[])?, None);
    Ok(())
}
