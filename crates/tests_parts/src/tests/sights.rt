//! Values of sightings.

mod usage;

use audit_model::SightId;
use audit_sights::SightMap;
use std::test::Fail;
use usage::{Seen, note};

fn sight(iface: u32, index: u32) -> SightId {
    SightId { iface, index }
}

#[test]
fn finds_what_rose_and_what_did_not(rt: HostRuntime) -> Result<(), Fail> {
    let mut map: SightMap<u64> = SightMap::new(rt.alloc());
    for index in 10..30 {
        map.put(sight(64, index), u64::from(index))?;
    }
    map.put(sight(64, 4), 4)?;
    map.put(sight(64, 2), 2)?;
    map.put(sight(0, 20), 7)?;
    map.put(sight(64, 12), 8)?;
    map.put(sight(64, 4), 9)?;
    for index in 13..30 {
        assert_eq!(rt; map.get(sight(64, index)), Some(u64::from(index)));
    }
    for (iface, index, wanted) in [
        (64, 12, Some(8)),
        (64, 4, Some(9)),
        (64, 2, Some(2)),
        (0, 20, Some(7)),
        (64, 3, None),
        (64, 30, None),
        (1, 20, None),
    ] {
        assert_eq!(rt; map.get(sight(iface, index)), wanted, "{iface}.{index}");
    }
    Ok(())
}

#[test]
fn notes_the_first_alone(rt: HostRuntime) -> Result<(), Fail> {
    let mut map = SightMap::new(rt.alloc());
    note(&mut map, sight(0, 1), 5)?;
    note(&mut map, sight(0, 1), 6)?;
    let seen = Seen {
        moment: 5,
        acted: false,
    };
    assert_eq!(rt; map.get(sight(0, 1)), Some(seen));
    Ok(())
}
