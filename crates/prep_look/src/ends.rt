//! Interfaces that were captured for a shorter time than others.

use crate::advice::Ended;
use crate::interface::Interface;
use audit_model::Side;
use prep_reasons::Sheet;
use std::alloc::{AllocError, Global};
use std::collections::BTreeSet;

/// A capture's interfaces end together if they end within this time of each other, in nanoseconds.
const TOGETHER: u64 = 1_000_000_000;

/// The first interface, by its end, after which surplus departures left before the next interface's
/// end.
pub(crate) fn find_ended(
    alloc: Global,
    interfaces: &[Interface],
    causeless: &[u64],
    sheet: &Sheet<'_>,
) -> Result<Option<Ended>, AllocError> {
    let mut stamps = Vec::from_slice(alloc, causeless)?;
    stamps.sort_unstable();
    let ends = ends_of(alloc, interfaces, sheet)?;
    let last = last_stamp(interfaces);
    for (at, (end, interface)) in ends.iter().enumerate() {
        let next = match ends.get(at.saturating_add(1)) {
            Some((next, _)) => *next,
            None => u64::MAX,
        };
        let before = stamps.partition_point(|stamp| *stamp <= *end);
        let is_next = match stamps.get(before) {
            Some(stamp) => *stamp <= next,
            None => false,
        };
        if is_next {
            return Ok(Some(Ended {
                interface: *interface,
                end: *end,
                departures: stamps.len().saturating_sub(before) as u64,
                gap: last.saturating_sub(*end),
            }));
        }
    }
    Ok(None)
}

/// The greatest stamp of all interfaces.
fn last_stamp(interfaces: &[Interface]) -> u64 {
    let mut last = 0u64;
    for one in interfaces {
        last = last.max(one.stamps.last);
    }
    last
}

/// The ends, in order, of the interfaces with arrivals that may have ended then.
fn ends_of(
    alloc: Global,
    interfaces: &[Interface],
    sheet: &Sheet<'_>,
) -> Result<Vec<(u64, u32)>, AllocError> {
    let arriving = arriving_in(alloc, sheet)?;
    let last = last_stamp(interfaces);
    let mut ends = Vec::new(alloc);
    for one in interfaces {
        if arriving.contains(&one.number) && may_end(one, last) {
            ends.push((one.stamps.last, one.number))?;
        }
    }
    ends.sort_unstable();
    Ok(ends)
}

/// Whether the capture of an interface may have ended at its last frame: its statistics were
/// written soon afterwards, if they have a time, or all interfaces end then.
fn may_end(interface: &Interface, last: u64) -> bool {
    let end = interface.stamps.last.saturating_add(TOGETHER);
    match interface.until {
        Some(until) => until <= end || last <= end,
        None => true,
    }
}

/// The interfaces at which datagrams of the service arrive.
fn arriving_in(alloc: Global, sheet: &Sheet<'_>) -> Result<BTreeSet<u32>, AllocError> {
    let mut all = BTreeSet::new(alloc);
    for at in 0..sheet.len() {
        if let Some(record) = sheet.record(at) {
            if matches!(record.side, Side::Arrives) {
                all.insert(u32::from(record.iface))?;
            }
        }
    }
    Ok(all)
}
