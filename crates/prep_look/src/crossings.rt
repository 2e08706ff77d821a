//! Data that arrives on one interface and leaves on another.

use audit_model::Side;
use prep_reasons::Sheet;
use prep_records::{Content, Record};
use std::alloc::{AllocError, Global};
use std::collections::BTreeMap;

/// The limit of a delay, in nanoseconds: twice the most by which two clocks may differ.
const LONGEST: u64 = 60_000_000_000;

/// How long after their arrivals departures of the same data come, in nanoseconds. With wrong
/// clocks they come before.
#[derive(Clone, Copy, Debug)]
pub(crate) struct Crossing {
    pub(crate) count: u64,
    pub(crate) least: i64,
    pub(crate) longest: i64,
}

/// The relayed data.
#[derive(Drop)]
pub(crate) struct Crossings {
    /// By the interface of the arrival and that of the departure, for data that arrived once and
    /// left once.
    pub(crate) between: BTreeMap<(u16, u16), Crossing>,
    /// The stamps of surplus departures, which outnumber the arrivals of their data and which `cut`
    /// doesn't exclude.
    pub(crate) causeless: Vec<u64>,
}

/// A datagram with data.
#[derive(Clone, Copy, PartialEq, Eq, PartialOrd, Ord)]
struct Carried {
    digest: u64,
    is_for_peer: bool,
    leaves: bool,
    stamp: u64,
    iface: u16,
}

/// The datagrams with the same data so far.
#[derive(Clone, Copy)]
struct Group {
    arrivals: u64,
    departures: u64,
    /// The last arrival, and the last departure.
    arrival: Carried,
    departure: Carried,
}

impl Group {
    /// A group of one datagram.
    fn of(one: &Carried) -> Self {
        Group {
            arrivals: u64::from(!one.leaves),
            departures: u64::from(one.leaves),
            arrival: *one,
            departure: *one,
        }
    }

    fn has(&self, one: &Carried) -> bool {
        self.arrival.digest == one.digest && self.arrival.is_for_peer == one.is_for_peer
    }

    /// With one more datagram.
    fn with(self, one: &Carried) -> Self {
        if one.leaves {
            Group {
                departures: self.departures.saturating_add(1),
                departure: *one,
                ..self
            }
        } else {
            Group {
                arrivals: self.arrivals.saturating_add(1),
                arrival: *one,
                ..self
            }
        }
    }
}

/// Finds the relayed data in the records. The cost is their number times its logarithm.
pub(crate) fn find_crossings(alloc: Global, sheet: &Sheet<'_>) -> Result<Crossings, AllocError> {
    let carried = carried_in(alloc, sheet)?;
    let mut all = Crossings {
        between: BTreeMap::new(alloc),
        causeless: Vec::new(alloc),
    };
    let mut group: Option<Group> = None;
    for at in &carried {
        let Some(one) = carried_at(sheet, *at) else {
            continue;
        };
        let longer = match group {
            Some(group) if group.has(&one) => group.with(&one),
            Some(group) => {
                all.note(&group)?;
                Group::of(&one)
            }
            None => Group::of(&one),
        };
        if one.leaves
            && longer.departures > longer.arrivals
            && sheet.line_of(*at as usize).is_none()
        {
            all.causeless.push(one.stamp)?;
        }
        group = Some(longer);
    }
    if let Some(group) = group {
        all.note(&group)?;
    }
    Ok(all)
}

/// The numbers of the records with data. Those with the same data in the same direction are
/// adjacent, arrivals first.
fn carried_in(alloc: Global, sheet: &Sheet<'_>) -> Result<Vec<u32>, AllocError> {
    let mut all = Vec::new(alloc);
    for at in 0..sheet.len() {
        let at = u32::try_from(at).unwrap_or(u32::MAX);
        if carried_at(sheet, at).is_some() {
            all.push(at)?;
        }
    }
    all.sort_unstable_by_key(|at| carried_at(sheet, *at));
    Ok(all)
}

/// A record with data, by its number.
fn carried_at(sheet: &Sheet<'_>, at: u32) -> Option<Carried> {
    carried_by(&sheet.record(at as usize)?)
}

fn carried_by(record: &Record) -> Option<Carried> {
    let leaves = matches!(record.side, Side::Leaves);
    let is_for_peer = match record.content {
        Content::Relayed => leaves,
        Content::Data { .. } | Content::Channel { .. } => !leaves,
        _ => return None,
    };
    Some(Carried {
        digest: record.digest,
        is_for_peer,
        leaves,
        stamp: record.stamp,
        iface: record.iface,
    })
}

/// The delay from one moment to another, if it is below the limit.
fn delay(from: u64, to: u64) -> Option<i64> {
    let by = from.abs_diff(to);
    if by >= LONGEST {
        return None;
    }
    let Ok(by) = i64::try_from(by) else {
        return None;
    };
    Some(if from <= to { by } else { by.saturating_neg() })
}

impl Crossings {
    /// Records a whole group.
    fn note(&mut self, group: &Group) -> Result<(), AllocError> {
        if group.arrivals != 1 || group.departures != 1 {
            return Ok(());
        }
        let Some(delay) = delay(group.arrival.stamp, group.departure.stamp) else {
            return Ok(());
        };
        let key = (group.arrival.iface, group.departure.iface);
        let crossing = match self.between.get(&key) {
            Some(earlier) => Crossing {
                count: earlier.count.saturating_add(1),
                least: earlier.least.min(delay),
                longest: earlier.longest.max(delay),
            },
            None => Crossing {
                count: 1,
                least: delay,
                longest: delay,
            },
        };
        self.between.insert(key, crossing)?;
        Ok(())
    }
}
