//! Records by their data, each of which is taken once.

use crate::sheet::Sheet;
use crate::state_before::StateBefore;
use audit_model::Addr;
use std::alloc::AllocError;

/// How a pool groups its records, in addition to their data.
#[derive(Clone, Copy, PartialEq, Eq)]
pub(crate) enum Grouping {
    /// No groups.
    Together,
    /// By client number.
    ByClient,
    /// By whether a state from before may explain them.
    ByState,
    /// By the relayed address at which and the peer from which they arrive.
    ByEnds,
}

/// One of the groups of a pool.
#[derive(Clone, Copy, PartialEq, Eq, PartialOrd, Ord)]
pub(crate) enum Group {
    All,
    Client(u32),
    Between { relayed: Addr, peer: Addr },
    /// Not explained by a state from before.
    Judged,
    /// Explained by a state from before.
    Explained,
}

/// The sort key of a record in a pool.
#[derive(Clone, Copy, PartialEq, Eq, PartialOrd, Ord)]
struct Place {
    digest: u64,
    group: Group,
    stamp: u64,
    record: u32,
}

/// A search: a digest and a group, between two moments.
#[derive(Clone, Copy)]
pub(crate) struct Wanted {
    pub(crate) digest: u64,
    pub(crate) group: Group,
    pub(crate) from: u64,
    pub(crate) to: u64,
}

/// The numbers of records by digest, group and moment.
#[derive(Drop)]
pub(crate) struct Pool {
    grouping: Grouping,
    records: Vec<u32>,
    /// For each index a later one or the same, before which all from this one on are used.
    next: Vec<u32>,
}

impl Pool {
    /// Makes a pool of these records. The cost is their number times its logarithm.
    pub(crate) fn new(
        sheet: &Sheet<'_>,
        grouping: Grouping,
        records: Vec<u32>,
    ) -> Result<Self, AllocError> {
        let mut records = records;
        records.sort_unstable_by_key(|at| place_of(sheet, grouping, *at));
        let mut next = Vec::with_capacity(sheet.alloc, records.len())?;
        for at in 0..records.len() {
            next.push(u32::try_from(at).unwrap_or(u32::MAX))?;
        }
        Ok(Pool {
            grouping,
            records,
            next,
        })
    }

    /// The first index that fits the search or is after it.
    fn begin(&self, sheet: &Sheet<'_>, wanted: Wanted) -> usize {
        let least = Place {
            digest: wanted.digest,
            group: wanted.group,
            stamp: wanted.from,
            record: 0,
        };
        let grouping = self.grouping;
        self.records
            .partition_point(|at| place_of(sheet, grouping, *at) < least)
    }

    /// The record at an index, if it fits the search.
    fn fitting(&self, sheet: &Sheet<'_>, at: usize, wanted: Wanted) -> Option<usize> {
        let record = *self.records.get(at)?;
        let place = place_of(sheet, self.grouping, record);
        if place.digest == wanted.digest
            && place.group == wanted.group
            && place.stamp <= wanted.to
        {
            Some(record as usize)
        } else {
            None
        }
    }

    /// The first record that fits, used or not.
    pub(crate) fn first(&self, sheet: &Sheet<'_>, wanted: Wanted) -> Option<usize> {
        self.fitting(sheet, self.begin(sheet, wanted), wanted)
    }

    /// Takes the first unused record that fits, and marks it as used. The next search skips used
    /// records at once, so the cost of all is nearly their number times its logarithm.
    pub(crate) fn take(&mut self, sheet: &mut Sheet<'_>, wanted: Wanted) -> Option<usize> {
        let begin = self.begin(sheet, wanted);
        let mut at = begin;
        'places: for _ in 0..self.records.len() {
            let Some(record) = self.fitting(sheet, at, wanted) else {
                // All from the first index to this one are used.
                self.shorten(begin, at);
                return None;
            };
            match sheet.used.get(record) {
                Some(true) => at = self.behind(at),
                Some(false) => {
                    self.shorten(begin, at);
                    if let Some(mark) = sheet.used.get_mut(record) {
                        *mark = true;
                    }
                    return Some(record);
                }
                None => return None,
            }
        }
        None
    }

    /// The next index that may be unused, after one that is used.
    fn behind(&mut self, at: usize) -> usize {
        let next = match self.next.get(at) {
            Some(next) => *next as usize,
            None => at,
        };
        let behind = if next > at {
            next
        } else {
            at.saturating_add(1)
        };
        if let Some(mark) = self.next.get_mut(at) {
            *mark = u32::try_from(behind).unwrap_or(u32::MAX);
        }
        behind
    }

    /// Makes the indexes from one on lead straight to another one; all between them are used.
    fn shorten(&mut self, from: usize, to: usize) {
        let mut at = from;
        'path: for _ in 0..self.records.len() {
            if at >= to {
                return;
            }
            let Some(mark) = self.next.get_mut(at) else {
                return;
            };
            let next = *mark as usize;
            *mark = u32::try_from(to).unwrap_or(u32::MAX);
            if next <= at {
                return;
            }
            at = next;
        }
    }
}

/// The sort key of a record. A number without a record comes first.
fn place_of(sheet: &Sheet<'_>, grouping: Grouping, at: u32) -> Place {
    let Some(record) = sheet.record(at as usize) else {
        return Place {
            digest: 0,
            group: Group::All,
            stamp: 0,
            record: at,
        };
    };
    let group = match grouping {
        Grouping::Together => Group::All,
        Grouping::ByClient => match sheet.pair_number(at as usize) {
            Some(client) => Group::Client(client),
            None => Group::All,
        },
        Grouping::ByState => match sheet.state_before(at as usize) {
            StateBefore::Explains => Group::Explained,
            _ => Group::Judged,
        },
        Grouping::ByEnds => Group::Between {
            relayed: record.to,
            peer: record.from,
        },
    };
    Place {
        digest: record.digest,
        group,
        stamp: record.stamp,
        record: at,
    }
}
