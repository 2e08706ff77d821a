//! Departures whose data may have arrived in packets that aren't read, or in DTLS records, each
//! with its carrier: the packet that may have carried it.

use crate::links::Links;
use prep_records::{Carrier, CarrierKind};
use std::alloc::{AllocError, Global};
use std::collections::{BTreeMap, BTreeSet};

/// A datagram with more than this number of bytes in addition to its load is taken only if no
/// nearer one is there: the headers and the overhead of DTLS.
const NEAR: u32 = 112;

/// The number of datagrams of nearly one length among which the one of the nearest moment is
/// chosen.
const TRIED: usize = 64;

/// A carrier that may carry more, ordered by its kind, its remaining bytes, and its number.
#[derive(Clone, Copy, PartialEq, Eq, PartialOrd, Ord)]
struct Open {
    kind: CarrierKind,
    bytes: u32,
    number: u32,
}

/// The requirements of a departure on its carrier.
#[derive(Clone, Copy)]
pub(crate) struct Load {
    /// The departure's record.
    pub(crate) departure: u32,
    /// The departure's moment, in nanoseconds since 1970.
    pub(crate) moment: u64,
    /// The least and the greatest moment of the carrier.
    pub(crate) from: u64,
    pub(crate) to: u64,
    /// How many bytes of the carrier it takes, at least 1.
    pub(crate) bytes: u32,
    /// How many bytes the carrier has at most.
    pub(crate) most: u32,
    /// Whether it takes all bytes of the carrier, as for a datagram that causes one departure.
    pub(crate) takes_all: bool,
}

/// A departure and its carrier, by their numbers.
#[derive(Clone, Copy)]
pub(crate) struct Carried {
    pub(crate) departure: u32,
    pub(crate) carrier: u32,
}

/// The carriers, each with its remaining bytes.
#[derive(Drop)]
pub(crate) struct Carriers {
    alloc: Global,
    /// In the order of time.
    all: Vec<Carrier>,
    links: Links,
    /// The departures in the order in which they took carriers.
    carried: Vec<Carried>,
    /// The carriers between the moments of the last load that may carry more.
    open: BTreeSet<Open>,
    /// For each connection, the last of these carriers.
    last: BTreeMap<u64, u32>,
    /// How many carriers came before the last moment of a load.
    entered: usize,
    /// How many carriers came before the first moment of a load.
    over: usize,
}

impl Carriers {
    /// Indexes the carriers. The cost is their number times its logarithm.
    pub(crate) fn new(alloc: Global, carriers: Vec<Carrier>) -> Result<Self, AllocError> {
        let mut all = carriers;
        all.sort_by_key(|carrier| carrier.stamp)?;
        Ok(Carriers {
            alloc,
            links: Links::new(alloc, all.len())?,
            all,
            carried: Vec::new(alloc),
            open: BTreeSet::new(alloc),
            last: BTreeMap::new(alloc),
            entered: 0,
            over: 0,
        })
    }

    /// Starts again with the first moment. The departures that are carried keep their carriers.
    pub(crate) fn rewind(&mut self) {
        self.open = BTreeSet::new(self.alloc);
        self.last = BTreeMap::new(self.alloc);
        self.entered = 0;
        self.over = 0;
    }

    pub(crate) fn len(&self) -> usize {
        self.all.len()
    }

    pub(crate) fn carrier(&self, number: usize) -> Option<Carrier> {
        self.all.get(number).copied()
    }

    /// The departures with their carriers, in no order.
    pub(crate) fn carried(&self) -> &[Carried] {
        self.carried.as_slice()
    }

    /// The least carrier of a carrier's group. Departures with carriers of one group may have bytes
    /// of any of them.
    pub(crate) fn group(&mut self, carrier: u32) -> u32 {
        self.links.root(carrier)
    }

    /// Assigns a load to the carrier of these kinds that fits best, and returns its number; `None`
    /// if there is no such carrier. Loads come in the order of time. The cost of all is the number
    /// of carriers and loads, times its logarithm.
    pub(crate) fn take(
        &mut self,
        load: Load,
        kinds: &[CarrierKind],
    ) -> Result<Option<u32>, AllocError> {
        self.enter_until(load)?;
        self.end_before(load.from);
        let mut best: Option<Open> = None;
        for kind in kinds {
            let Some(open) = self.fitting(*kind, load) else {
                continue;
            };
            best = match best {
                Some(other) if (other.bytes, other.number) <= (open.bytes, open.number) => best,
                _ => Some(open),
            };
        }
        let Some(found) = best else {
            return Ok(None);
        };
        self.open.remove(&found);
        self.links.spend(found.number, found.bytes, load.bytes);
        let left = if load.takes_all {
            0
        } else {
            found.bytes.saturating_sub(load.bytes)
        };
        self.set(found.number, left)?;
        self.carried.push(Carried {
            departure: load.departure,
            carrier: found.number,
        })?;
        Ok(Some(found.number))
    }

    /// The carrier of a kind that fits best: among datagrams at most `NEAR` bytes longer than
    /// needed the last one before the departure, and else the shortest.
    fn fitting(&self, kind: CarrierKind, load: Load) -> Option<Open> {
        let least = self.least_of(kind, load)?;
        if kind == CarrierKind::TcpOrIpv6 {
            return Some(least);
        }
        let most = load.most.min(load.bytes.saturating_add(NEAR));
        let mut best = least;
        for open in self.open.range(least..).take(TRIED) {
            if open.kind != kind || open.bytes > most {
                return Some(best);
            }
            if self.distance(open.number, load) < self.distance(best.number, load) {
                best = *open;
            }
        }
        Some(best)
    }

    /// The distance of a carrier from a departure. A carrier before the departure is nearer than
    /// one after it.
    fn distance(&self, number: u32, load: Load) -> (bool, u64) {
        match self.all.get(number as usize) {
            Some(carrier) => (
                carrier.stamp > load.moment,
                carrier.stamp.abs_diff(load.moment),
            ),
            None => (true, u64::MAX),
        }
    }

    /// The shortest carrier of a kind that is long enough.
    fn least_of(&self, kind: CarrierKind, load: Load) -> Option<Open> {
        let least = Open {
            kind,
            bytes: load.bytes,
            number: 0,
        };
        let open = *self.open.range(least..).next()?;
        if open.kind == kind && open.bytes <= load.most {
            Some(open)
        } else {
            None
        }
    }

    /// Sets the remaining bytes of a carrier.
    fn set(&mut self, number: u32, bytes: u32) -> Result<(), AllocError> {
        let Some(carrier) = self.all.get_mut(number as usize) else {
            return Ok(());
        };
        carrier.bytes = bytes;
        if bytes > 0 {
            let open = open_of(carrier, number);
            self.open.insert(open)?;
        }
        Ok(())
    }

    /// Adds the carriers up to a load's last moment.
    fn enter_until(&mut self, load: Load) -> Result<(), AllocError> {
        for at in self.entered..self.all.len() {
            let Some(carrier) = self.all.get(at).copied() else {
                return Ok(());
            };
            if carrier.stamp > load.to {
                return Ok(());
            }
            self.entered = at.saturating_add(1);
            if carrier.stamp >= load.from {
                self.enter(at, carrier)?;
            }
        }
        Ok(())
    }

    /// Adds a carrier, with the remaining bytes of the one before it on its connection if the data
    /// may continue in this one.
    fn enter(&mut self, at: usize, carrier: Carrier) -> Result<(), AllocError> {
        let number = u32::try_from(at).unwrap_or(u32::MAX);
        let mut bytes = carrier.bytes;
        if let Some(before) = self.last.get(&carrier.connection).copied() {
            if let Some(earlier) = self.all.get(before as usize).copied() {
                if earlier.goes_on && self.open.remove(&open_of(&earlier, before)) {
                    bytes = bytes.saturating_add(earlier.bytes);
                    self.set(before, 0)?;
                    self.links.move_on(before, number, earlier.bytes);
                }
            }
        }
        self.last.insert(carrier.connection, number)?;
        self.set(number, bytes)
    }

    /// Drops the carriers before a moment.
    fn end_before(&mut self, from: u64) {
        for at in self.over..self.entered {
            let Some(carrier) = self.all.get(at).copied() else {
                return;
            };
            if carrier.stamp >= from {
                return;
            }
            self.over = at.saturating_add(1);
            let number = u32::try_from(at).unwrap_or(u32::MAX);
            self.open.remove(&open_of(&carrier, number));
        }
    }
}

fn open_of(carrier: &Carrier, number: u32) -> Open {
    Open {
        kind: carrier.kind,
        bytes: carrier.bytes,
        number,
    }
}
