//! Pairs of a departure and its arrival, both excluded.

use crate::channels::Channels;
use crate::sheet::Sheet;
use crate::unread::Carrying;
use audit_model::{Addr, Side};
use audit_stun::Class;
use prep_causes::{CauseNumber, MaybeNumber};
use prep_cut::Reason;
use prep_records::{Content, Record};
use std::alloc::AllocError;

/// The numbers of the pairs, from 0.
#[derive(Drop)]
pub(crate) struct Pairing {
    /// The number of each record's pair.
    numbers: Vec<MaybeNumber>,
    count: CauseNumber,
}

/// What a departure has in common with its arrival.
#[derive(Clone, Copy, PartialEq, Eq, PartialOrd, Ord)]
enum Key {
    Data {
        digest: u64,
        peer: Option<Addr>,
    },
    /// Data under a channel whose peer isn't known, and data from or for any peer.
    Channel {
        digest: u64,
        is_for_client: bool,
    },
    Exchange {
        client: u32,
        method: u16,
        tid: [u8; 12],
    },
}

/// A record that may be paired, ordered by its key and its moment.
#[derive(Clone, Copy, PartialEq, Eq, PartialOrd, Ord)]
struct Placed {
    key: Key,
    stamp: u64,
    /// The record's number.
    at: u32,
}

/// How data is compared.
#[derive(Clone, Copy, PartialEq, Eq)]
enum By {
    /// By data and peer; the peer may be that of a channel.
    Peer,
    /// By data alone; one of the two has it under a channel.
    Channel,
}

/// Replaces each address of the service: two clients that relay to each other name different ones.
/// other's.
const OF_SERVICE: Addr = Addr { ip: 0, port: 0 };

impl Pairing {
    /// Pairs the excluded records: each departure with the first arrival that can have caused it
    /// and that no earlier departure has. The cost is the number of records times its logarithm.
    pub(crate) fn new(sheet: &Sheet<'_>, channels: &Channels) -> Result<Self, AllocError> {
        let mut pairing = Pairing {
            numbers: vec![in sheet.alloc; MaybeNumber::none(); sheet.records.len()]?,
            count: 0,
        };
        pairing.add(sheet, channels, By::Peer)?;
        pairing.add(sheet, channels, By::Channel)?;
        Ok(pairing)
    }

    /// The number of a record's pair.
    pub(crate) fn number(&self, at: usize) -> Option<CauseNumber> {
        self.numbers.get(at)?.get()
    }

    /// The same number, in four bytes.
    pub(crate) fn kept_number(&self, at: usize) -> MaybeNumber {
        match self.numbers.get(at) {
            Some(number) => *number,
            None => MaybeNumber::none(),
        }
    }

    /// The number of pairs.
    pub(crate) fn count(&self) -> CauseNumber {
        self.count
    }

    /// Pairs the records that have no pair, by these keys.
    fn add(&mut self, sheet: &Sheet<'_>, channels: &Channels, by: By) -> Result<(), AllocError> {
        let arrivals = self.rest(sheet, channels, by, Side::Arrives)?;
        let departures = self.rest(sheet, channels, by, Side::Leaves)?;
        let mut next = 0usize;
        for departure in &departures {
            next = self.pair_with(sheet, departure, &arrivals, next);
        }
        Ok(())
    }

    /// Pairs a departure with an arrival from this index on, and returns the index from which the
    /// next departure searches. Both lists are in one order, so no earlier arrival is needed any
    /// more.
    fn pair_with(
        &mut self,
        sheet: &Sheet<'_>,
        departure: &Placed,
        arrivals: &[Placed],
        from: usize,
    ) -> usize {
        let reach = sheet.policy.hold.saturating_add(sheet.slack);
        let least = (departure.key, departure.stamp.saturating_sub(reach));
        let rest = arrivals.get(from..).unwrap_or(&[]);
        let passed = rest.partition_point(|arrival| (arrival.key, arrival.stamp) < least);
        let place = from.saturating_add(passed);
        let Some(arrival) = arrivals.get(place) else {
            return place;
        };
        if arrival.key != departure.key
            || arrival.stamp > departure.stamp.saturating_add(sheet.slack)
        {
            return place;
        }
        self.mark(departure.at);
        self.mark(arrival.at);
        self.count = self.count.saturating_add(1);
        place.saturating_add(1)
    }

    fn mark(&mut self, at: u32) {
        let count = self.count;
        if let Some(mark) = self.numbers.get_mut(at as usize) {
            *mark = MaybeNumber::some(count);
        }
    }

    /// The excluded records of a side that have a key and no number, by key and moment.
    fn rest(
        &self,
        sheet: &Sheet<'_>,
        channels: &Channels,
        by: By,
        side: Side,
    ) -> Result<Vec<Placed>, AllocError> {
        let mut rest = Vec::new(sheet.alloc);
        for at in 0..sheet.records.len() {
            if self.number(at).is_some() || !is_proposed(sheet, at, side) {
                continue;
            }
            if let Some(placed) = place_of(sheet, channels, by, at, side) {
                rest.push(placed)?;
            }
        }
        rest.sort_unstable();
        Ok(rest)
    }
}

/// Keeps each departure in that a line excludes with neither the arrival that it needs nor a group
/// of carriers. If the arrival may be from before the captures, `edge` excludes the departure.
pub(crate) fn keep_unpaired(
    sheet: &mut Sheet<'_>,
    pairing: &Pairing,
    carrying: &Carrying,
) -> Result<(), AllocError> {
    let carried = carrying.departures(sheet.alloc)?;
    for at in 0..sheet.records.len() {
        let Some(record) = sheet.record(at) else {
            continue;
        };
        let needs = record.side == Side::Leaves && is_proposed(sheet, at, Side::Leaves);
        if !needs || pairing.number(at).is_some() || is_among(carried.as_slice(), at) {
            continue;
        }
        if sheet.is_early(record.stamp) {
            sheet.move_to(at, Reason::Edge)?;
        } else {
            sheet.keep(at);
            sheet.beyond = sheet.beyond.saturating_add(1);
        }
    }
    Ok(())
}

/// Whether a record is among these, which are in order.
fn is_among(records: &[u32], at: usize) -> bool {
    let before = records.partition_point(|one| (*one as usize) < at);
    match records.get(before) {
        Some(one) => *one as usize == at,
        None => false,
    }
}

/// Whether a record is excluded; for a departure, by a line that needs its arrival.
fn is_proposed(sheet: &Sheet<'_>, at: usize, side: Side) -> bool {
    let Some(line) = sheet.line_of(at) else {
        return false;
    };
    match sheet.lines.reasons.get(line as usize) {
        Some(reason) => side == Side::Arrives || reason.needs_cause(),
        None => false,
    }
}

/// A record of this side, with its key and its moment; `None` if it has no key.
fn place_of(
    sheet: &Sheet<'_>,
    channels: &Channels,
    by: By,
    at: usize,
    side: Side,
) -> Option<Placed> {
    let record = sheet.record(at)?;
    if record.side != side {
        return None;
    }
    let key = match record.content {
        Content::Relayed => match by {
            By::Peer => data_of(sheet, &record, Some(far_end(&record))),
            By::Channel => channel_of(&record, record.side == Side::Arrives),
        },
        Content::Data { peer } => match by {
            By::Peer => data_of(sheet, &record, peer),
            By::Channel => return None,
        },
        Content::Channel { number } => match by {
            By::Peer => {
                let client = sheet.pair_number(at)?;
                let moment = record.stamp.saturating_add(sheet.slack);
                data_of(sheet, &record, channels.peer(client, number, moment))
            }
            By::Channel => channel_of(&record, record.side == Side::Leaves),
        },
        Content::Stun { place } => {
            let stun = sheet.stun.get(place as usize)?;
            let is_request = matches!(stun.class, Class::Request);
            if is_request != (record.side == Side::Arrives) || by == By::Channel {
                return None;
            }
            Key::Exchange {
                client: sheet.pair_number(at)?,
                method: stun.method,
                tid: stun.tid,
            }
        }
        Content::Inside | Content::Dtls | Content::Other => return None,
    };
    Some(Placed {
        key,
        stamp: record.stamp,
        at: u32::try_from(at).ok()?,
    })
}

fn data_of(sheet: &Sheet<'_>, record: &Record, peer: Option<Addr>) -> Key {
    let peer = match peer {
        Some(peer) if sheet.policy.relays(peer) => Some(OF_SERVICE),
        peer => peer,
    };
    Key::Data {
        digest: record.digest,
        peer,
    }
}

fn channel_of(record: &Record, is_for_client: bool) -> Key {
    Key::Channel {
        digest: record.digest,
        is_for_client,
    }
}

fn far_end(record: &Record) -> Addr {
    match record.side {
        Side::Arrives => record.from,
        Side::Leaves => record.to,
    }
}
