//! Responses with their requests, and the leases and channels that they show.

use crate::channels::{Binding, Channels};
use crate::exchanged::Exchanged;
use crate::sheet::Sheet;
use crate::tenures::{Tenure, Tenures};
use audit_model::Side;
use audit_stun::Class;
use audit_stun::numbers::method;
use std::alloc::{AllocError, Global};
use std::collections::BTreeMap;

/// A request by its method and transaction id.
#[derive(Clone, Copy, PartialEq, Eq, PartialOrd, Ord)]
struct RequestKey {
    method: u16,
    high: u64,
    low: u32,
}

/// The requests of a transaction that arrived so far.
#[derive(Drop)]
struct Requests {
    /// The last one.
    last: usize,
    /// The moments of all, in their order.
    moments: Vec<u64>,
    /// How many of these have a response, or are too early for one.
    over: usize,
}

impl Requests {
    /// The request to which one more response belongs, if a request from a moment on has no
    /// response yet.
    fn answer(&mut self, from: u64) -> Option<usize> {
        let early = self.moments.partition_point(|moment| *moment < from);
        let next = self.over.max(early);
        self.over = next;
        if next >= self.moments.len() {
            return None;
        }
        self.over = next.saturating_add(1);
        Some(self.last)
    }
}

/// The lease that a client has.
#[derive(Clone, Copy)]
struct Lease {
    /// Its index among the tenures.
    tenure: usize,
    key: RequestKey,
    /// Its end with the grace, without the skews.
    until: u64,
}

/// The leases and channels that the responses show.
#[derive(Drop)]
pub(crate) struct Shown {
    pub(crate) tenures: Tenures,
    pub(crate) channels: Channels,
}

/// The leases and channels of the responses that were read so far.
#[derive(Drop)]
struct Reading {
    tenures: Vec<Tenure>,
    bindings: Vec<Binding>,
}

fn key_of(exchanged: &Exchanged) -> RequestKey {
    let [a, b, c, d, e, f, g, h, i, j, k, l] = exchanged.stun.tid;
    RequestKey {
        method: exchanged.stun.method,
        high: u64::from_be_bytes([a, b, c, d, e, f, g, h]),
        low: u32::from_be_bytes([i, j, k, l]),
    }
}

/// Records each response's request, and returns the leases and channels that the responses show.
pub(crate) fn read_responses(sheet: &mut Sheet<'_>) -> Result<Shown, AllocError> {
    let alloc = sheet.alloc;
    let mut reading = Reading {
        tenures: Vec::new(alloc),
        bindings: Vec::new(alloc),
    };
    for pair in 0..sheet.pair_count() {
        read_pair(sheet, pair, &mut reading)?;
    }
    let Reading { tenures, bindings } = reading;
    Ok(Shown {
        tenures: Tenures::new(alloc, tenures)?,
        channels: Channels::new(bindings)?,
    })
}

fn read_pair(sheet: &mut Sheet<'_>, pair: u32, reading: &mut Reading) -> Result<(), AllocError> {
    let mut asked: BTreeMap<RequestKey, Requests> = BTreeMap::new(sheet.alloc);
    let mut lease: Option<Lease> = None;
    let hold = sheet.policy.hold.saturating_add(sheet.slack);
    let count = sheet.of_pair(pair).len();
    for place in 0..count {
        let Some(at) = sheet.of_pair(pair).get(place).copied() else {
            return Ok(());
        };
        let at = at as usize;
        let Some(exchanged) = sheet.exchanged(at) else {
            continue;
        };
        let key = key_of(&exchanged);
        if matches!(exchanged.record.side, Side::Arrives) {
            if matches!(exchanged.stun.class, Class::Request) {
                note_asked(sheet.alloc, &mut asked, key, (at, exchanged.record.stamp))?;
            }
        } else if exchanged.is_answer() {
            let request = match asked.get_mut(&key) {
                Some(requests) => requests.answer(exchanged.record.stamp.saturating_sub(hold)),
                None => None,
            };
            sheet.note_request(at, request);
            let request = match request {
                Some(request) => sheet.exchanged(request),
                None => None,
            };
            if let Some(request) = request {
                lease = read_answer(sheet, pair, (&exchanged, &request), lease, reading)?;
            }
        }
    }
    Ok(())
}

/// Records a request, by its number and its moment.
fn note_asked(
    alloc: Global,
    asked: &mut BTreeMap<RequestKey, Requests>,
    key: RequestKey,
    request: (usize, u64),
) -> Result<(), AllocError> {
    let (last, moment) = request;
    let mut requests = match asked.remove(&key) {
        Some(requests) => requests,
        None => Requests {
            last,
            moments: Vec::new(alloc),
            over: 0,
        },
    };
    requests.last = last;
    requests.moments.push(moment)?;
    asked.insert(key, requests)?;
    Ok(())
}

/// The lease after a response with its request.
fn read_answer(
    sheet: &Sheet<'_>,
    pair: u32,
    pass: (&Exchanged, &Exchanged),
    lease: Option<Lease>,
    reading: &mut Reading,
) -> Result<Option<Lease>, AllocError> {
    let (answer, request) = pass;
    if answer.succeeds(method::ALLOCATE) {
        return allocated(sheet, pair, pass, lease, &mut reading.tenures);
    }
    if answer.succeeds(method::REFRESH) {
        return Ok(refreshed(sheet, answer, lease, &mut reading.tenures));
    }
    if answer.succeeds(method::CHANNEL_BIND) {
        let peer = sheet.peers_of(&request.stun).first().copied();
        if let (Some(number), Some(peer)) = (request.stun.channel, peer) {
            reading.bindings.push(Binding {
                pair,
                number,
                stamp: answer.record.stamp,
                peer,
            })?;
        }
    }
    Ok(lease)
}

fn allocated(
    sheet: &Sheet<'_>,
    pair: u32,
    pass: (&Exchanged, &Exchanged),
    lease: Option<Lease>,
    tenures: &mut Vec<Tenure>,
) -> Result<Option<Lease>, AllocError> {
    let (answer, request) = pass;
    let Some(relayed) = answer.stun.relayed else {
        return Ok(lease);
    };
    if !sheet.policy.relays(relayed) {
        return Ok(lease);
    }
    let key = key_of(answer);
    let stamp = answer.record.stamp;
    if let Some(lease) = lease {
        if let Some(tenure) = tenures.get_mut(lease.tenure) {
            if lease.key == key && tenure.relayed == relayed && stamp <= lease.until {
                return Ok(Some(lease));
            }
            tenure.end = tenure.end.min(stamp.saturating_add(sheet.slack));
        }
    }
    let until = answer.lease_end().saturating_add(sheet.policy.grace);
    let tenure = tenures.len();
    tenures.push(Tenure {
        relayed,
        start: request.record.stamp.saturating_sub(sheet.slack),
        end: until.saturating_add(sheet.slack),
        pair,
    })?;
    Ok(Some(Lease { tenure, key, until }))
}

fn refreshed(
    sheet: &Sheet<'_>,
    answer: &Exchanged,
    lease: Option<Lease>,
    tenures: &mut Vec<Tenure>,
) -> Option<Lease> {
    let lease = lease?;
    if answer.record.stamp > lease.until {
        return Some(lease);
    }
    let goes_on = answer.stun.lifetime.unwrap_or(0) > 0;
    let grace = if goes_on { sheet.policy.grace } else { 0 };
    let until = answer.lease_end().saturating_add(grace);
    if let Some(tenure) = tenures.get_mut(lease.tenure) {
        tenure.end = until.saturating_add(sheet.slack);
    }
    if goes_on {
        Some(Lease { until, ..lease })
    } else {
        None
    }
}
