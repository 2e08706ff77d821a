//! Data relayed after deletions, if the operator states for how long it may be.

use crate::inner::{is_data, wanted_of};
use crate::pool::{Group, Grouping, Pool};
use crate::releases::{Released, find_released};
use crate::sheet::Sheet;
use crate::tenures::Tenures;
use audit_model::{Addr, Side};
use prep_cut::Reason;
use prep_records::{Content, Record};
use std::alloc::AllocError;

/// The allocations that clients deleted.
#[derive(Drop)]
pub(crate) struct HangUps {
    /// By client and moment.
    all: Vec<Released>,
    /// The indexes of `all`, by relayed address and moment.
    by_address: Vec<u32>,
}

/// A line that excludes data relayed after a deletion.
#[derive(Clone, Copy)]
struct Allowed {
    client: u32,
    relayed: Addr,
    peer: Addr,
    reason: Reason,
}

impl Allowed {
    /// The group of the arrivals for data that leaves for the client.
    fn group(&self) -> Group {
        Group::Between {
            relayed: self.relayed,
            peer: self.peer,
        }
    }

    /// Excludes a departure with its arrival.
    fn exclude(&self, sheet: &mut Sheet<'_>, at: usize, arrival: usize) -> Result<(), AllocError> {
        sheet.exclude(at, self.reason)?;
        sheet.exclude(arrival, self.reason)
    }
}

impl HangUps {
    /// The deleted allocations of the captures; none if the operator states no time.
    pub(crate) fn new(sheet: &Sheet<'_>) -> Result<Self, AllocError> {
        let mut found = HangUps {
            all: Vec::new(sheet.alloc),
            by_address: Vec::new(sheet.alloc),
        };
        if sheet.stated.released_ms > 0 {
            found.all = find_released(sheet)?;
            for place in 0..found.all.len() {
                found
                    .by_address
                    .push(u32::try_from(place).unwrap_or(u32::MAX))?;
            }
            let all = found.all.as_slice();
            found
                .by_address
                .sort_unstable_by_key(|place| key_at(all, *place));
        }
        Ok(found)
    }

    /// Whether the captures have no deletion, or the operator states no time.
    pub(crate) fn is_empty(&self) -> bool {
        self.all.is_empty()
    }

    /// The last deletion by a client before a moment.
    fn last_of(&self, client: u32, stamp: u64) -> Option<&Released> {
        let behind = self
            .all
            .partition_point(|one| (one.client, one.moment) < (client, stamp));
        let one = self.all.get(behind.checked_sub(1)?)?;
        if one.client == client {
            Some(one)
        } else {
            None
        }
    }

    /// The next deletion by a client.
    fn next_of(&self, client: u32, stamp: u64) -> Option<&Released> {
        let behind = self
            .all
            .partition_point(|one| (one.client, one.moment) < (client, stamp));
        let one = self.all.get(behind)?;
        if one.client == client {
            Some(one)
        } else {
            None
        }
    }

    /// The last deletion of a relayed address before a moment.
    fn last_at(&self, relayed: Addr, stamp: u64) -> Option<&Released> {
        let all = self.all.as_slice();
        let behind = self
            .by_address
            .partition_point(|place| key_at(all, *place) < Some((Some(relayed), stamp)));
        let place = *self.by_address.get(behind.checked_sub(1)?)?;
        let one = all.get(place as usize)?;
        if one.relayed == Some(relayed) {
            Some(one)
        } else {
            None
        }
    }

    /// The last deletion by a client before a moment, if the client is from before.
    pub(crate) fn from_before(&self, client: u32, stamp: u64) -> Option<&Released> {
        let one = self.last_of(client, stamp)?;
        match one.relayed {
            None => Some(one),
            Some(_) => None,
        }
    }

    /// Whether some client from before deleted its allocation.
    pub(crate) fn has_from_before(&self) -> bool {
        self.all.iter().any(|one| one.relayed.is_none())
    }

    /// Whether a relayed address is ever deleted.
    fn has_address(&self, relayed: Addr) -> bool {
        self.last_at(relayed, u64::MAX).is_some()
    }

    /// The line for data that leaves for a client, if it is after a deletion of a lease that would
    /// have allowed it.
    fn to_client(
        &self,
        sheet: &Sheet<'_>,
        tenures: &Tenures,
        client: u32,
        record: &Record,
    ) -> Option<Allowed> {
        let one = self.last_of(client, record.stamp)?;
        let peer = one.peer_of(record.content, record.stamp.saturating_sub(sheet.slack))?;
        allowed_by(sheet, tenures, one, peer, record.stamp)
    }

    /// Excludes data that leaves a relayed address for a peer after the deletion of a lease that
    /// would have allowed it, with its arrival: the same data of that client for that peer. Without
    /// such an arrival it stays in. Returns whether it is after such a deletion.
    pub(crate) fn exclude_to_peer(
        &self,
        sheet: &mut Sheet<'_>,
        tenures: &Tenures,
        at: usize,
        by_client: &mut Pool,
    ) -> Result<bool, AllocError> {
        let Some(record) = sheet.record(at) else {
            return Ok(false);
        };
        let Some(one) = self.last_at(record.from, record.stamp) else {
            return Ok(false);
        };
        let Some(allowed) = allowed_by(sheet, tenures, one, record.to, record.stamp) else {
            return Ok(false);
        };
        let wanted = wanted_of(sheet, &record, Group::Client(allowed.client));
        if let Some(arrival) = by_client.take(sheet, wanted) {
            if sent_to(sheet, one, arrival) == Some(allowed.peer) {
                allowed.exclude(sheet, at, arrival)?;
            }
        }
        Ok(true)
    }
}

/// The peer of a client's data, by the client's leases.
fn sent_to(sheet: &Sheet<'_>, one: &Released, arrival: usize) -> Option<Addr> {
    let sent = sheet.record(arrival)?;
    one.peer_of(sent.content, sent.stamp.saturating_sub(sheet.slack))
}

fn key_at(all: &[Released], place: u32) -> Option<(Option<Addr>, u64)> {
    let one = all.get(place as usize)?;
    Some((one.relayed, one.moment))
}

/// The line for data from or for a peer at a moment: within the time that the operator states,
/// before the client requests another allocation, and before the address is granted to another
/// client.
fn allowed_by(
    sheet: &Sheet<'_>,
    tenures: &Tenures,
    one: &Released,
    peer: Addr,
    stamp: u64,
) -> Option<Allowed> {
    let relayed = one.relayed?;
    let is_in_time = sheet.stated.is_behind(one.moment, stamp) && stamp < one.closed;
    let is_own = match tenures.last_begun(relayed, stamp) {
        Some(tenure) => tenure.pair == one.client && tenure.start <= one.moment,
        None => false,
    };
    let is_granted = match sheet.unread_grant_before(relayed, stamp.saturating_add(sheet.slack)) {
        Some(grant) => grant.stamp.saturating_add(sheet.slack) >= one.moment,
        None => false,
    };
    if !is_in_time
        || !is_own
        || is_granted
        || !one.permits(peer, stamp.saturating_sub(sheet.slack))
    {
        return None;
    }
    let pair = sheet.pair(one.client)?;
    Some(Allowed {
        client: one.client,
        relayed,
        peer,
        reason: Reason::Released {
            pair,
            relayed,
            moment: one.moment,
        },
    })
}

/// The arrivals at relayed addresses that clients deleted.
fn arrivals_at(sheet: &Sheet<'_>, hang_ups: &HangUps) -> Result<Pool, AllocError> {
    let mut arrivals = Vec::new(sheet.alloc);
    for at in 0..sheet.records.len() {
        let (Some(record), true) = (sheet.record(at), sheet.is_kept(at)) else {
            continue;
        };
        let is_arrival = matches!(
            (record.content, record.side),
            (Content::Relayed, Side::Arrives)
        );
        if is_arrival && hang_ups.has_address(record.to) {
            arrivals.push(u32::try_from(at).unwrap_or(u32::MAX))?;
        }
    }
    Pool::new(sheet, Grouping::ByEnds, arrivals)
}

/// Takes the arrival of data that leaves for a client before its deletion.
fn take_own(sheet: &mut Sheet<'_>, one: &Released, record: &Record, pool: &mut Pool) {
    let peer = one.peer_of(record.content, record.stamp);
    if let (Some(relayed), Some(peer)) = (one.relayed, peer) {
        let group = Group::Between { relayed, peer };
        let wanted = wanted_of(sheet, record, group);
        let _ = pool.take(sheet, wanted);
    }
}

/// Excludes data that leaves for clients after their deletions, with its arrivals. Departures
/// before a deletion take their own arrivals first.
pub(crate) fn exclude_hang_ups(
    sheet: &mut Sheet<'_>,
    tenures: &Tenures,
    hang_ups: &HangUps,
) -> Result<(), AllocError> {
    if hang_ups.all.is_empty() {
        return Ok(());
    }
    let mut pool = arrivals_at(sheet, hang_ups)?;
    for at in 0..sheet.records.len() {
        let (Some(record), Some(client), true) = (
            sheet.record(at),
            sheet.pair_number(at),
            sheet.is_kept(at),
        ) else {
            continue;
        };
        if !is_data(&record) || !matches!(record.side, Side::Leaves) {
            continue;
        }
        if let Some(allowed) = hang_ups.to_client(sheet, tenures, client, &record) {
            let wanted = wanted_of(sheet, &record, allowed.group());
            if let Some(arrival) = pool.take(sheet, wanted) {
                allowed.exclude(sheet, at, arrival)?;
            }
        } else if let Some(one) = hang_ups.next_of(client, record.stamp) {
            take_own(sheet, one, &record, &mut pool);
        }
    }
    Ok(())
}
