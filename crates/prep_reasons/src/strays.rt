//! Records at relayed addresses that nobody was granted, and whose data they carry.

use crate::hang_ups::HangUps;
use crate::inner::{is_data, pool_of_arrivals, wanted_of};
use crate::pool::{Group, Grouping, Pool, Wanted};
use crate::sheet::{SECOND, Sheet};
use crate::state_before::StateBefore;
use crate::tenures::Tenures;
use audit_model::{Addr, Side};
use prep_records::{Content, Record};
use std::alloc::AllocError;
use std::collections::BTreeMap;

/// The greatest skew of a policy.
const FAR: u64 = 60 * SECOND;

/// Whose data a departure carries.
#[derive(Clone, Copy)]
pub(crate) enum Cause {
    /// The data of no client.
    Nobody,
    /// The data of a judged client, with its arrival, unless another departure took it.
    Judged(Option<u32>),
    /// The data of a client from before, by its number.
    FromBefore(u32),
}

/// A record at an address that nobody was granted.
#[derive(Clone, Copy)]
pub(crate) struct Stray {
    /// Its number.
    pub(crate) record: u32,
    pub(crate) cause: Cause,
}

/// The records at addresses that nobody was granted, and whose addresses these may be.
#[derive(Drop)]
pub(crate) struct Strays {
    /// In the order of time.
    pub(crate) all: Vec<Stray>,
    /// How often data of a client was found at an address.
    votes: BTreeMap<(Addr, u32), u64>,
    /// The client with the most votes for each address.
    pub(crate) owners: BTreeMap<Addr, u32>,
}

/// The relayed address of a record between such an address and a peer.
pub(crate) fn relayed_in(record: &Record) -> Option<Addr> {
    match (record.content, record.side) {
        (Content::Relayed, Side::Leaves) => Some(record.from),
        (Content::Relayed, Side::Arrives) => Some(record.to),
        _ => None,
    }
}

/// Finds the records at addresses that nobody was granted, and whose addresses these may be.
pub(crate) fn find_strays(
    sheet: &mut Sheet<'_>,
    tenures: &Tenures,
    hang_ups: &HangUps,
) -> Result<Strays, AllocError> {
    let mut found = Strays {
        all: Vec::new(sheet.alloc),
        votes: BTreeMap::new(sheet.alloc),
        owners: BTreeMap::new(sheet.alloc),
    };
    if hang_ups.is_empty() && !needs_uses(sheet, tenures) {
        return Ok(found);
    }
    found.all = strays_of(sheet, tenures, hang_ups)?;
    find_causes(sheet, &mut found)?;
    find_arrivals(sheet, &mut found)?;
    find_owners(sheet, &mut found)?;
    Ok(found)
}

/// Whether any decision depends on which data is used: a record is at an address that nobody was
/// granted, is of DTLS, or is of a client from before. In most captures of whole calls none is.
fn needs_uses(sheet: &Sheet<'_>, tenures: &Tenures) -> bool {
    for at in 0..sheet.records.len() {
        let (Some(record), true) = (sheet.record(at), sheet.is_kept(at)) else {
            continue;
        };
        let is_stray = match relayed_in(&record) {
            Some(relayed) => tenures.holder(relayed, record.stamp).is_none(),
            None => false,
        };
        let is_dtls = matches!(record.content, Content::Dtls);
        let is_from_before = sheet.state_before(at) == StateBefore::Explains;
        if is_stray || is_dtls || is_from_before {
            return true;
        }
    }
    false
}

/// Takes the data that left from its client's own address, and finds the records at addresses that
/// nobody was granted. Departures to a peer after a deletion are excluded, with their arrivals.
fn strays_of(
    sheet: &mut Sheet<'_>,
    tenures: &Tenures,
    hang_ups: &HangUps,
) -> Result<Vec<Stray>, AllocError> {
    let mut by_client = pool_of_arrivals(sheet)?;
    let mut strays = Vec::new(sheet.alloc);
    for at in 0..sheet.records.len() {
        let (Some(record), true) = (sheet.record(at), sheet.is_kept(at)) else {
            continue;
        };
        let Some(relayed) = relayed_in(&record) else {
            continue;
        };
        if matches!(record.side, Side::Leaves) {
            if hang_ups.exclude_to_peer(sheet, tenures, at, &mut by_client)? {
                continue;
            }
        }
        match tenures.holder(relayed, record.stamp) {
            None => strays.push(Stray {
                record: u32::try_from(at).unwrap_or(u32::MAX),
                cause: Cause::Nobody,
            })?,
            Some(client) => {
                if matches!(record.side, Side::Leaves) {
                    let wanted = wanted_of(sheet, &record, Group::Client(client));
                    let _ = by_client.take(sheet, wanted);
                }
            }
        }
    }
    Ok(strays)
}

/// The data of clients that isn't excluded, by whether a state from before may explain it.
fn pool_by_state(sheet: &Sheet<'_>, side: Side) -> Result<Pool, AllocError> {
    let mut records = Vec::new(sheet.alloc);
    for at in 0..sheet.records.len() {
        let Some(record) = sheet.record(at) else {
            continue;
        };
        let is_asked = match side {
            Side::Arrives => sheet.is_kept(at),
            Side::Leaves => sheet.state_before(at) == StateBefore::Explains,
        };
        if is_data(&record) && record.side == side && is_asked {
            records.push(u32::try_from(at).unwrap_or(u32::MAX))?;
        }
    }
    Pool::new(sheet, Grouping::ByState, records)
}

/// Finds whose data left from addresses that nobody was granted.
fn find_causes(sheet: &mut Sheet<'_>, found: &mut Strays) -> Result<(), AllocError> {
    let mut pool = pool_by_state(sheet, Side::Arrives)?;
    for place in 0..found.all.len() {
        let Some(stray) = found.all.get(place).copied() else {
            continue;
        };
        let Some(record) = sheet.record(stray.record as usize) else {
            continue;
        };
        if !matches!(record.side, Side::Leaves) {
            continue;
        }
        let cause = cause_of(sheet, &record, &mut pool);
        if let Cause::FromBefore(client) = cause {
            found.vote(record.from, client)?;
        }
        if let Some(mark) = found.all.get_mut(place) {
            mark.cause = cause;
        }
    }
    Ok(())
}

/// Whose data a departure carries. A judged client comes first.
fn cause_of(sheet: &mut Sheet<'_>, record: &Record, pool: &mut Pool) -> Cause {
    let judged = Wanted {
        digest: record.digest,
        group: Group::Judged,
        from: record.stamp.saturating_sub(FAR),
        to: record.stamp.saturating_add(FAR),
    };
    if let Some(arrival) = pool.take(sheet, judged) {
        return Cause::Judged(u32::try_from(arrival).ok());
    }
    let explained = wanted_of(sheet, record, Group::Explained);
    let Some(cause) = pool.take(sheet, explained) else {
        // A copy of data that left already is still data of a judged client.
        let copied = wanted_of(sheet, record, Group::Judged);
        return match pool.first(sheet, copied) {
            Some(_) => Cause::Judged(None),
            None => Cause::Nobody,
        };
    };
    match sheet.pair_number(cause) {
        Some(client) => Cause::FromBefore(client),
        None => Cause::Nobody,
    }
}

/// Finds whose data arrived at addresses that nobody was granted.
fn find_arrivals(sheet: &Sheet<'_>, found: &mut Strays) -> Result<(), AllocError> {
    let pool = pool_by_state(sheet, Side::Leaves)?;
    for place in 0..found.all.len() {
        let Some(stray) = found.all.get(place).copied() else {
            continue;
        };
        let Some(record) = sheet.record(stray.record as usize) else {
            continue;
        };
        if !matches!(record.side, Side::Arrives) {
            continue;
        }
        let behind = sheet.policy.hold.saturating_add(sheet.slack);
        let wanted = Wanted {
            digest: record.digest,
            group: Group::Explained,
            from: record.stamp.saturating_sub(sheet.slack),
            to: record.stamp.saturating_add(behind),
        };
        let Some(departure) = pool.first(sheet, wanted) else {
            continue;
        };
        if let Some(client) = sheet.pair_number(departure) {
            found.vote(record.to, client)?;
        }
    }
    Ok(())
}

impl Strays {
    /// Counts data of a client at an address.
    fn vote(&mut self, relayed: Addr, client: u32) -> Result<(), AllocError> {
        let votes = self.votes.entry((relayed, client))?.or_insert(0);
        *votes = votes.saturating_add(1);
        Ok(())
    }
}

/// The client with the most votes for each address; of equal ones the client of the least address.
fn find_owners(sheet: &Sheet<'_>, found: &mut Strays) -> Result<(), AllocError> {
    let mut best: BTreeMap<Addr, u64> = BTreeMap::new(sheet.alloc);
    for (vote, count) in found.votes.iter() {
        let (relayed, client) = *vote;
        let most = best.get(&relayed).copied().unwrap_or(0);
        let is_better = match found.owners.get(&relayed) {
            Some(owner) if *count == most => is_less(sheet, client, *owner),
            _ => *count > most,
        };
        if is_better {
            best.insert(relayed, *count)?;
            found.owners.insert(relayed, client)?;
        }
    }
    Ok(())
}

/// Whether a client's address is less than another's.
fn is_less(sheet: &Sheet<'_>, one: u32, other: u32) -> bool {
    match (sheet.pair(one), sheet.pair(other)) {
        (Some(one), Some(other)) => (one.client, one.listen) < (other.client, other.listen),
        _ => false,
    }
}
