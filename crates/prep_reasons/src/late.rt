//! Data relayed for clients from before after their deletions, if the operator states for how long
//! it may be.

use crate::hang_ups::HangUps;
use crate::inner::{is_data, wanted_of};
use crate::pool::{Group, Grouping, Pool};
use crate::releases::Released;
use crate::sheet::Sheet;
use crate::tenures::Tenures;
use audit_model::{Addr, Pair, Side};
use prep_cut::Reason;
use prep_records::{Content, Record};
use std::alloc::AllocError;
use std::collections::BTreeMap;

/// The clients from before of relayed addresses.
pub(crate) type Owners = BTreeMap<Addr, u32>;

/// The line for data between a relayed address and a peer, after the deletion by the client from
/// before that has the address.
fn line_of(
    sheet: &Sheet<'_>,
    tenures: &Tenures,
    one: &Released,
    ends: (Addr, Addr),
    stamp: u64,
) -> Option<Reason> {
    let (relayed, peer) = ends;
    let is_in_time = sheet.stated.is_behind(one.moment, stamp) && stamp < one.closed;
    let is_free = tenures.last_begun(relayed, stamp).is_none()
        && sheet
            .unread_grant_before(relayed, stamp.saturating_add(sheet.slack))
            .is_none();
    if !is_in_time || !is_free || !one.permits(peer, stamp.saturating_sub(sheet.slack)) {
        return None;
    }
    let pair: Pair = sheet.pair(one.client)?;
    Some(Reason::Released {
        pair,
        relayed,
        moment: one.moment,
    })
}

/// Excludes data that leaves a relayed address for a peer after the deletion by its client from
/// before, with that client's arrival, if the two are the same data for the same peer. Returns
/// whether it does.
pub(crate) fn exclude_late_to_peer(
    sheet: &mut Sheet<'_>,
    tenures: &Tenures,
    hang_ups: &HangUps,
    owners: &Owners,
    pass: (usize, usize),
) -> Result<bool, AllocError> {
    let (at, arrival) = pass;
    let (Some(record), Some(sent)) = (sheet.record(at), sheet.record(arrival)) else {
        return Ok(false);
    };
    let Some(client) = owners.get(&record.from).copied() else {
        return Ok(false);
    };
    let Some(one) = hang_ups.from_before(client, record.stamp) else {
        return Ok(false);
    };
    let wanted = wanted_of(sheet, &record, Group::All);
    let is_in_hold = wanted.from <= sent.stamp && sent.stamp <= wanted.to;
    let is_its = sheet.pair_number(arrival) == Some(client);
    let is_for_peer = one.may_be_with(&sent, record.to, sent.stamp.saturating_sub(sheet.slack));
    if !is_in_hold || !is_its || !is_for_peer {
        return Ok(false);
    }
    let Some(reason) = line_of(sheet, tenures, one, (record.from, record.to), record.stamp) else {
        return Ok(false);
    };
    sheet.exclude(at, reason)?;
    sheet.exclude(arrival, reason)?;
    Ok(true)
}

/// The arrivals at relayed addresses that clients from before deleted.
fn late_arrivals(
    sheet: &Sheet<'_>,
    hang_ups: &HangUps,
    owners: &Owners,
) -> Result<Pool, AllocError> {
    let mut arrivals = Vec::new(sheet.alloc);
    for at in 0..sheet.records.len() {
        let Some(record) = sheet.record(at) else {
            continue;
        };
        let is_arrival = matches!(
            (record.content, record.side),
            (Content::Relayed, Side::Arrives)
        );
        if !is_arrival {
            continue;
        }
        if let Some(client) = owners.get(&record.to).copied() {
            if hang_ups.from_before(client, u64::MAX).is_some() {
                arrivals.push(u32::try_from(at).unwrap_or(u32::MAX))?;
            }
        }
    }
    Pool::new(sheet, Grouping::Together, arrivals)
}

/// Excludes data that leaves for clients from before after their deletions, each with an arrival of
/// its own at the client's address.
pub(crate) fn exclude_late_data(
    sheet: &mut Sheet<'_>,
    tenures: &Tenures,
    hang_ups: &HangUps,
    owners: &Owners,
) -> Result<(), AllocError> {
    if !hang_ups.has_from_before() {
        return Ok(());
    }
    let mut pool = late_arrivals(sheet, hang_ups, owners)?;
    for at in 0..sheet.records.len() {
        let (Some(record), Some(client), true) = (
            sheet.record(at),
            sheet.pair_number(at),
            sheet.is_kept(at),
        ) else {
            continue;
        };
        if !is_data(&record) || !matches!(record.side, Side::Leaves) {
            continue;
        }
        let Some(one) = hang_ups.from_before(client, record.stamp) else {
            continue;
        };
        if !sheet.stated.is_behind(one.moment, record.stamp) {
            continue;
        }
        let wanted = wanted_of(sheet, &record, Group::All);
        if let Some(arrival) = pool.take(sheet, wanted) {
            exclude_late(sheet, tenures, one, owners, (at, arrival), &record)?;
        }
    }
    Ok(())
}

/// Excludes data that leaves for a client with its arrival, if that is from the same peer at the
/// client's address.
fn exclude_late(
    sheet: &mut Sheet<'_>,
    tenures: &Tenures,
    one: &Released,
    owners: &Owners,
    pass: (usize, usize),
    record: &Record,
) -> Result<(), AllocError> {
    let (at, arrival) = pass;
    let Some(came) = sheet.record(arrival) else {
        return Ok(());
    };
    let is_its = owners.get(&came.to).copied() == Some(one.client);
    let moment = record.stamp.saturating_sub(sheet.slack);
    if !is_its || !one.may_be_with(record, came.from, moment) {
        return Ok(());
    }
    if let Some(reason) = line_of(sheet, tenures, one, (came.to, came.from), record.stamp) {
        sheet.exclude(at, reason)?;
        sheet.move_to(arrival, reason)?;
    }
    Ok(())
}
