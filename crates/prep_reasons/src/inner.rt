//! Data between addresses of the service.

use crate::channels::Channels;
use crate::origin::Origin;
use crate::peer_data::may_be_inner;
use crate::pool::{Group, Grouping, Pool, Wanted};
use crate::responses::Shown;
use crate::sheet::Sheet;
use crate::state_before::StateBefore;
use crate::unread::Unread;
use audit_model::{Addr, Side};
use prep_cut::Reason;
use prep_records::{Content, Record};
use std::alloc::AllocError;

/// Whether a record is data between a client and the server.
pub(crate) fn is_data(record: &Record) -> bool {
    matches!(
        record.content,
        Content::Data { .. } | Content::Channel { .. }
    )
}

/// The address of the service with which a client exchanges data.
pub(crate) fn inner_peer(sheet: &Sheet<'_>, channels: &Channels, at: usize) -> Option<Addr> {
    let record = sheet.record(at)?;
    let pair = sheet.pair_number(at)?;
    let peer = match record.content {
        Content::Data { peer } => peer?,
        Content::Channel { number } => {
            channels.peer(pair, number, record.stamp.saturating_add(sheet.slack))?
        }
        _ => return None,
    };
    if sheet.policy.relays(peer) || sheet.policy.listens(peer) {
        Some(peer)
    } else {
        None
    }
}

/// The data that clients sent, separate for each client.
pub(crate) fn pool_of_arrivals(sheet: &Sheet<'_>) -> Result<Pool, AllocError> {
    let mut arrivals = Vec::new(sheet.alloc);
    for at in 0..sheet.records.len() {
        let (Some(record), Some(_)) = (sheet.record(at), sheet.pair_number(at)) else {
            continue;
        };
        if is_data(&record) && matches!(record.side, Side::Arrives) && !is_outside(sheet, at) {
            arrivals.push(u32::try_from(at).unwrap_or(u32::MAX))?;
        }
    }
    Pool::new(sheet, Grouping::ByClient, arrivals)
}

/// The data that clients from before sent to addresses of the service.
fn pool_from_before(sheet: &Sheet<'_>, channels: &Channels) -> Result<Pool, AllocError> {
    let mut arrivals = Vec::new(sheet.alloc);
    for at in 0..sheet.records.len() {
        let Some(record) = sheet.record(at) else {
            continue;
        };
        let is_from_before = sheet.state_before(at) == StateBefore::Explains
            && matches!(record.side, Side::Arrives);
        if is_from_before
            && is_data(&record)
            && !is_outside(sheet, at)
            && may_be_inner(sheet, channels, at)
        {
            arrivals.push(u32::try_from(at).unwrap_or(u32::MAX))?;
        }
    }
    Pool::new(sheet, Grouping::Together, arrivals)
}

/// Whether a record is outside the stated moments.
pub(crate) fn is_outside(sheet: &Sheet<'_>, at: usize) -> bool {
    match sheet.line_of(at) {
        Some(line) => matches!(
            sheet.lines.reasons.get(line as usize),
            Some(Reason::BeforeSince | Reason::AfterUntil)
        ),
        None => false,
    }
}

/// The search for a departure's data: data that arrived within the hold before it.
pub(crate) fn wanted_of(sheet: &Sheet<'_>, record: &Record, group: Group) -> Wanted {
    let before = sheet.policy.hold.saturating_add(sheet.slack);
    Wanted {
        digest: record.digest,
        group,
        from: record.stamp.saturating_sub(before),
        to: record.stamp.saturating_add(sheet.slack),
    }
}

/// Excludes datagrams inside the service, and their data.
pub(crate) fn exclude_inner(
    sheet: &mut Sheet<'_>,
    shown: &Shown,
    unread: &mut Unread,
) -> Result<(), AllocError> {
    for at in 0..sheet.records.len() {
        let Some(record) = sheet.record(at) else {
            continue;
        };
        if matches!(record.content, Content::Inside) {
            let Record { from, to, .. } = record;
            sheet.exclude(at, Reason::Inside { from, to })?;
        } else if matches!(record.side, Side::Arrives) && sheet.is_kept(at) {
            exclude_data(sheet, &shown.channels, at)?;
        }
    }
    exclude_inner_departures(sheet, shown, unread)
}

/// Excludes the data that leaves for clients from addresses of the service. For an address that a
/// client has, that client must have sent it to this one; for another address, a client from before
/// must have sent it, or one over TCP, TLS, DTLS or IPv6 may have.
fn exclude_inner_departures(
    sheet: &mut Sheet<'_>,
    shown: &Shown,
    unread: &mut Unread,
) -> Result<(), AllocError> {
    // Each pool is made when it is first needed: most captures have no such data.
    let mut by_client: Option<Pool> = None;
    let mut from_before: Option<Pool> = None;
    for at in 0..sheet.records.len() {
        let (Some(record), true) = (sheet.record(at), sheet.is_kept(at)) else {
            continue;
        };
        let Some(peer) = inner_peer(sheet, &shown.channels, at) else {
            continue;
        };
        if !matches!(record.side, Side::Leaves) {
            continue;
        }
        let origin = match shown.tenures.holder(peer, record.stamp) {
            Some(client) => {
                let mut pool = match by_client {
                    Some(pool) => pool,
                    None => pool_of_arrivals(sheet)?,
                };
                let origin = origin_at(sheet, shown, &mut pool, (at, client), &record);
                by_client = Some(pool);
                origin
            }
            None => {
                let mut pool = match from_before {
                    Some(pool) => pool,
                    None => pool_from_before(sheet, &shown.channels)?,
                };
                let wanted = wanted_of(sheet, &record, Group::All);
                let is_sent = take_inner(sheet, shown, &mut pool, at, wanted);
                from_before = Some(pool);
                if is_sent {
                    Origin::Shown
                } else {
                    unread.origin(sheet, shown, at)?
                }
            }
        };
        match origin {
            Origin::Shown => exclude_data(sheet, &shown.channels, at)?,
            Origin::Early => sheet.exclude(at, Reason::Edge)?,
            Origin::Missing => {}
        }
    }
    Ok(())
}

/// The origin of data that leaves a judged client's address: that client alone.
fn origin_at(
    sheet: &mut Sheet<'_>,
    shown: &Shown,
    by_client: &mut Pool,
    one: (usize, u32),
    record: &Record,
) -> Origin {
    let (at, client) = one;
    let wanted = wanted_of(sheet, record, Group::Client(client));
    if take_inner(sheet, shown, by_client, at, wanted) {
        Origin::Shown
    } else {
        Origin::Missing
    }
}

/// Takes the wanted arrival for data that leaves for a client, and returns whether it was sent to
/// an address that this client may have.
fn take_inner(
    sheet: &mut Sheet<'_>,
    shown: &Shown,
    pool: &mut Pool,
    at: usize,
    wanted: Wanted,
) -> bool {
    let Some(arrival) = pool.take(sheet, wanted) else {
        return false;
    };
    let Some(record) = sheet.record(arrival) else {
        return false;
    };
    match inner_peer(sheet, &shown.channels, arrival) {
        Some(target) => match shown.tenures.holder(target, record.stamp) {
            Some(client) => sheet.pair_number(at) == Some(client),
            None => true,
        },
        None => may_be_inner(sheet, &shown.channels, arrival),
    }
}

fn exclude_data(sheet: &mut Sheet<'_>, channels: &Channels, at: usize) -> Result<(), AllocError> {
    let Some(peer) = inner_peer(sheet, channels, at) else {
        return Ok(());
    };
    let Some(number) = sheet.pair_number(at) else {
        return Ok(());
    };
    let Some(pair) = sheet.pair(number) else {
        return Ok(());
    };
    sheet.exclude(at, Reason::Inner { pair, peer })
}
