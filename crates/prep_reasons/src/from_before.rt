//! Excludes packets of clients from before the captures.

use crate::before::TimeBefore;
use crate::inner::{inner_peer, is_data};
use crate::origin::Origin;
use crate::peer_data::PeerData;
use crate::responses::Shown;
use crate::sheet::Sheet;
use crate::state_before::StateBefore;
use audit_model::Side;
use audit_stun::Class;
use prep_cut::Reason;
use prep_records::Record;
use std::alloc::AllocError;

/// Excludes the remaining packets of clients from before, with their requests and arrivals, and
/// responses that may be to requests from before. Counts the departures of such clients that no
/// state from before allows, or that have no arrival of their own.
pub(crate) fn exclude_clients(
    sheet: &mut Sheet<'_>,
    times: &[TimeBefore],
    shown: &Shown,
) -> Result<(), AllocError> {
    let mut needs = vec![in sheet.alloc; false; sheet.pairs.len()]?;
    for at in 0..sheet.records.len() {
        if let Some(pair) = needing(sheet, at) {
            if let Some(mark) = needs.get_mut(pair as usize) {
                *mark = true;
            }
        }
    }
    if needs.contains(&true) {
        exclude_needing(sheet, shown, &needs)?;
    }
    for at in 0..sheet.records.len() {
        let (Some(pair), Some(record)) = (sheet.pair_number(at), sheet.record(at)) else {
            continue;
        };
        if !matches!(record.side, Side::Leaves) {
            continue;
        }
        if let Some(time) = times.get(pair as usize) {
            exclude_answer(sheet, shown, (at, pair), *time)?;
        }
        let is_beyond = sheet.state_before(at) == StateBefore::Forbids;
        if is_beyond && sheet.is_kept(at) && matches!(needs.get(pair as usize), Some(true)) {
            sheet.beyond = sheet.beyond.saturating_add(1);
        }
    }
    Ok(())
}

/// Excludes the remaining records of the clients that need an allocation from before.
fn exclude_needing(sheet: &mut Sheet<'_>, shown: &Shown, needs: &[bool]) -> Result<(), AllocError> {
    let mut peer_data = PeerData::new(sheet, shown)?;
    for at in 0..sheet.records.len() {
        let Some(pair) = sheet.pair_number(at) else {
            continue;
        };
        if matches!(needs.get(pair as usize), Some(true)) {
            exclude_explained(sheet, shown, (at, pair), &mut peer_data)?;
        }
    }
    Ok(())
}

/// The client of a record that stays in and needs an allocation from before. An error response
/// alone shows no such allocation.
fn needing(sheet: &Sheet<'_>, at: usize) -> Option<u32> {
    let pair = sheet.pair_number(at)?;
    let record = sheet.record(at)?;
    let is_error = match sheet.exchanged(at) {
        Some(exchanged) => matches!(exchanged.stun.class, Class::Error),
        None => false,
    };
    if is_error {
        return None;
    }
    let used = matches!(sheet.used.get(at), Some(true));
    let needs = matches!(record.side, Side::Leaves) || used;
    if needs && sheet.is_kept(at) && sheet.state_before(at) == StateBefore::Explains {
        Some(pair)
    } else {
        None
    }
}

/// The origin of a departure to a client from before. Data of a judged client's relayed address has
/// no such origin.
fn origin_of(
    sheet: &mut Sheet<'_>,
    shown: &Shown,
    at: usize,
    record: &Record,
    peer_data: &mut PeerData,
) -> Origin {
    if !is_data(record) || !matches!(record.side, Side::Leaves) {
        return Origin::Shown;
    }
    let is_judged = match inner_peer(sheet, &shown.channels, at) {
        Some(peer) => shown.tenures.holder(peer, record.stamp).is_some(),
        None => false,
    };
    if is_judged {
        Origin::Missing
    } else {
        peer_data.origin(sheet, record)
    }
}

/// Excludes a record that a state from before explains, with its request. Data that leaves without
/// an arrival of its own stays in, and so does data that names a judged client's relayed address.
fn exclude_explained(
    sheet: &mut Sheet<'_>,
    shown: &Shown,
    one: (usize, u32),
    peer_data: &mut PeerData,
) -> Result<(), AllocError> {
    let (at, pair) = one;
    let (Some(named), Some(record)) = (sheet.pair(pair), sheet.record(at)) else {
        return Ok(());
    };
    if !sheet.is_kept(at) || sheet.state_before(at) != StateBefore::Explains {
        return Ok(());
    }
    match origin_of(sheet, shown, at, &record, peer_data) {
        Origin::Shown => {}
        Origin::Early => return sheet.exclude(at, Reason::Edge),
        Origin::Missing => {
            if let Some(mark) = sheet.old.get_mut(at) {
                *mark = StateBefore::Forbids;
            }
            return Ok(());
        }
    }
    sheet.exclude(at, Reason::Client(named))?;
    if let Some(request) = sheet.request_of(at) {
        sheet.exclude(request, Reason::Client(named))?;
    }
    Ok(())
}

/// Excludes a response without a request in the captures that may answer an earlier request, unless
/// it grants a judged client's relayed address.
fn exclude_answer(
    sheet: &mut Sheet<'_>,
    shown: &Shown,
    one: (usize, u32),
    time: TimeBefore,
) -> Result<(), AllocError> {
    let (at, pair) = one;
    let (Some(exchanged), Some(named)) = (sheet.exchanged(at), sheet.pair(pair)) else {
        return Ok(());
    };
    let stamp = exchanged.record.stamp;
    let is_early = stamp < time.departures && sheet.is_early(stamp);
    let is_alone = sheet.request_of(at).is_none();
    let is_judged = match exchanged.stun.relayed {
        Some(relayed) => shown.tenures.holder(relayed, stamp).is_some(),
        None => false,
    };
    if exchanged.is_answer() && is_alone && is_early && !is_judged {
        sheet.exclude(at, Reason::Answer(named))?;
    }
    Ok(())
}
