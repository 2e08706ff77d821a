//! Relayed addresses that no judged client was granted.

use crate::hang_ups::HangUps;
use crate::late::{Owners, exclude_late_to_peer};
use crate::origin::Origin;
use crate::responses::Shown;
use crate::sheet::Sheet;
use crate::strays::{Cause, Stray, Strays, find_strays, relayed_in};
use crate::unread::Unread;
use audit_model::{Addr, Side};
use prep_cut::Reason;
use prep_records::Record;
use std::alloc::AllocError;
use std::collections::BTreeSet;

/// The addresses and tenures of which a departure is excluded.
type LeftOf = BTreeSet<(Addr, u32)>;

/// Excludes the departures from relayed addresses that nobody was granted, and the arrivals there.
/// Returns which of these addresses clients from before have.
pub(crate) fn exclude_addresses(
    sheet: &mut Sheet<'_>,
    shown: &Shown,
    hang_ups: &HangUps,
    unread: &mut Unread,
) -> Result<Owners, AllocError> {
    unread.rewind();
    let found = find_strays(sheet, &shown.tenures, hang_ups)?;
    let mut left: LeftOf = BTreeSet::new(sheet.alloc);
    for place in 0..found.all.len() {
        let Some(stray) = found.all.get(place).copied() else {
            continue;
        };
        if let Some(reason) = reason_to_exclude(sheet, shown, hang_ups, stray, &found, unread)? {
            sheet.exclude(stray.record as usize, reason)?;
            if let (Some(key), false) = (tenure_of(sheet, shown, stray), reason == Reason::Edge) {
                left.insert(key)?;
            }
        }
    }
    for place in 0..found.all.len() {
        let Some(stray) = found.all.get(place).copied() else {
            continue;
        };
        exclude_arrival(sheet, shown, stray, &found, &left)?;
    }
    let Strays { owners, .. } = found;
    Ok(owners)
}

/// The address of a record, and its tenure.
fn tenure_of(sheet: &Sheet<'_>, shown: &Shown, stray: Stray) -> Option<(Addr, u32)> {
    let record = sheet.record(stray.record as usize)?;
    let relayed = relayed_in(&record)?;
    Some((relayed, shown.tenures.begun(relayed, record.stamp)))
}

/// The line for a departure from an address that nobody was granted, if it looks like data that
/// can't be judged. A departure after the deletion by a client from before is excluded at once,
/// with its arrival.
fn reason_to_exclude(
    sheet: &mut Sheet<'_>,
    shown: &Shown,
    hang_ups: &HangUps,
    stray: Stray,
    found: &Strays,
    unread: &mut Unread,
) -> Result<Option<Reason>, AllocError> {
    let at = stray.record as usize;
    let (Some(record), Some((relayed, tenure))) = (sheet.record(at), tenure_of(sheet, shown, stray))
    else {
        return Ok(None);
    };
    if !matches!(record.side, Side::Leaves) {
        return Ok(None);
    }
    match stray.cause {
        Cause::Judged(arrival) => {
            if let Some(arrival) = arrival {
                let pass = (at, arrival as usize);
                exclude_late_to_peer(sheet, &shown.tenures, hang_ups, &found.owners, pass)?;
            }
            Ok(None)
        }
        Cause::FromBefore(client) => match sheet.pair(client) {
            Some(pair) => Ok(Some(Reason::AddressOf {
                relayed,
                tenure,
                pair,
            })),
            None => Ok(None),
        },
        Cause::Nobody => match unread.origin(sheet, shown, at)? {
            Origin::Shown => Ok(elsewhere(sheet, &record, relayed, tenure, true)),
            Origin::Early => Ok(Some(Reason::Edge)),
            Origin::Missing => Ok(None),
        },
    }
}

/// Excludes an arrival at an address that nobody was granted, if the address belongs to a client
/// from before, or a departure from it is excluded.
fn exclude_arrival(
    sheet: &mut Sheet<'_>,
    shown: &Shown,
    stray: Stray,
    found: &Strays,
    left: &LeftOf,
) -> Result<(), AllocError> {
    let at = stray.record as usize;
    let (Some(record), Some((relayed, tenure))) = (sheet.record(at), tenure_of(sheet, shown, stray))
    else {
        return Ok(());
    };
    if !matches!(record.side, Side::Arrives) {
        return Ok(());
    }
    let pair = match found.owners.get(&relayed).copied() {
        Some(client) => sheet.pair(client),
        None => None,
    };
    let reason = match pair {
        Some(pair) => Some(Reason::AddressOf {
            relayed,
            tenure,
            pair,
        }),
        None => {
            let is_of_left = left.contains(&(relayed, tenure));
            elsewhere(sheet, &record, relayed, tenure, is_of_left)
        }
    };
    match reason {
        Some(reason) => sheet.exclude(at, reason),
        None => Ok(()),
    }
}

/// The reason of an address that was granted over TCP or IPv6, or to nobody.
pub(crate) fn elsewhere(
    sheet: &Sheet<'_>,
    record: &Record,
    relayed: Addr,
    tenure: u32,
    else_nobody: bool,
) -> Option<Reason> {
    if sheet.stated.has_no_tcp {
        return None;
    }
    let moment = record.stamp.saturating_add(sheet.slack);
    if let Some(grant) = sheet.unread_grant_before(relayed, moment) {
        return Some(Reason::AddressTold {
            relayed,
            tenure,
            client: grant.client,
        });
    }
    if else_nobody {
        Some(Reason::Address { relayed, tenure })
    } else {
        None
    }
}
