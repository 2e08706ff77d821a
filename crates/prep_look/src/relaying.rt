//! Data that the server relays for clients after it deleted their allocations.

use crate::advice::Relaying;
use audit_model::Side;
use prep_cut::Reason;
use prep_reasons::Sheet;
use std::alloc::{AllocError, Global};

/// The data that lines of deletions exclude, if any of it leaves.
pub(crate) fn find_relaying(
    alloc: Global,
    sheet: &Sheet<'_>,
) -> Result<Option<Relaying>, AllocError> {
    let mut has_departure = vec![in alloc; false; sheet.reasons().len()]?;
    let mut all = Relaying {
        deletions: 0,
        departures: 0,
        longest: 0,
    };
    for at in 0..sheet.len() {
        let (Some(line), Some(record)) = (sheet.line_of(at), sheet.record(at)) else {
            continue;
        };
        let place = line as usize;
        let Some(Reason::Released { moment, .. }) = sheet.reasons().get(place) else {
            continue;
        };
        if !matches!(record.side, Side::Leaves) {
            continue;
        }
        all.departures = all.departures.saturating_add(1);
        all.longest = all.longest.max(record.stamp.saturating_sub(*moment));
        if let Some(mark) = has_departure.get_mut(place) {
            all.deletions = all.deletions.saturating_add(u64::from(!*mark));
            *mark = true;
        }
    }
    Ok(if all.departures > 0 { Some(all) } else { None })
}
