//! Relayed addresses without a known client.

use prep_cut::Reason;
use prep_reasons::Sheet;
use std::alloc::{AllocError, Global};
use std::collections::BTreeSet;

/// How many lines exclude such an address up to a moment. An address isn't counted if another line
/// names its client: then its grant is known, or it is of a client from before.
pub(crate) fn count_unknown(
    alloc: Global,
    sheet: &Sheet<'_>,
    until: u64,
) -> Result<u64, AllocError> {
    let mut known = BTreeSet::new(alloc);
    for reason in sheet.reasons() {
        match reason {
            Reason::AddressOf { relayed, .. } | Reason::AddressTold { relayed, .. } => {
                known.insert(*relayed)?;
            }
            _ => {}
        }
    }
    let mut is_counted = vec![in alloc; false; sheet.reasons().len()]?;
    let mut count = 0u64;
    for at in 0..sheet.len() {
        let (Some(line), Some(record)) = (sheet.line_of(at), sheet.record(at)) else {
            continue;
        };
        let place = line as usize;
        let Some(Reason::Address { relayed, .. }) = sheet.reasons().get(place) else {
            continue;
        };
        let Some(mark) = is_counted.get_mut(place) else {
            continue;
        };
        if !*mark && record.stamp <= until && !known.contains(relayed) {
            *mark = true;
            count = count.saturating_add(1);
        }
    }
    Ok(count)
}
