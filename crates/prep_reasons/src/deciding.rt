//! Proposes which packets of the captures are excluded.

use crate::addresses::exclude_addresses;
use crate::before::{TimeBefore, explain, time_before};
use crate::dtls::exclude_dtls;
use crate::from_before::exclude_clients;
use crate::hang_ups::{HangUps, exclude_hang_ups};
use crate::inner::exclude_inner;
use crate::late::exclude_late_data;
use crate::members::Members;
use crate::pairing::{Pairing, keep_unpaired};
use crate::proposals::{Proposed, propose};
use crate::responses::read_responses;
use crate::sheet::Sheet;
use crate::unread::{Carrying, Unread};
use audit_model::Policy;
use prep_cut::Stated;
use prep_records::Records;
use std::alloc::{AllocError, Global};
use std::mem;

/// Proposes for each packet of the captures the line of the list that excludes it, or none. The
/// cost is the number of records times its logarithm.
pub fn decide(
    alloc: Global,
    policy: &Policy,
    stated: Stated,
    records: Records,
) -> Result<Proposed, AllocError> {
    let mut records = records;
    let packets = mem::replace(&mut records.captures, Vec::new(alloc));
    let Sorted {
        mut sheet,
        pairing,
        mut carrying,
    } = sort_all(alloc, policy, stated, records)?;
    keep_unpaired(&mut sheet, &pairing, &carrying)?;
    propose(&mut sheet, &packets, &pairing, &mut carrying)
}

/// The sheet after all decisions, with the departures that have an arrival or a carrier.
#[derive(Drop)]
struct Sorted<'a> {
    sheet: Sheet<'a>,
    pairing: Pairing,
    carrying: Carrying,
}

/// The records of the captures in the order of time, with the excluded ones, and the request of
/// each response. The cost is their number times its logarithm.
pub fn sort_out<'a>(
    alloc: Global,
    policy: &'a Policy,
    stated: Stated,
    records: Records,
) -> Result<Sheet<'a>, AllocError> {
    let Sorted { sheet, .. } = sort_all(alloc, policy, stated, records)?;
    Ok(sheet)
}

fn sort_all<'a>(
    alloc: Global,
    policy: &'a Policy,
    stated: Stated,
    records: Records,
) -> Result<Sorted<'a>, AllocError> {
    let mut sheet = Sheet::new(alloc, policy, stated, records)?;
    let shown = read_responses(&mut sheet)?;
    let mut times: Vec<TimeBefore> = Vec::new(alloc);
    for pair in 0..sheet.pair_count() {
        let time = time_before(&sheet, pair);
        explain(&mut sheet, &shown.channels, pair, time)?;
        times.push(time)?;
    }
    let hang_ups = HangUps::new(&sheet)?;
    sheet.members = Members::new(alloc);
    let mut unread = Unread::new(&mut sheet)?;
    if !stated.keeps_inner {
        exclude_inner(&mut sheet, &shown, &mut unread)?;
    }
    exclude_hang_ups(&mut sheet, &shown.tenures, &hang_ups)?;
    let owners = exclude_addresses(&mut sheet, &shown, &hang_ups, &mut unread)?;
    exclude_clients(&mut sheet, &times, &shown)?;
    exclude_late_data(&mut sheet, &shown.tenures, &hang_ups, &owners)?;
    // A paired record is no carrier of DTLS, and DTLS is in no pair.
    let pairing = Pairing::new(&sheet, &shown.channels)?;
    exclude_dtls(&mut sheet, &shown.tenures, &pairing, &mut unread)?;
    let Unread { carrying, .. } = unread;
    Ok(Sorted {
        sheet,
        pairing,
        carrying,
    })
}
