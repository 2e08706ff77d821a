//! The numbers of groups: a group is carriers, and the departures whose data they may have carried.

use crate::carriers::Carriers;
use crate::pairing::Pairing;
use crate::sheet::Sheet;
use crate::unread::Carrying;
use prep_causes::{CauseNumber, MaybeNumber};
use prep_cut::Proposal;
use std::alloc::AllocError;

/// A packet by the number of its capture, and its own number in the capture.
#[derive(Clone, Copy)]
struct Packet {
    capture: u16,
    number: u32,
}

/// Numbers the groups after the pairs, assigns each packet of a group its number, and returns the
/// number of groups.
pub(crate) fn propose_groups(
    sheet: &Sheet<'_>,
    pairing: &Pairing,
    carrying: &mut Carrying,
    captures: &mut [Vec<Proposal>],
) -> Result<CauseNumber, AllocError> {
    let pairs = pairing.count();
    let mut next = number_groups(sheet, pairing, &mut carrying.carriers, pairs, captures)?;
    if let Some(relayed) = &mut carrying.relayed {
        next = number_groups(sheet, pairing, relayed, next, captures)?;
    }
    Ok(next.saturating_sub(pairs))
}

/// Numbers the groups that have an excluded departure outside of all pairs, from this number on,
/// and returns the next number. The cost is the number of carriers times its logarithm.
fn number_groups(
    sheet: &Sheet<'_>,
    pairing: &Pairing,
    carriers: &mut Carriers,
    first: CauseNumber,
    captures: &mut [Vec<Proposal>],
) -> Result<CauseNumber, AllocError> {
    let mut next = first;
    if carriers.carried().is_empty() {
        return Ok(next);
    }
    // For each carrier that is the least of its group, the group's number.
    let mut numbers = vec![in sheet.alloc; MaybeNumber::none(); carriers.len()]?;
    for place in 0..carriers.carried().len() {
        let Some(carried) = carriers.carried().get(place).copied() else {
            continue;
        };
        let at = carried.departure as usize;
        let Some(record) = sheet.record(at) else {
            continue;
        };
        if sheet.is_kept(at) || pairing.number(at).is_some() {
            continue;
        }
        let group = carriers.group(carried.carrier) as usize;
        let Some(number) = numbers.get_mut(group) else {
            continue;
        };
        if number.get().is_none() {
            *number = MaybeNumber::some(next);
            next = next.saturating_add(1);
        }
        let packet = Packet {
            capture: record.capture(),
            number: record.packet,
        };
        propose_number(captures, packet, *number);
    }
    for number in 0..carriers.len() {
        let Some(carrier) = carriers.carrier(number) else {
            continue;
        };
        let group = carriers.group(u32::try_from(number).unwrap_or(u32::MAX));
        let packet = Packet {
            capture: carrier.capture,
            number: carrier.packet,
        };
        if let Some(number) = numbers.get(group as usize) {
            propose_number(captures, packet, *number);
        }
    }
    Ok(next)
}

/// Assigns a packet the number of its group, unless it has a number or the group has none.
fn propose_number(captures: &mut [Vec<Proposal>], packet: Packet, number: MaybeNumber) {
    if let Some(proposals) = captures.get_mut(packet.capture as usize) {
        if let Some(proposal) = proposals.get_mut(packet.number as usize) {
            if proposal.cause.get().is_none() {
                proposal.cause = number;
            }
        }
    }
}
