//! DTLS, which isn't decrypted: a departure to a client over DTLS needs a carrier.

use crate::addresses::elsewhere;
use crate::carriers::{Carriers, Load};
use crate::inner::is_outside;
use crate::pairing::Pairing;
use crate::sheet::Sheet;
use crate::speech::{Speech, carrier_of, may_have_data};
use crate::tenures::Tenures;
use crate::unread::Unread;
use audit_model::Side;
use prep_cut::Reason;
use prep_records::{CarrierKind, Content, Record};
use std::alloc::AllocError;

/// The most bytes that a record to a client has in addition to its carrier: the header of a Data
/// indication and the overhead of DTLS.
const ADDED: u16 = 96;

/// Data that arrives at relayed addresses that no judged client has.
#[derive(Drop)]
pub(crate) struct Relayed {
    pub(crate) carriers: Carriers,
    /// The record of each carrier.
    records: Vec<u32>,
}

impl Relayed {
    /// The arrivals that are in no pair. The cost is the number of records times its logarithm.
    fn new(sheet: &Sheet<'_>, tenures: &Tenures, pairing: &Pairing) -> Result<Self, AllocError> {
        let mut records = Vec::new(sheet.alloc);
        let mut carriers = Vec::new(sheet.alloc);
        for at in 0..sheet.records.len() {
            let Some(record) = sheet.record(at) else {
                continue;
            };
            let is_free = matches!(record.content, Content::Relayed)
                && matches!(record.side, Side::Arrives)
                && tenures.holder(record.to, record.stamp).is_none();
            let is_used = matches!(sheet.used.get(at), Some(true)) || pairing.number(at).is_some();
            if is_free && !is_used && !is_outside(sheet, at) {
                records.push(u32::try_from(at).unwrap_or(u32::MAX))?;
                carriers.push(carrier_of(&record, CarrierKind::Relayed))?;
            }
        }
        Ok(Relayed {
            carriers: Carriers::new(sheet.alloc, carriers)?,
            records,
        })
    }

    /// Assigns a load to the arrival that fits best, if there is one, and excludes that arrival.
    fn take(
        &mut self,
        sheet: &mut Sheet<'_>,
        tenures: &Tenures,
        load: Load,
    ) -> Result<bool, AllocError> {
        let Some(number) = self.carriers.take(load, &[CarrierKind::Relayed])? else {
            return Ok(false);
        };
        let Some(at) = self.records.get(number as usize).copied() else {
            return Ok(false);
        };
        if let Some(record) = sheet.record(at as usize) {
            let tenure = tenures.begun(record.to, record.stamp);
            if let Some(reason) = elsewhere(sheet, &record, record.to, tenure, true) {
                sheet.exclude(at as usize, reason)?;
            }
        }
        Ok(true)
    }
}

/// Excludes DTLS with clients that send nothing else, unless the operator states that no client
/// uses DTLS. Application data that leaves without a carrier stays in.
pub(crate) fn exclude_dtls(
    sheet: &mut Sheet<'_>,
    tenures: &Tenures,
    pairing: &Pairing,
    unread: &mut Unread,
) -> Result<(), AllocError> {
    if !unread.speech.contains(&Speech::Dtls) {
        return Ok(());
    }
    unread.rewind();
    let mut relayed = Relayed::new(sheet, tenures, pairing)?;
    for at in 0..sheet.records.len() {
        let (Some(record), Some(pair)) = (sheet.record(at), sheet.pair_number(at)) else {
            continue;
        };
        let (Some(Speech::Dtls), Some(named)) = (unread.speech.get(pair as usize), sheet.pair(pair))
        else {
            continue;
        };
        if !matches!(record.content, Content::Dtls) || !sheet.is_kept(at) {
            continue;
        }
        let is_data = matches!(record.side, Side::Leaves) && may_have_data(&record);
        if !is_data || is_carried(sheet, tenures, at, &mut relayed, unread)? {
            sheet.exclude(at, Reason::Dtls(named))?;
        } else if sheet.is_early(record.stamp) {
            sheet.exclude(at, Reason::Edge)?;
        }
    }
    unread.carrying.relayed = Some(relayed.carriers);
    Ok(())
}

/// Whether application data has a carrier within the hold before, which it then takes: data at a
/// relayed address, preferably no longer than the departure, a DTLS record, or a packet over TCP or
/// IPv6.
fn is_carried(
    sheet: &mut Sheet<'_>,
    tenures: &Tenures,
    at: usize,
    relayed: &mut Relayed,
    unread: &mut Unread,
) -> Result<bool, AllocError> {
    let Some(record) = sheet.record(at) else {
        return Ok(false);
    };
    let before = sheet.policy.hold.saturating_add(sheet.slack);
    let load = Load {
        departure: u32::try_from(at).unwrap_or(u32::MAX),
        moment: record.stamp,
        from: record.stamp.saturating_sub(before),
        to: record.stamp.saturating_add(sheet.slack),
        bytes: u32::from(record.least.saturating_sub(ADDED).max(1)),
        most: u32::MAX,
        takes_all: true,
    };
    let not_longer = Load {
        most: u32::from(record.least.max(1)),
        ..load
    };
    if relayed.take(sheet, tenures, not_longer)?
        || unread.takes_record(load)?
        || relayed.take(sheet, tenures, load)?
    {
        return Ok(true);
    }
    unread.takes_packet(load)
}
