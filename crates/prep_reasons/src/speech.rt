//! Which clients use DTLS, and which records of it may be data.

use crate::inner::is_outside;
use crate::sheet::Sheet;
use audit_model::Side;
use prep_records::{Carrier, CarrierKind, Content, Record};
use std::alloc::AllocError;

/// The type of a DTLS record with application data (RFC 9147, section 4).
const APPLICATION_DATA: u64 = 23;

/// The range of the first byte of an encrypted DTLS 1.3 record (RFC 9147, section 4), which may
/// have application data, too.
const LEAST_ENCRYPTED: u64 = 32;

const GREATEST_ENCRYPTED: u64 = 63;

/// The protocol of a client.
#[derive(Clone, Copy, PartialEq, Eq)]
pub(crate) enum Speech {
    Nothing,
    /// Only DTLS.
    Dtls,
    /// Other packets, too.
    Other,
}

/// Whether a DTLS record may have application data.
pub(crate) fn may_have_data(record: &Record) -> bool {
    record.digest == APPLICATION_DATA
        || (LEAST_ENCRYPTED <= record.digest && record.digest <= GREATEST_ENCRYPTED)
}

/// The protocol of each client within the stated moments.
pub(crate) fn speech_of(sheet: &Sheet<'_>) -> Result<Vec<Speech>, AllocError> {
    let mut all = vec![in sheet.alloc; Speech::Nothing; sheet.pairs.len()]?;
    for at in 0..sheet.records.len() {
        let (Some(record), Some(pair)) = (sheet.record(at), sheet.pair_number(at)) else {
            continue;
        };
        if !matches!(record.side, Side::Arrives) || is_outside(sheet, at) {
            continue;
        }
        let is_dtls = matches!(record.content, Content::Dtls);
        if let Some(speech) = all.get_mut(pair as usize) {
            *speech = if is_dtls && *speech != Speech::Other {
                Speech::Dtls
            } else {
                Speech::Other
            };
        }
    }
    Ok(all)
}

/// Adds the DTLS records of clients that send nothing else to the carriers.
pub(crate) fn add_records(
    sheet: &Sheet<'_>,
    speech: &[Speech],
    carriers: &mut Vec<Carrier>,
) -> Result<(), AllocError> {
    if !speech.contains(&Speech::Dtls) {
        return Ok(());
    }
    for at in 0..sheet.records.len() {
        let (Some(record), Some(pair)) = (sheet.record(at), sheet.pair_number(at)) else {
            continue;
        };
        let is_dtls = matches!(record.content, Content::Dtls)
            && matches!(speech.get(pair as usize), Some(Speech::Dtls));
        if !is_dtls || !matches!(record.side, Side::Arrives) || is_outside(sheet, at) {
            continue;
        }
        let kind = if may_have_data(&record) {
            CarrierKind::DtlsData
        } else {
            CarrierKind::Dtls
        };
        carriers.push(carrier_of(&record, kind))?;
    }
    Ok(())
}

/// A record as a carrier of at least one byte.
pub(crate) fn carrier_of(record: &Record, kind: CarrierKind) -> Carrier {
    Carrier {
        stamp: record.stamp,
        connection: 0,
        bytes: u32::from(record.least.max(1)),
        packet: record.packet,
        capture: record.capture(),
        goes_on: false,
        kind,
    }
}
