//! Arrivals at relayed addresses, and which departures to clients from before they explain.

use crate::channels::Channels;
use crate::inner::{inner_peer, is_data, is_outside, wanted_of};
use crate::origin::Origin;
use crate::pool::{Group, Grouping, Pool};
use crate::responses::Shown;
use crate::sheet::Sheet;
use crate::state_before::StateBefore;
use audit_model::Side;
use prep_records::{Content, Record};
use std::alloc::AllocError;

/// The arrivals that may be the data of departures to clients.
#[derive(Drop)]
pub(crate) struct PeerData {
    /// At a relayed address of a judged client, or from such a client to a peer.
    judged: Pool,
    /// At any other relayed address, or from a client to an address of the service.
    other: Pool,
}

impl PeerData {
    /// The arrivals within the stated moments. The cost is the number of records times its
    /// logarithm.
    pub(crate) fn new(sheet: &Sheet<'_>, shown: &Shown) -> Result<Self, AllocError> {
        let mut judged = Vec::new(sheet.alloc);
        let mut other = Vec::new(sheet.alloc);
        for at in 0..sheet.records.len() {
            let Some(record) = sheet.record(at) else {
                continue;
            };
            if !matches!(record.side, Side::Arrives) || is_outside(sheet, at) {
                continue;
            }
            let number = u32::try_from(at).unwrap_or(u32::MAX);
            if matches!(record.content, Content::Relayed) {
                match shown.tenures.holder(record.to, record.stamp) {
                    Some(_) => judged.push(number)?,
                    None => other.push(number)?,
                }
            } else if is_data(&record) && may_be_inner(sheet, &shown.channels, at) {
                other.push(number)?;
            } else if is_data(&record) && sheet.state_before(at) != StateBefore::Explains {
                judged.push(number)?;
            }
        }
        Ok(PeerData {
            judged: Pool::new(sheet, Grouping::Together, judged)?,
            other: Pool::new(sheet, Grouping::Together, other)?,
        })
    }

    /// The origin of data that leaves for a client from before: an unused arrival, which it takes,
    /// with the same data within the hold before, at a relayed address that no judged client has.
    /// Otherwise the data is from before the captures, unless a judged client's address got the
    /// same data.
    pub(crate) fn origin(&mut self, sheet: &mut Sheet<'_>, record: &Record) -> Origin {
        let wanted = wanted_of(sheet, record, Group::All);
        if self.other.take(sheet, wanted).is_some() {
            Origin::Shown
        } else if sheet.is_early(record.stamp) && !self.has_judged(sheet, record) {
            Origin::Early
        } else {
            Origin::Missing
        }
    }

    /// Whether the same data arrived at a relayed address of a judged client, or from such a
    /// client, within the hold before.
    pub(crate) fn has_judged(&self, sheet: &Sheet<'_>, record: &Record) -> bool {
        let wanted = wanted_of(sheet, record, Group::All);
        self.judged.first(sheet, wanted).is_some()
    }
}

/// Whether data of a client may be for an address of the service: it names one, or a channel whose
/// peer the captures don't show.
pub(crate) fn may_be_inner(sheet: &Sheet<'_>, channels: &Channels, at: usize) -> bool {
    if inner_peer(sheet, channels, at).is_some() {
        return true;
    }
    let Some(record) = sheet.record(at) else {
        return false;
    };
    match (record.content, sheet.pair_number(at)) {
        (Content::Channel { number }, Some(pair)) => {
            let moment = record.stamp.saturating_add(sheet.slack);
            channels.peer(pair, number, moment).is_none()
        }
        _ => false,
    }
}
