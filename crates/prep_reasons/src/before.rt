//! Clients from before the captures, and what their earlier allocations may explain.

use crate::channels::Channels;
use crate::exchanged::Exchanged;
use crate::sheet::{SECOND, Sheet};
use crate::state_before::StateBefore;
use audit_model::{Addr, Side};
use audit_stun::numbers::method;
use prep_records::{Content, Record};
use std::alloc::AllocError;
use std::collections::BTreeMap;

/// A permission's lifetime (RFC 8656, section 9).
pub(crate) const PERMISSION: u64 = 300 * SECOND;

/// A channel's lifetime (RFC 8656, section 12).
pub(crate) const CHANNEL: u64 = 600 * SECOND;

/// The end of a client's time before, for its arrivals and for its departures.
#[derive(Clone, Copy)]
pub(crate) struct TimeBefore {
    pub(crate) arrivals: u64,
    pub(crate) departures: u64,
}

/// The time before of a client.
pub(crate) fn time_before(sheet: &Sheet<'_>, pair: u32) -> TimeBefore {
    if sheet.stated.is_from_start {
        return TimeBefore {
            arrivals: 0,
            departures: 0,
        };
    }
    let longest = sheet.stated.lifetime.saturating_mul(SECOND);
    let grace = sheet.policy.grace;
    let mut until = sheet.begin.saturating_add(longest).saturating_add(grace);
    for at in sheet.of_pair(pair) {
        let at = *at as usize;
        let Some(record) = sheet.record(at) else {
            continue;
        };
        if record.stamp > until.saturating_add(sheet.slack) {
            return TimeBefore {
                arrivals: record.stamp,
                departures: record.stamp,
            };
        }
        let Some((answer, request)) = sheet.answered(at) else {
            continue;
        };
        if shows_none(&answer) {
            return TimeBefore {
                arrivals: request.record.stamp,
                departures: record.stamp,
            };
        }
        if answer.succeeds(method::REFRESH) && answer.stun.lifetime.is_some() {
            until = answer.lease_end().saturating_add(grace);
        }
    }
    TimeBefore {
        arrivals: u64::MAX,
        departures: u64::MAX,
    }
}

/// Whether a response shows that its client has no allocation from before.
fn shows_none(answer: &Exchanged) -> bool {
    let ends = answer.succeeds(method::REFRESH) && answer.stun.lifetime == Some(0);
    let asked = answer.stun.method;
    let needs = asked == method::REFRESH
        || asked == method::CREATE_PERMISSION
        || asked == method::CHANNEL_BIND;
    answer.succeeds(method::ALLOCATE) || ends || (answer.fails(437) && needs)
}

/// The most generous state from before of a client, and its later leases.
#[derive(Drop)]
struct Generous {
    /// The end of all permissions and channels from before.
    permissions_end: u64,
    channels_end: u64,
    permissions: BTreeMap<u32, u64>,
    channels: BTreeMap<u16, u64>,
    /// The last end of a permission.
    latest: u64,
}

/// Records for each record of a client whether such a state may explain it.
pub(crate) fn explain(
    sheet: &mut Sheet<'_>,
    channels: &Channels,
    pair: u32,
    before: TimeBefore,
) -> Result<(), AllocError> {
    let grace = sheet.policy.grace;
    let mut state = Generous {
        permissions_end: sheet.begin.saturating_add(PERMISSION).saturating_add(grace),
        channels_end: sheet.begin.saturating_add(CHANNEL).saturating_add(grace),
        permissions: BTreeMap::new(sheet.alloc),
        channels: BTreeMap::new(sheet.alloc),
        latest: 0,
    };
    let count = sheet.of_pair(pair).len();
    for place in 0..count {
        let Some(at) = sheet.of_pair(pair).get(place).copied() else {
            return Ok(());
        };
        let at = at as usize;
        let explained = explained_by(sheet, channels, (pair, at), before, &mut state)?;
        if let Some(mark) = sheet.old.get_mut(at) {
            *mark = explained;
        }
    }
    Ok(())
}

/// Whether the state may explain a record that only such a state can.
fn explained_by(
    sheet: &Sheet<'_>,
    channels: &Channels,
    one: (u32, usize),
    before: TimeBefore,
    state: &mut Generous,
) -> Result<StateBefore, AllocError> {
    let (pair, at) = one;
    let Some(record) = sheet.record(at) else {
        return Ok(StateBefore::IsNotNeeded);
    };
    let end = match record.side {
        Side::Leaves => before.departures,
        Side::Arrives => before.arrivals,
    };
    match record.content {
        Content::Data { peer } if record.stamp < end => {
            let stamp = record.stamp.saturating_sub(sheet.slack);
            Ok(StateBefore::of(state.permits(peer, stamp)))
        }
        Content::Channel { number } if record.stamp < end => {
            let moment = record.stamp.saturating_add(sheet.slack);
            let peer = channels.peer(pair, number, moment);
            let stamp = record.stamp.saturating_sub(sheet.slack);
            Ok(StateBefore::of(state.binds(&record, number, peer, stamp)))
        }
        Content::Stun { .. } => match sheet.answered(at) {
            Some((answer, request)) if request.record.stamp < before.arrivals => {
                state.answer(sheet, &answer, &request)
            }
            _ => Ok(StateBefore::IsNotNeeded),
        },
        _ => Ok(StateBefore::IsNotNeeded),
    }
}

impl Generous {
    /// Whether data for a peer is permitted at a moment.
    fn permits(&self, peer: Option<Addr>, stamp: u64) -> bool {
        let own = match peer {
            Some(peer) => match self.permissions.get(&peer.ip) {
                Some(end) => *end,
                None => 0,
            },
            None => 0,
        };
        stamp <= self.permissions_end.max(own)
    }

    /// Whether a channel is bound at a moment, and the data that it carries to the client is
    /// permitted.
    fn binds(&self, record: &Record, number: u16, peer: Option<Addr>, stamp: u64) -> bool {
        let own = match self.channels.get(&number) {
            Some(end) => *end,
            None => 0,
        };
        if stamp > self.channels_end.max(own) {
            return false;
        }
        if matches!(record.side, Side::Arrives) {
            return true;
        }
        match peer {
            Some(peer) => self.permits(Some(peer), stamp),
            None => stamp <= self.permissions_end.max(self.latest),
        }
    }

    /// Reads a response, and returns whether it may be explained.
    fn answer(
        &mut self,
        sheet: &Sheet<'_>,
        answer: &Exchanged,
        request: &Exchanged,
    ) -> Result<StateBefore, AllocError> {
        let stamp = answer.record.stamp;
        let grace = sheet.policy.grace;
        let binds = answer.succeeds(method::CHANNEL_BIND);
        if binds || answer.succeeds(method::CREATE_PERMISSION) {
            let end = stamp.saturating_add(PERMISSION).saturating_add(grace);
            for peer in sheet.peers_of(&request.stun) {
                self.permissions.insert(peer.ip, end)?;
                self.latest = end;
            }
            if let (true, Some(number)) = (binds, request.stun.channel) {
                let end = stamp.saturating_add(CHANNEL).saturating_add(grace);
                self.channels.insert(number, end)?;
            }
            return Ok(StateBefore::Explains);
        }
        let refreshes = answer.succeeds(method::REFRESH) && answer.stun.lifetime.unwrap_or(0) > 0;
        let refused = answer.fails(441)
            || (answer.fails(437) && answer.stun.method == method::ALLOCATE);
        if refreshes || refused {
            return Ok(StateBefore::Explains);
        }
        Ok(StateBefore::IsNotNeeded)
    }
}
