//! Allocations that clients deleted, by a Refresh with LIFETIME 0, and the data that they allowed.

use crate::before::{CHANNEL, PERMISSION};
use crate::exchanged::Exchanged;
use crate::sheet::{SECOND, Sheet};
use audit_model::{Addr, Side};
use audit_stun::Class;
use audit_stun::numbers::method;
use prep_records::{Content, Record, Stun};
use std::alloc::AllocError;
use std::collections::BTreeMap;

/// The peer of a channel, and the end of its binding.
#[derive(Clone, Copy)]
struct Bound {
    peer: Addr,
    until: u64,
}

/// An allocation that a client has, with its permissions and channels. Each end includes the grace.
#[derive(Drop)]
struct Held {
    /// `None` for a client from before: its address isn't known.
    relayed: Option<Addr>,
    /// The transaction id of the Allocate that made it.
    tid: [u8; 12],
    until: u64,
    /// By the peer's address.
    permissions: BTreeMap<u32, u64>,
    channels: BTreeMap<u16, Bound>,
    /// Until when a client from before may have all permissions and channels.
    permissions_end: u64,
    channels_end: u64,
}

/// An allocation that its client deleted.
#[derive(Drop)]
pub(crate) struct Released {
    /// The number of the client and its listen address.
    pub(crate) client: u32,
    /// `None` for a client from before: its address isn't known.
    pub(crate) relayed: Option<Addr>,
    /// When the success response to the Refresh left.
    pub(crate) moment: u64,
    /// When the client next requested an allocation.
    pub(crate) closed: u64,
    held: Held,
}

/// The deleted allocations, client by client, in the order of time. The cost is the number of
/// records times its logarithm.
pub(crate) fn find_released(sheet: &Sheet<'_>) -> Result<Vec<Released>, AllocError> {
    let mut all = Vec::new(sheet.alloc);
    for client in 0..sheet.pair_count() {
        let first = all.len();
        let mut held: Option<Held> = Held::from_before(sheet);
        for at in sheet.of_pair(client) {
            let at = *at as usize;
            if is_asked(sheet, at) {
                close_last(sheet, at, first, &mut all);
            }
            if let Some((answer, request)) = sheet.answered(at) {
                held = match held_behind(sheet, held, &answer, &request.stun)? {
                    After::Held(held) => held,
                    After::LetGo(held) => {
                        all.push(Released {
                            client,
                            relayed: held.relayed,
                            moment: answer.record.stamp,
                            closed: u64::MAX,
                            held,
                        })?;
                        None
                    }
                };
            }
        }
    }
    Ok(all)
}

/// Whether a record is an Allocate request.
fn is_asked(sheet: &Sheet<'_>, at: usize) -> bool {
    match sheet.exchanged(at) {
        Some(exchanged) => {
            matches!(exchanged.record.side, Side::Arrives)
                && matches!(exchanged.stun.class, Class::Request)
                && exchanged.stun.method == method::ALLOCATE
        }
        None => false,
    }
}

/// Records when a client that deleted its allocation next requested one. The client's own deletions
/// begin at `first`.
fn close_last(sheet: &Sheet<'_>, at: usize, first: usize, all: &mut Vec<Released>) {
    let (Some(record), Some(last)) = (sheet.record(at), all.len().checked_sub(1)) else {
        return;
    };
    if last < first {
        return;
    }
    if let Some(released) = all.get_mut(last) {
        released.closed = released.closed.min(record.stamp);
    }
}

/// The allocation of a client after a response.
#[derive(Drop)]
enum After {
    Held(Option<Held>),
    LetGo(Held),
}

fn held_behind(
    sheet: &Sheet<'_>,
    held: Option<Held>,
    answer: &Exchanged,
    request: &Stun,
) -> Result<After, AllocError> {
    if answer.succeeds(method::ALLOCATE) {
        return Ok(After::Held(allocated(sheet, held, answer)));
    }
    let Some(mut held) = held else {
        return Ok(After::Held(None));
    };
    if answer.record.stamp > held.until {
        return Ok(After::Held(Some(held)));
    }
    if answer.fails(437) && answer.stun.method != method::ALLOCATE {
        return Ok(After::Held(None));
    }
    if answer.succeeds(method::REFRESH) {
        return Ok(match answer.stun.lifetime {
            Some(0) => After::LetGo(held),
            Some(_) => {
                held.until = answer.lease_end().saturating_add(sheet.policy.grace);
                After::Held(Some(held))
            }
            None => After::Held(None),
        });
    }
    let binds = answer.succeeds(method::CHANNEL_BIND);
    if binds || answer.succeeds(method::CREATE_PERMISSION) {
        let moment = answer.record.stamp.saturating_add(sheet.policy.grace);
        held.permit(moment, sheet.peers_of(request))?;
        if binds {
            held.bind(
                moment,
                request.channel,
                sheet.peers_of(request).first().copied(),
            )?;
        }
    }
    Ok(After::Held(Some(held)))
}

/// The allocation after an Allocate success response. A repeated one changes nothing.
fn allocated(sheet: &Sheet<'_>, held: Option<Held>, answer: &Exchanged) -> Option<Held> {
    let Some(relayed) = answer.stun.relayed else {
        return held;
    };
    let is_again = match &held {
        Some(held) => held.tid == answer.stun.tid && held.relayed == Some(relayed),
        None => false,
    };
    if is_again || !sheet.policy.relays(relayed) {
        return held;
    }
    Some(Held {
        relayed: Some(relayed),
        tid: answer.stun.tid,
        until: answer.lease_end().saturating_add(sheet.policy.grace),
        permissions: BTreeMap::new(sheet.alloc),
        channels: BTreeMap::new(sheet.alloc),
        permissions_end: 0,
        channels_end: 0,
    })
}

impl Held {
    /// What a client from before may have; `None` if the server started with the captures.
    fn from_before(sheet: &Sheet<'_>) -> Option<Held> {
        if sheet.stated.is_from_start {
            return None;
        }
        let longest = sheet.stated.lifetime.saturating_mul(SECOND);
        let begin = sheet.begin.saturating_add(sheet.policy.grace);
        Some(Held {
            relayed: None,
            tid: [0; 12],
            until: begin.saturating_add(longest),
            permissions: BTreeMap::new(sheet.alloc),
            channels: BTreeMap::new(sheet.alloc),
            permissions_end: begin.saturating_add(PERMISSION),
            channels_end: begin.saturating_add(CHANNEL),
        })
    }

    /// Permits peers from a moment on.
    fn permit(&mut self, moment: u64, peers: &[Addr]) -> Result<(), AllocError> {
        for peer in peers {
            self.permissions
                .insert(peer.ip, moment.saturating_add(PERMISSION))?;
        }
        Ok(())
    }

    /// Binds a channel from a moment on, if the request has its number and a peer.
    fn bind(
        &mut self,
        moment: u64,
        number: Option<u16>,
        peer: Option<Addr>,
    ) -> Result<(), AllocError> {
        if let (Some(number), Some(peer)) = (number, peer) {
            let until = moment.saturating_add(CHANNEL);
            self.channels.insert(number, Bound { peer, until })?;
        }
        Ok(())
    }
}

impl Released {
    /// Whether the allocation, had it lasted, would have allowed data of a peer at a moment.
    pub(crate) fn permits(&self, peer: Addr, moment: u64) -> bool {
        let is_permitted = match self.held.permissions.get(&peer.ip) {
            Some(end) => moment <= *end,
            None => false,
        };
        (is_permitted || moment <= self.held.permissions_end) && moment <= self.held.until
    }

    /// Whether a record may carry data from or for a peer at a moment: it names the peer, or a
    /// channel that is bound to it or may be.
    pub(crate) fn may_be_with(&self, record: &Record, peer: Addr, moment: u64) -> bool {
        match self.peer_of(record.content, moment) {
            Some(named) => named == peer,
            None => {
                let is_channel = matches!(record.content, Content::Channel { .. });
                is_channel && moment <= self.held.channels_end
            }
        }
    }

    /// The peer whose data a payload to the client carries, if the channel that it names would have
    /// been bound at a moment.
    pub(crate) fn peer_of(&self, content: Content, moment: u64) -> Option<Addr> {
        match content {
            Content::Data { peer } => peer,
            Content::Channel { number } => {
                let bound = self.held.channels.get(&number)?;
                if moment <= bound.until {
                    Some(bound.peer)
                } else {
                    None
                }
            }
            _ => None,
        }
    }
}
