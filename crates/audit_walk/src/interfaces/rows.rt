//! How far each interface was placed.

use crate::numbers::{AnswerNumber, ArrivalNumber};
use audit_model::SightId;
use audit_seen::LaneNumber;
use std::alloc::{AllocError, Global};
use std::collections::VecDeque;

/// The role of a sighting in the search.
#[derive(Clone, Copy, Debug, PartialEq, Eq)]
pub enum Role {
    /// A datagram that arrives.
    Arrival(ArrivalNumber),
    /// A success or error response.
    Answer(AnswerNumber),
    /// Relayed data that leaves.
    Data(Data),
    /// A departure whose act is before the cut at which the walk begins, and its lane.
    Owed(LaneNumber),
}

/// Relayed data that leaves.
#[derive(Clone, Copy, Debug, PartialEq, Eq)]
pub struct Data {
    lane: Option<LaneNumber>,
    digest: u64,
}

impl Data {
    /// Data with this digest that leaves to the client of a lane, or to a peer.
    pub fn new(lane: Option<LaneNumber>, digest: u64) -> Data {
        Data { lane, digest }
    }

    /// The lane of the client that receives it, if it leaves to one.
    pub fn lane(&self) -> Option<LaneNumber> {
        self.lane
    }

    pub fn digest(&self) -> u64 {
        self.digest
    }
}

/// What a departure waits for.
#[derive(Clone, Copy, Debug, PartialEq, Eq)]
pub enum Wait {
    /// An arrival.
    Arrival(ArrivalNumber),
    /// The next sighting of any interface.
    Next,
    /// Data that arrives and may be relayed before the departure's request deletes the allocation.
    Data(ArrivalNumber),
}

/// How often the next sighting of any interface wakes a waiting departure.
pub const WAITS: u32 = 64;

/// How often a departure waits for data.
const DATA_WAITS: u32 = 8;

/// How many tries one departure has. An act is one try, plus one for every `UNIT` bytes of its
/// datagrams.
const TRIES: u32 = 64;

/// How many of the tries may be used before the departure's last moment.
const EARLY_TRIES: u32 = 32;

/// The number of bytes that count as one more try, since the judge reads them.
const UNIT: usize = 1024;

/// One interface.
#[derive(Drop)]
pub struct Row {
    /// The roles of its sightings that were noted and have no key yet.
    roles: VecDeque<Role>,
    /// How many of its sightings were noted.
    noted: u32,
    /// How many of its sightings have a key.
    placed: u32,
    /// How often the next one has waited.
    waits: u32,
    /// How many tries were used for the next one.
    tried: u32,
    /// The moment at which it is queued.
    queued: Option<u64>,
    /// What the next one waits for.
    wait: Option<Wait>,
    /// The moment until which it waits at most.
    until: u64,
}

impl Row {
    pub fn new(alloc: Global) -> Row {
        Row {
            roles: VecDeque::new(alloc),
            noted: 0,
            placed: 0,
            waits: 0,
            tried: 0,
            queued: None,
            wait: None,
            until: 0,
        }
    }

    /// An interface of which this many sightings are placed.
    pub fn resume(alloc: Global, placed: u32) -> Row {
        let mut row = Row::new(alloc);
        row.noted = placed;
        row.placed = placed;
        row
    }

    /// Whether it is queued.
    pub fn is_queued(&self) -> bool {
        self.queued.is_some()
    }

    /// Whether it is queued at that moment.
    pub fn is_queued_at(&self, moment: u64) -> bool {
        self.queued == Some(moment)
    }

    /// Whether it is queued after that moment.
    pub fn is_queued_after(&self, moment: u64) -> bool {
        match self.queued {
            Some(queued) => queued > moment,
            None => false,
        }
    }

    /// Notes that it is queued at that moment.
    pub fn queue_at(&mut self, moment: u64) {
        self.queued = Some(moment);
    }

    /// Whether the next sighting waits.
    pub fn is_waiting(&self) -> bool {
        self.wait.is_some()
    }

    /// Whether the next sighting waits for that.
    pub fn is_waiting_for(&self, wait: Wait) -> bool {
        self.wait == Some(wait)
    }

    /// The moment until which the next sighting waits, if it waits for anything but data.
    pub fn waits_until(&self) -> Option<u64> {
        match self.wait {
            None | Some(Wait::Data(_)) => None,
            Some(Wait::Arrival(_) | Wait::Next) => Some(self.until),
        }
    }

    /// Whether the next sighting may wait for data once more.
    pub fn may_wait_for_data(&self) -> bool {
        self.waits < DATA_WAITS
    }

    /// Lets the next sighting wait as often again.
    pub fn renew_waits(&mut self) {
        self.waits = 0;
    }

    /// Lets the next sighting wait until a moment at most. Returns whether the next sighting of any
    /// interface wakes it: it waits for that, and hasn't waited often.
    pub fn wait_for(&mut self, wait: Wait, until: u64) -> bool {
        self.wait = Some(wait);
        self.until = until;
        self.waits = self.waits.saturating_add(1);
        wait == Wait::Next && self.waits < WAITS
    }

    /// Begins to place the next sighting, which is neither queued nor waits.
    pub fn start(&mut self) {
        self.queued = None;
        self.wait = None;
    }

    /// How many sightings were noted.
    pub fn noted(&self) -> u32 {
        self.noted
    }

    /// Notes the role of the next sighting.
    pub fn note(&mut self, role: Role) -> Result<(), AllocError> {
        self.roles.push_back(role)?;
        self.noted = self.noted.saturating_add(1);
        Ok(())
    }

    /// The next sighting without a key.
    pub fn next(&self, iface: u32) -> Option<(SightId, Role)> {
        let role = self.roles.front()?;
        let index = self.placed;
        Some((SightId { iface, index }, *role))
    }

    /// The role of the sighting that comes `count` sightings after the next one.
    pub fn role_after(&self, count: usize) -> Option<Role> {
        self.roles.get(count).copied()
    }

    /// Whether each of its sightings that was noted has a key.
    pub fn is_placed(&self) -> bool {
        self.roles.is_empty()
    }

    /// Goes on after the next sighting.
    pub fn advance(&mut self) {
        let _placed = self.roles.pop_front();
        self.placed = self.placed.saturating_add(1);
        self.waits = 0;
        self.tried = 0;
    }

    /// Counts an act that is tried for the next sighting, whose datagrams have `bytes` bytes.
    /// Returns whether it may be tried.
    pub fn count_try(&mut self, is_last_moment: bool, bytes: usize) -> bool {
        let limit = if is_last_moment { TRIES } else { EARLY_TRIES };
        if self.tried >= limit {
            return false;
        }
        let weight = u32::try_from(bytes / UNIT).unwrap_or(TRIES);
        self.tried = self
            .tried
            .saturating_add(weight)
            .saturating_add(1)
            .min(limit);
        true
    }
}
