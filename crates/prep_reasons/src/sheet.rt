//! The records in the order of time, and the decisions about each.

use crate::exchanged::Exchanged;
use crate::lines::Lines;
use crate::members::Members;
use crate::state_before::StateBefore;
use audit_model::{Addr, Pair, Policy, Side};
use prep_causes::MaybeNumber;
use prep_cut::{LineNumber, Reason, Stated, slack_of};
use prep_records::{Carrier, Content, Kept, Record, Records, Stun, UnreadGrant};
use std::alloc::{AllocError, Global};

/// The nanoseconds of a second.
pub(crate) const SECOND: u64 = 1_000_000_000;

/// The state of the decisions: the records by number, from 0, in the order of time. Memory for each
/// datagram is small: numbers take four bytes, and marks that only the decisions need are freed
/// after them.
#[derive(Drop)]
pub struct Sheet<'a> {
    pub(crate) alloc: Global,
    pub(crate) policy: &'a Policy,
    pub(crate) stated: Stated,
    /// Twice the greatest skew.
    pub(crate) slack: u64,
    /// The moment at which the captures begin.
    pub(crate) begin: u64,
    /// In the order of time.
    pub(crate) records: Vec<Kept>,
    pub(crate) stun: Vec<Stun>,
    /// For each response among these, the record of its request.
    pub(crate) requests: Vec<MaybeNumber>,
    pub(crate) peers: Vec<Addr>,
    /// By address and moment.
    pub(crate) unread_grants: Vec<UnreadGrant>,
    /// The packets that may carry data that isn't read.
    pub(crate) carriers: Vec<Carrier>,
    pub(crate) pairs: Vec<Pair>,
    pub(crate) lines: Lines,
    /// For each record, the line that excludes it.
    pub(crate) why: Vec<MaybeNumber>,
    pub(crate) old: Vec<StateBefore>,
    /// For each record, whether its data has left already.
    pub(crate) used: Vec<bool>,
    /// The records of each client within the stated moments.
    pub(crate) members: Members,
    /// Departures of clients from before that no state from before allows, and that stay in.
    pub(crate) beyond: u64,
}

impl<'a> Sheet<'a> {
    /// The records in order. Only those after the stated moments are excluded: earlier ones aren't
    /// recorded.
    pub(crate) fn new(
        alloc: Global,
        policy: &'a Policy,
        stated: Stated,
        all: Records,
    ) -> Result<Self, AllocError> {
        let Records {
            mut records,
            stun,
            peers,
            mut unread_grants,
            carriers,
            captures: _,
            first,
            allocations: _,
        } = all;
        records.sort_unstable_by_key(|kept| kept.order());
        unread_grants.sort_by_key(|grant| (grant.relayed, grant.stamp))?;
        let count = records.len();
        let begin = match (stated.since, first) {
            (Some(since), _) => since,
            (None, Some(first)) => first,
            (None, None) => 0,
        };
        let mut sheet = Sheet {
            alloc,
            policy,
            stated,
            slack: slack_of(policy),
            begin,
            records,
            requests: vec![in alloc; MaybeNumber::none(); stun.len()]?,
            stun,
            peers,
            unread_grants,
            carriers,
            pairs: Vec::new(alloc),
            lines: Lines::new(alloc),
            why: vec![in alloc; MaybeNumber::none(); count]?,
            old: vec![in alloc; StateBefore::IsNotNeeded; count]?,
            used: vec![in alloc; false; count]?,
            members: Members::new(alloc),
            beyond: 0,
        };
        sheet.exclude_outside()?;
        sheet.number_pairs()?;
        Ok(sheet)
    }

    /// The number of records.
    pub fn len(&self) -> usize {
        self.records.len()
    }

    /// A record by its number.
    pub fn record(&self, at: usize) -> Option<Record> {
        Some(self.records.get(at)?.record())
    }

    /// The lines that exclude records, in no order.
    pub fn reasons(&self) -> &[Reason] {
        self.lines.reasons.as_slice()
    }

    /// The line that excludes a record.
    pub fn line_of(&self, at: usize) -> Option<LineNumber> {
        self.why.get(at)?.get()
    }

    /// The number of the request that a response answers.
    pub fn request_of(&self, at: usize) -> Option<usize> {
        let Content::Stun { place } = self.record(at)?.content else {
            return None;
        };
        let request = self.requests.get(place as usize)?.get()?;
        Some(request as usize)
    }

    /// Records the request of a response.
    pub(crate) fn note_request(&mut self, at: usize, request: Option<usize>) {
        let Some(Content::Stun { place }) = self.content(at) else {
            return;
        };
        if let Some(mark) = self.requests.get_mut(place as usize) {
            *mark = match request {
                Some(request) => MaybeNumber::of_place(request),
                None => MaybeNumber::none(),
            };
        }
    }

    fn content(&self, at: usize) -> Option<Content> {
        Some(self.record(at)?.content)
    }

    pub(crate) fn is_kept(&self, at: usize) -> bool {
        match self.why.get(at) {
            Some(line) => line.get().is_none(),
            None => false,
        }
    }

    /// Whether a client's allocation from before explains a record.
    pub(crate) fn state_before(&self, at: usize) -> StateBefore {
        match self.old.get(at) {
            Some(state) => *state,
            None => StateBefore::IsNotNeeded,
        }
    }

    /// The number of a record's client, if it has one.
    pub fn pair_number(&self, at: usize) -> Option<u32> {
        self.records.get(at)?.client.get()
    }

    pub(crate) fn pair(&self, number: u32) -> Option<Pair> {
        self.pairs.get(number as usize).copied()
    }

    /// A record's request or response, if it is one.
    pub fn exchanged(&self, at: usize) -> Option<Exchanged> {
        let record = self.record(at)?;
        let Content::Stun { place } = record.content else {
            return None;
        };
        let stun = self.stun.get(place as usize).copied()?;
        Some(Exchanged { record, stun })
    }

    /// A response that left, and the request that it answers.
    pub fn answered(&self, at: usize) -> Option<(Exchanged, Exchanged)> {
        let answer = self.exchanged(at)?;
        let asked = self.exchanged(self.request_of(at)?)?;
        Some((answer, asked))
    }

    /// The peers that a request names.
    pub(crate) fn peers_of(&self, stun: &Stun) -> &[Addr] {
        let from = stun.peers_from as usize;
        let to = from.saturating_add(stun.peers as usize);
        self.peers.get(from..to).unwrap_or(&[])
    }

    /// The records of a client, in the order of their moments.
    pub(crate) fn of_pair(&self, number: u32) -> &[u32] {
        self.members.of(number)
    }

    /// The number of clients.
    pub fn pair_count(&self) -> u32 {
        u32::try_from(self.pairs.len()).unwrap_or(u32::MAX)
    }

    /// The last client that was granted a relayed address over TCP or IPv6 up to a moment.
    pub(crate) fn unread_grant_before(&self, relayed: Addr, moment: u64) -> Option<UnreadGrant> {
        let behind = self
            .unread_grants
            .partition_point(|grant| (grant.relayed, grant.stamp) <= (relayed, moment));
        let grant = *self.unread_grants.get(behind.checked_sub(1)?)?;
        if grant.relayed == relayed {
            Some(grant)
        } else {
            None
        }
    }

    /// Whether the arrival that explains a departure may be from before the captures.
    pub(crate) fn is_early(&self, stamp: u64) -> bool {
        let hold = self.policy.hold.saturating_add(self.slack);
        !self.stated.is_from_start && stamp <= self.begin.saturating_add(hold)
    }

    /// Frees the marks that only the decisions need.
    pub(crate) fn forget_marks(&mut self) {
        self.requests = Vec::new(self.alloc);
        self.old = Vec::new(self.alloc);
        self.used = Vec::new(self.alloc);
    }

    /// Excludes a record by a line, unless it is excluded already.
    pub(crate) fn exclude(&mut self, at: usize, reason: Reason) -> Result<(), AllocError> {
        if !self.is_kept(at) {
            return Ok(());
        }
        self.move_to(at, reason)
    }

    /// Keeps a record in.
    pub(crate) fn keep(&mut self, at: usize) {
        if let Some(mark) = self.why.get_mut(at) {
            *mark = MaybeNumber::none();
        }
    }

    /// Excludes a record by this line, in place of any other one.
    pub(crate) fn move_to(&mut self, at: usize, reason: Reason) -> Result<(), AllocError> {
        let line = self.lines.number_of(reason)?;
        if let Some(mark) = self.why.get_mut(at) {
            *mark = MaybeNumber::some(line);
        }
        Ok(())
    }
}
