//! The state of one lane: a client at a listen address.

use super::holding::{Deleted, Holding};
use super::last::Last;
use super::pending::Pending;
use crate::causes::Cause;
use crate::content::Content;
use crate::datagrams::{Answer, Datagrams};
use crate::judge::Judge;
use crate::numbers::AnswerNumber;
use audit_content::{ToClient, named_channel};
use audit_model::{Addr, Key, SightId, Sighting, Tenancy};
use audit_rules::LaneTable;
use audit_seen::LaneNumber;
use std::alloc::{AllocError, Global};

/// How many deleted allocations of a lane are kept.
const DELETED_KEPT: usize = 4;

/// The state of one lane.
#[derive(Drop)]
pub struct FoundLane {
    number: LaneNumber,
    client: Addr,
    listen: Addr,
    /// The current allocation.
    current: Holding,
    /// The last ones that were deleted, in order.
    deleted: Vec<Deleted>,
    /// Whether a Send indication of the client was noted.
    sends: bool,
    /// The last of each kind of its datagrams.
    last: Last,
    /// The responses that are delayed.
    pending: Pending,
    /// Until when it holds the addresses of allocations that expired and were replaced.
    outlived: u64,
}

impl FoundLane {
    pub fn new(alloc: Global, number: LaneNumber, client: Addr, listen: Addr) -> FoundLane {
        FoundLane {
            number,
            client,
            listen,
            current: Holding::new(alloc, number, client, listen),
            deleted: Vec::new(alloc),
            sends: false,
            last: Last::new(),
            pending: Pending::new(alloc),
            outlived: 0,
        }
    }

    /// Sets the current allocation.
    pub fn set_holding(&mut self, holding: Holding) {
        self.current = holding;
    }

    /// Applies a response to a request now, and returns whether the rules allow it. If not, nothing
    /// changes.
    pub fn answer<'a>(
        &mut self,
        judge: &Judge<'a>,
        arrives: &'a Sighting,
        leaves: &Sighting,
        key: Key,
    ) -> Result<bool, AllocError> {
        let held = self.current.running();
        if !self
            .current
            .answers(judge, self.number, arrives, leaves, key)?
        {
            return Ok(false);
        }
        self.note_replaced(held);
        Ok(true)
    }

    /// Notes until when it holds the address of the allocation that was there before an act, if
    /// that act made another one.
    fn note_replaced(&mut self, held: Option<Tenancy>) {
        if let (Some(held), Some(tenancy)) = (held, self.current.running()) {
            if held.born != tenancy.born {
                self.outlived = self.outlived.max(held.last);
            }
        }
    }

    /// Returns whether the rules let the server relay data now.
    pub fn relays(
        &mut self,
        judge: &Judge<'_>,
        arrives: &Sighting,
        leaves: &Sighting,
        key: Key,
    ) -> Result<bool, AllocError> {
        self.current
            .relays(judge, self.number, arrives, leaves, key)
    }

    /// Relays data right before one of the deletions, if the rules allow it at a key after
    /// `behind`. Returns the key of the act.
    pub fn relay_before_deletion(
        &mut self,
        judge: &Judge<'_>,
        arrives: &Sighting,
        leaves: &Sighting,
        behind: Key,
    ) -> Result<Option<Key>, AllocError> {
        let lane = self.number;
        for deleted in &mut self.deleted {
            let key = deleted.relay(judge, lane, arrives, leaves, behind)?;
            if key.is_some() {
                return Ok(key);
            }
        }
        Ok(None)
    }

    /// Deletes the allocation, keeps its state, and returns a copy of its table. Acts may still be
    /// placed right before the deletion, from key `next` on.
    pub fn delete(&mut self, alloc: Global, next: Key) -> Result<LaneTable, AllocError> {
        let table = self.current.copied_table(alloc)?;
        let empty = Holding::new(alloc, self.number, self.client, self.listen);
        let holding = std::mem::replace(&mut self.current, empty);
        if self.deleted.len() >= DELETED_KEPT {
            let _oldest = self.deleted.remove(0);
        }
        self.deleted.push(Deleted::new(holding, next))?;
        Ok(table)
    }

    /// Notes the changes by a response that was acted on, which is no longer delayed.
    pub fn note_given(
        &mut self,
        number: AnswerNumber,
        answer: &Answer,
        arrives: Option<&Sighting>,
    ) -> Result<(), AllocError> {
        match answer.content() {
            Content::Allocated(relayed) => self.current.set_relayed(relayed),
            Content::Bound => {
                let channel = match arrives {
                    Some(arrives) => named_channel(arrives.payload.as_slice()),
                    None => None,
                };
                if let Some(channel) = channel {
                    self.current.bind(channel)?;
                }
            }
            _ => {}
        }
        self.pending.remove(answer.sight(), number);
        Ok(())
    }

    /// Delays a response until it leaves.
    pub fn keep_back(&mut self, number: AnswerNumber, answer: &Answer) -> Result<(), AllocError> {
        self.pending
            .insert(answer.sight(), number, answer.content())
    }

    /// Whether a delayed response leaves before this one.
    pub fn has_pending_before(&self, answer: SightId) -> bool {
        self.pending.has_before(answer)
    }

    /// The first delayed response, except this one, that makes or deletes an allocation.
    pub fn pending_change(&self, datagrams: &Datagrams, but: AnswerNumber) -> Option<AnswerNumber> {
        self.pending.first_change(datagrams, but)
    }

    /// The first delayed response that makes an allocation.
    pub fn pending_allocation(&self, datagrams: &Datagrams) -> Option<AnswerNumber> {
        self.pending.first_allocation(datagrams)
    }

    /// The first delayed response that leaves after another one, and neither makes nor deletes an
    /// allocation.
    pub fn pending_other(
        &self,
        datagrams: &Datagrams,
        after: Option<SightId>,
    ) -> Option<(SightId, AnswerNumber)> {
        self.pending.next_other(datagrams, after)
    }

    /// The delayed response that says that the allocation is deleted.
    pub fn pending_deletion(&self) -> Option<AnswerNumber> {
        self.pending.deletion()
    }

    /// Notes that the client sends data in indications.
    pub fn note_sending(&mut self) {
        self.sends = true;
    }

    /// Whether a Send indication of the client was noted.
    pub fn sends(&self) -> bool {
        self.sends
    }

    /// The last of each kind of its datagrams.
    pub fn last(&self) -> &Last {
        &self.last
    }

    pub fn last_mut(&mut self) -> &mut Last {
        &mut self.last
    }

    /// The channel of a peer.
    pub fn number_of(&self, peer: Addr) -> Option<u16> {
        self.current.number_of(peer)
    }

    /// The channel of a peer in the last of the deleted allocations that had one, unless it is this
    /// one.
    pub fn number_before(&self, peer: Addr, current: Option<u16>) -> Option<u16> {
        for deleted in self.deleted.iter().rev() {
            let number = deleted.holding().number_of(peer);
            if number.is_some() && number != current {
                return number;
            }
        }
        None
    }

    /// The cause of data with this digest that the client receives.
    pub fn cause_of(&self, sent: &ToClient<'_>, digest: u64) -> Option<Cause> {
        self.current.cause_of(sent, digest)
    }

    /// The cause of data that the client receives, by the last of its deleted allocations that had
    /// such a peer, unless it is this one.
    pub fn cause_before(
        &self,
        sent: &ToClient<'_>,
        digest: u64,
        current: Option<Cause>,
    ) -> Option<Cause> {
        for deleted in self.deleted.iter().rev() {
            let cause = deleted.holding().cause_of(sent, digest);
            if cause.is_some() && cause != current {
                return cause;
            }
        }
        None
    }

    /// The relayed address of its allocation, if it has one.
    pub fn relayed(&self) -> Option<Addr> {
        Some(self.current.running()?.relayed)
    }

    /// Whether it has an allocation.
    pub fn has_allocation(&self) -> bool {
        self.current.running().is_some()
    }

    /// Whether it has an allocation that was made before a key.
    pub fn had_allocation_at(&self, key: Key) -> bool {
        match self.current.running() {
            Some(tenancy) => tenancy.born.key < key,
            None => false,
        }
    }

    /// Whether it may hold that relayed address at the moment, by the current allocation or by one
    /// that was replaced.
    pub fn may_hold(&self, relayed: Addr, moment: u64) -> bool {
        self.holds(relayed, moment) || self.outlived >= moment
    }

    /// Whether it holds that relayed address at the moment.
    pub fn holds(&self, relayed: Addr, moment: u64) -> bool {
        match self.current.running() {
            Some(tenancy) => tenancy.relayed == relayed && tenancy.last >= moment,
            None => false,
        }
    }
}
