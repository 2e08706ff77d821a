//! The lanes, and the holder of each relayed address.

mod allocations;
mod holders;
mod holding;
mod lane;
mod last;
mod origins;
mod pending;
mod resume;
mod tables;

use self::allocations::Allocations;
use self::holders::Holders;
pub use self::holding::ACTS_BEFORE;
pub use self::lane::FoundLane;
pub use self::origins::Origins;
use crate::datagrams::{Answer, Datagrams};
use crate::judge::Judge;
use crate::numbers::{AnswerNumber, ArrivalNumber};
use audit_clients::Clients;
use audit_model::Addr;
use audit_seen::LaneNumber;
use std::alloc::{AllocError, Global};
use std::collections::BTreeMap;

/// The lanes, by number, and the relayed addresses that they have.
#[derive(Drop)]
pub struct Lanes {
    list: Vec<FoundLane>,
    /// The holders of each relayed address.
    holders: BTreeMap<Addr, Holders>,
    /// The allocations that aren't made yet.
    allocations: Allocations,
    alloc: Global,
}

impl Lanes {
    pub fn new(alloc: Global) -> Lanes {
        Lanes {
            list: Vec::new(alloc),
            holders: BTreeMap::new(alloc),
            allocations: Allocations::new(alloc),
            alloc,
        }
    }

    /// Adds a lane for each client that has none yet.
    pub fn add_all(&mut self, clients: &Clients) -> Result<(), AllocError> {
        for (client, listen) in clients.lanes_from(self.list.len()) {
            let Ok(number) = u32::try_from(self.list.len()) else {
                return Ok(());
            };
            let lane = FoundLane::new(self.alloc, LaneNumber::new(number), *client, *listen);
            self.list.push(lane)?;
        }
        Ok(())
    }

    pub fn get(&self, lane: LaneNumber) -> Option<&FoundLane> {
        self.list.get(lane.index())
    }

    pub fn get_mut(&mut self, lane: LaneNumber) -> Option<&mut FoundLane> {
        self.list.get_mut(lane.index())
    }

    /// The first lane, if there is one.
    pub fn first(&self) -> Option<LaneNumber> {
        if self.list.is_empty() {
            None
        } else {
            Some(LaneNumber::new(0))
        }
    }

    /// The last lane that had a relayed address.
    pub fn last_holder(&self, relayed: Addr) -> Option<LaneNumber> {
        Some(self.holders.get(&relayed)?.last())
    }

    /// Another lane that holds a relayed address at a moment.
    pub fn other_holder(&self, lane: LaneNumber, relayed: Addr, moment: u64) -> Option<LaneNumber> {
        let holder = self.last_holder(relayed)?;
        let holds = self.get(holder)?.holds(relayed, moment);
        if holds && holder != lane {
            Some(holder)
        } else {
            None
        }
    }

    /// Whether another lane may still hold a relayed address that a lane is granted at a moment.
    /// The holders before the last one were checked when the last one was granted the address.
    pub fn may_be_held(&self, lane: LaneNumber, relayed: Addr, moment: u64) -> bool {
        let Some(last) = self.last_holder(relayed) else {
            return false;
        };
        match self.get(last) {
            Some(client) if last != lane => client.may_hold(relayed, moment),
            _ => false,
        }
    }

    /// Notes that a lane has a relayed address from now on.
    pub fn note_holder(&mut self, lane: LaneNumber, relayed: Addr) -> Result<(), AllocError> {
        let holders = match self.holders.get(&relayed) {
            Some(holders) => holders.followed_by(lane),
            None => Holders::new(lane),
        };
        self.holders.insert(relayed, holders)?;
        Ok(())
    }

    /// Notes a peer's datagram to a relayed address with the lane that holds the address.
    pub fn note_received(&mut self, relayed: Addr, number: ArrivalNumber) {
        if let Some(holder) = self.last_holder(relayed) {
            if let Some(client) = self.get_mut(holder) {
                client.last_mut().note_received(number);
            }
        }
    }

    /// Notes a response that makes an allocation of a relayed address, and leaves at `moment` or
    /// later.
    pub fn expect_allocation(
        &mut self,
        relayed: Addr,
        moment: u64,
        answer: AnswerNumber,
    ) -> Result<(), AllocError> {
        self.allocations.insert(relayed, moment, answer)
    }

    /// The first response that makes an allocation of a relayed address, and on whose request the
    /// server may act at a moment.
    pub fn expected_allocation(
        &self,
        judge: &Judge<'_>,
        datagrams: &Datagrams,
        relayed: Addr,
        moment: u64,
    ) -> Option<AnswerNumber> {
        self.allocations.first(judge, datagrams, relayed, moment)
    }

    /// The first moment, not before `from`, at which a response leaves that makes an allocation of
    /// a relayed address.
    pub fn next_allocation(&self, relayed: Addr, from: u64) -> Option<u64> {
        self.allocations.next_moment(relayed, from)
    }

    /// Forgets a response that makes an allocation, once the server has acted on its request.
    pub fn forget_allocation(&mut self, relayed: Addr, moment: u64, answer: AnswerNumber) {
        self.allocations.remove(relayed, moment, answer);
    }

    /// Whether another client must have had the relayed address before: its allocation can end
    /// before this one is made, and this one can't end before that one is made. Responses that
    /// leave before `earliest` aren't looked at.
    pub fn has_to_follow(
        &self,
        judge: &Judge<'_>,
        datagrams: &Datagrams,
        answer: &Answer,
        earliest: u64,
    ) -> bool {
        self.allocations
            .has_to_follow(judge, datagrams, answer, earliest)
    }
}
