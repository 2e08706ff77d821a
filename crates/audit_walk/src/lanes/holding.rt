//! The allocation of a client: the current state, and the state before a deletion.

use super::tables::table_of;
use crate::causes::Cause;
use crate::clock::after;
use crate::judge::Judge;
use audit_content::{Channel, ToClient};
use audit_cuts::Client;
use audit_model::{Addr, Key, Sighting, Tenancy};
use audit_rules::LaneTable;
use audit_seen::LaneNumber;
use std::alloc::{AllocError, Global};
use std::collections::BTreeMap;

/// How many acts may be placed right before a deletion.
pub const ACTS_BEFORE: u32 = 1024;

/// The current allocation of a client, or none.
#[derive(Drop)]
pub struct Holding {
    /// The server's state for the client.
    table: LaneTable,
    /// The relayed address.
    relayed: Option<Addr>,
    /// The peers of its channels, and their numbers.
    peers: BTreeMap<u16, Addr>,
    numbers: BTreeMap<Addr, u16>,
}

impl Holding {
    pub fn new(alloc: Global, number: LaneNumber, client: Addr, listen: Addr) -> Holding {
        Holding {
            table: LaneTable::new(number.value(), client, listen),
            relayed: None,
            peers: BTreeMap::new(alloc),
            numbers: BTreeMap::new(alloc),
        }
    }

    /// The allocation of a client that was carried over a cut, which ends after this grace. It
    /// takes n log n time in its permissions and channels.
    pub fn resume(
        alloc: Global,
        number: LaneNumber,
        client: &Client,
        grace: u64,
    ) -> Result<Holding, AllocError> {
        let mut channels = Vec::with_capacity(alloc, client.channels.len())?;
        for (number, channel) in &client.channels {
            channels.push((channel.lease.until, *number, channel.peer))?;
        }
        let mut holding = Holding {
            table: table_of(alloc, number, client, grace)?,
            relayed: Some(client.relayed),
            peers: BTreeMap::new(alloc),
            numbers: BTreeMap::new(alloc),
        };
        // Of the numbers of one peer the last one counts.
        channels.sort_unstable();
        for (_, number, peer) in channels {
            holding.bind_number(number, peer)?;
        }
        Ok(holding)
    }

    /// The current allocation.
    pub fn running(&self) -> Option<Tenancy> {
        self.table.running()
    }

    /// A copy of the server's state for the client.
    pub fn copied_table(&self, alloc: Global) -> Result<LaneTable, AllocError> {
        self.table.copied(alloc)
    }

    /// Applies a response to a request, and returns whether the rules allow it. If not, nothing
    /// changes.
    pub fn answers<'a>(
        &mut self,
        judge: &Judge<'a>,
        lane: LaneNumber,
        arrives: &'a Sighting,
        leaves: &Sighting,
        key: Key,
    ) -> Result<bool, AllocError> {
        judge.answers(lane, &mut self.table, arrives, leaves, key)
    }

    /// Returns whether the rules let the server relay data.
    pub fn relays(
        &mut self,
        judge: &Judge<'_>,
        lane: LaneNumber,
        arrives: &Sighting,
        leaves: &Sighting,
        key: Key,
    ) -> Result<bool, AllocError> {
        judge.relays(lane, &mut self.table, arrives, leaves, key)
    }

    /// The channel of a peer.
    pub fn number_of(&self, peer: Addr) -> Option<u16> {
        self.numbers.get(&peer).copied()
    }

    /// Notes the relayed address.
    pub fn set_relayed(&mut self, relayed: Addr) {
        self.relayed = Some(relayed);
    }

    /// Notes a channel's peer.
    pub fn bind(&mut self, channel: Channel) -> Result<(), AllocError> {
        self.bind_number(channel.number(), channel.peer())
    }

    fn bind_number(&mut self, number: u16, peer: Addr) -> Result<(), AllocError> {
        self.peers.insert(number, peer)?;
        self.numbers.insert(peer, number)?;
        Ok(())
    }

    /// The cause of data with this digest that a client with this allocation receives.
    pub fn cause_of(&self, sent: &ToClient<'_>, digest: u64) -> Option<Cause> {
        let peer = match *sent {
            ToClient::Data { peer, .. } => peer,
            ToClient::Channel { number, .. } => self.peers.get(&number).copied()?,
            ToClient::Success { .. } | ToClient::Error { .. } => return None,
        };
        Some(Cause::Peer {
            relayed: self.relayed?,
            peer,
            digest,
        })
    }
}

/// An allocation that was deleted, in its state right before that.
#[derive(Drop)]
pub struct Deleted {
    holding: Holding,
    /// The key of the next act right before the deletion.
    next: Key,
    /// How many more acts may be placed there.
    left: u32,
}

impl Deleted {
    /// An allocation before whose deletion acts may be placed, from key `next` on.
    pub fn new(holding: Holding, next: Key) -> Deleted {
        Deleted {
            holding,
            next,
            left: ACTS_BEFORE,
        }
    }

    /// The allocation before the deletion.
    pub fn holding(&self) -> &Holding {
        &self.holding
    }

    /// The key of the next act right before the deletion, if it is after another key.
    fn key_behind(&self, key: Key) -> Option<Key> {
        if self.left == 0 || self.next <= key {
            None
        } else {
            Some(self.next)
        }
    }

    /// Goes on after that key.
    fn take_key(&mut self) {
        self.next = after(self.next);
        self.left = self.left.saturating_sub(1);
    }

    /// Relays data right before the deletion, if the rules allow it at a key after `key`. Returns
    /// the key of the act.
    pub fn relay(
        &mut self,
        judge: &Judge<'_>,
        lane: LaneNumber,
        arrives: &Sighting,
        leaves: &Sighting,
        behind: Key,
    ) -> Result<Option<Key>, AllocError> {
        let Some(key) = self.key_behind(behind) else {
            return Ok(None);
        };
        if !self.holding.relays(judge, lane, arrives, leaves, key)? {
            return Ok(None);
        }
        self.take_key();
        Ok(Some(key))
    }
}
