//! The channels that clients requested.

use audit_model::Addr;
use audit_seen::{LaneNumber, Says, Sights, requested_channel};
use audit_sightings::Intake;
use std::alloc::{AllocError, Global};
use std::collections::BTreeSet;

/// How many channels of one peer, or peers of one channel, are looked at.
pub const LOOKED_AT: usize = 16;

/// The channel numbers that each lane's ChannelBind requests named, and their peers.
#[derive(Drop)]
pub struct Bindings {
    by_peer: BTreeSet<(LaneNumber, Addr, u16)>,
    by_number: BTreeSet<(LaneNumber, u16, Addr)>,
    alloc: Global,
}

impl Bindings {
    /// The channels of all requests. It takes n log n.
    pub fn of(alloc: Global, intake: &Intake, sights: &Sights) -> Result<Bindings, AllocError> {
        let mut bindings = Bindings {
            by_peer: BTreeSet::new(alloc),
            by_number: BTreeSet::new(alloc),
            alloc,
        };
        for seen in sights.as_slice() {
            if let (Says::Request(_), Some(lane)) = (seen.says(), seen.lane()) {
                if let Some(sighting) = intake.sighting(seen.id()) {
                    bindings.note(lane, sighting.payload.as_slice())?;
                }
            }
        }
        Ok(bindings)
    }

    fn note(&mut self, lane: LaneNumber, payload: &[u8]) -> Result<(), AllocError> {
        if let Some((number, peer)) = requested_channel(payload) {
            self.by_peer.insert((lane, peer, number))?;
            self.by_number.insert((lane, number, peer))?;
        }
        Ok(())
    }

    /// The least numbers that a lane's requests named for a peer, at most `LOOKED_AT`.
    pub fn numbers_of(&self, lane: LaneNumber, peer: Addr) -> Result<Vec<u16>, AllocError> {
        let mut numbers = Vec::new(self.alloc);
        for (other, address, number) in self.by_peer.range((lane, peer, 0)..).take(LOOKED_AT) {
            if *other == lane && *address == peer {
                numbers.push(*number)?;
            }
        }
        Ok(numbers)
    }

    /// The least peers that a lane's requests named for a number, at most `LOOKED_AT`.
    pub fn peers_of(&self, lane: LaneNumber, number: u16) -> Result<Vec<Addr>, AllocError> {
        let mut peers = Vec::new(self.alloc);
        let least = Addr { ip: 0, port: 0 };
        for (other, channel, peer) in self
            .by_number
            .range((lane, number, least)..)
            .take(LOOKED_AT)
        {
            if *other == lane && *channel == number {
                peers.push(*peer)?;
            }
        }
        Ok(peers)
    }
}
