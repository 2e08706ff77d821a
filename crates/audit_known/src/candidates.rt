//! The pools whose arrivals a departure may answer.

ghost use Rattle.std.specs.Prelude.{◌≡◌};

use crate::bindings::Bindings;
use crate::contents::Contents;
use crate::pools::Pools;
use crate::tenancies::{Tenancies, Tenancy};
use crate::times::Times;
use audit_model::Addr;
use audit_seen::{
    Content, LaneNumber, PoolKey, PoolNumber, PoolNumbers, Says, Seen, SeenNumber, Sights,
};
use std::alloc::{AllocError, Global};

/// The facts by which departures are matched.
#[derive(Clone, Copy)]
pub struct Known<'a> {
    contents: &'a Contents,
    times: &'a Times,
    pools: &'a Pools,
    tenancies: &'a Tenancies,
    /// The longest time from an arrival to its departure, in nanoseconds.
    hold: u64,
    alloc: Global,
}

impl<'a> Known<'a> {
    /// The contents of the sightings, their estimated moments, the arrivals of each pool, the
    /// tenancies, and the longest time from an arrival to its departure in nanoseconds.
    pub fn new(
        alloc: Global,
        contents: &'a Contents,
        times: &'a Times,
        pools: &'a Pools,
        tenancies: &'a Tenancies,
        hold: u64,
    ) -> Known<'a> {
        Known {
            contents,
            times,
            pools,
            tenancies,
            hold,
            alloc,
        }
    }

    /// The sightings.
    pub fn sights(&self) -> &'a Sights {
        self.contents.sights()
    }

    /// The number of each pool.
    pub fn numbers(&self) -> &'a PoolNumbers {
        self.contents.numbers()
    }

    /// The channels that were requested.
    pub fn bindings(&self) -> &'a Bindings {
        self.contents.bindings()
    }

    /// The estimated moment of each sighting.
    pub fn times(&self) -> &'a Times {
        self.times
    }

    /// The arrivals of each pool.
    pub fn pools(&self) -> &'a Pools {
        self.pools
    }

    /// Which client had which relayed address at which time.
    pub fn tenancies(&self) -> &'a Tenancies {
        self.tenancies
    }

    /// The longest time from an arrival to its departure, in nanoseconds.
    pub fn hold(&self) -> u64
        ensures { result ≡ self.now.hold }
    {
        self.hold
    }

    /// The allocator of the search.
    pub fn alloc(&self) -> Global {
        self.alloc
    }

    /// The pools whose arrivals a departure may answer, the likeliest first. `lane` is the lane of
    /// a departure from a relayed address, if it is known; otherwise all clients count that may
    /// have had the address.
    pub fn candidates(
        &self,
        number: SeenNumber,
        seen: &Seen,
        lane: Option<LaneNumber>,
    ) -> Result<Vec<PoolNumber>, AllocError> {
        let mut found = Vec::new(self.alloc);
        match seen.says() {
            Says::Departure(_, Some(pool)) => found.push(pool)?,
            Says::Departure(
                Content::Relayed {
                    relayed,
                    peer,
                    digest,
                },
                _,
            ) => {
                for lane in self.senders(number, relayed, lane)? {
                    self.add_sent(lane, peer, digest, &mut found)?;
                }
            }
            Says::Departure(Content::Data { peer, digest }, _) => {
                for tenancy in self.owned(number, seen)? {
                    self.add_received(&tenancy, peer, digest, &mut found)?;
                }
            }
            Says::Departure(
                Content::Channel {
                    number: channel,
                    digest,
                },
                _,
            ) => {
                for tenancy in self.owned(number, seen)? {
                    self.add_bound(&tenancy, channel, digest, &mut found)?;
                }
            }
            _ => {}
        }
        Ok(found)
    }

    /// The lanes that may have sent the data of a departure from a relayed address.
    fn senders(
        &self,
        number: SeenNumber,
        relayed: Addr,
        lane: Option<LaneNumber>,
    ) -> Result<Vec<LaneNumber>, AllocError> {
        let mut lanes = Vec::new(self.alloc);
        if let Some(lane) = lane {
            lanes.push(lane)?;
            return Ok(lanes);
        }
        let time = self.times.of(number);
        let of = self.tenancies.of_address(relayed);
        for tenancy in self.tenancies.meeting(of, time.early(), time.late())? {
            if !lanes.contains(&tenancy.lane()) {
                lanes.push(tenancy.lane())?;
            }
        }
        Ok(lanes)
    }

    /// The tenancies of a departure's lane at about its time.
    fn owned(&self, number: SeenNumber, seen: &Seen) -> Result<Vec<Tenancy>, AllocError> {
        let Some(lane) = seen.lane() else {
            return Ok(Vec::new(self.alloc));
        };
        let time = self.times.of(number);
        let of = self.tenancies.of_lane(lane);
        self.tenancies.meeting(of, time.early(), time.late())
    }

    /// Adds the pools of the data that a lane sent to a peer.
    pub fn add_sent(
        &self,
        lane: LaneNumber,
        peer: Addr,
        digest: u64,
        found: &mut Vec<PoolNumber>,
    ) -> Result<(), AllocError> {
        self.add(PoolKey::send(lane, peer, digest), found)?;
        for number in self.bindings().numbers_of(lane, peer)? {
            self.add(PoolKey::channel(lane, number, digest), found)?;
        }
        Ok(())
    }

    /// Adds the pool of the data that a peer sent to a tenancy's address.
    fn add_received(
        &self,
        tenancy: &Tenancy,
        peer: Addr,
        digest: u64,
        found: &mut Vec<PoolNumber>,
    ) -> Result<(), AllocError> {
        self.add(PoolKey::peer(tenancy.relayed(), peer, digest), found)
    }

    /// Adds the pools of the data that the peers of a channel sent to a tenancy's address.
    fn add_bound(
        &self,
        tenancy: &Tenancy,
        channel: u16,
        digest: u64,
        found: &mut Vec<PoolNumber>,
    ) -> Result<(), AllocError> {
        for peer in self.bindings().peers_of(tenancy.lane(), channel)? {
            self.add_received(tenancy, peer, digest, found)?;
        }
        Ok(())
    }

    fn add(&self, key: PoolKey, found: &mut Vec<PoolNumber>) -> Result<(), AllocError> {
        if let Some(pool) = self.numbers().get(&key) {
            if !found.contains(&pool) {
                found.push(pool)?;
            }
        }
        Ok(())
    }
}
