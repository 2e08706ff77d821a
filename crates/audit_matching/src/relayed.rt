//! The lanes of departures from relayed addresses.

use crate::matching::{COPIES, departures};
use audit_known::{Known, Tenancy};
use audit_model::Addr;
use audit_seen::{Content, LaneNumber, PoolNumber, Says, SeenNumber};
use std::alloc::{AllocError, Global};
use std::collections::BTreeSet;

/// The lane of each departure from a relayed address, by the numbers of sightings.
#[derive(Drop)]
pub struct RelayedLanes {
    of: Vec<Option<LaneNumber>>,
    /// Arrivals for which a departure was found.
    taken: Vec<bool>,
}

/// A departure from a relayed address.
#[derive(Clone, Copy)]
struct Relayed {
    number: SeenNumber,
    relayed: Addr,
    peer: Addr,
    digest: u64,
}

/// Departures, each with a lane to which a constraint says it doesn't belong.
pub type Banned = BTreeSet<(SeenNumber, LaneNumber)>;

impl RelayedLanes {
    /// Finds for each departure, among the clients that may have had the address then, the one
    /// whose datagram with that content came last. It takes n log n.
    pub fn of(known: &Known<'_>, banned: &Banned) -> Result<RelayedLanes, AllocError> {
        let alloc = known.alloc();
        let count = known.sights().as_slice().len();
        let mut lanes = RelayedLanes {
            of: vec![in alloc; None; count]?,
            taken: vec![in alloc; false; count]?,
        };
        for (_, number) in &departures(alloc, known.sights(), known.times())? {
            if let Some(relayed) = relayed_of(known, *number) {
                lanes.find(known, banned, relayed)?;
            }
        }
        Ok(lanes)
    }

    /// The lane of each departure from a relayed address.
    pub fn as_slice(&self) -> &[Option<LaneNumber>] {
        self.of.as_slice()
    }

    fn find(
        &mut self,
        known: &Known<'_>,
        banned: &Banned,
        given: Relayed,
    ) -> Result<(), AllocError> {
        let time = known.times().of(given.number);
        let of = known.tenancies().of_address(given.relayed);
        let hi = known
            .sights()
            .get(given.number)
            .map_or(time.late(), |seen| seen.last_moment());
        let met = known.tenancies().meeting(of, time.early(), time.late())?;
        let near = known
            .tenancies()
            .meeting(of, time.early().saturating_sub(known.hold()), hi)?;
        let mut lane = self.sender(known, banned, given, &met, time.late())?;
        if lane.is_none() {
            lane = self.sender(known, banned, given, &near, hi)?;
        }
        if lane.is_none() {
            let is_free = |one: &&Tenancy| !banned.contains(&(given.number, one.lane()));
            let first = met.iter().chain(near.iter()).find(is_free);
            lane = first.map(|one| one.lane());
        }
        let lane = lane
            .or(known.numbers().first_sender(given.digest))
            .or(Some(LaneNumber::new(0)));
        if let Some(place) = self.of.get_mut(given.number.index()) {
            *place = lane;
        }
        Ok(())
    }

    /// The lane among some tenancies whose datagram with that content came last, up to a moment.
    fn sender(
        &mut self,
        known: &Known<'_>,
        banned: &Banned,
        given: Relayed,
        tenancies: &[Tenancy],
        until: u64,
    ) -> Result<Option<LaneNumber>, AllocError> {
        let mut best: Option<(u64, SeenNumber, LaneNumber)> = None;
        for tenancy in tenancies {
            if !banned.contains(&(given.number, tenancy.lane())) {
                if let Some((when, number)) = self.last_sent(known, given, tenancy.lane(), until)? {
                    if best.is_none_or(|best| when > best.0) {
                        best = Some((when, number, tenancy.lane()));
                    }
                }
            }
        }
        let Some((_, number, lane)) = best else {
            return Ok(None);
        };
        if let Some(place) = self.taken.get_mut(number.index()) {
            *place = true;
        }
        Ok(Some(lane))
    }

    /// The last datagram of a lane with that content, up to a moment.
    fn last_sent(
        &self,
        known: &Known<'_>,
        given: Relayed,
        lane: LaneNumber,
        until: u64,
    ) -> Result<Option<(u64, SeenNumber)>, AllocError> {
        let mut pools = Vec::new(known.alloc());
        known.add_sent(lane, given.peer, given.digest, &mut pools)?;
        let from = known.times().of(given.number).early();
        let mut best: Option<(u64, SeenNumber)> = None;
        for pool in pools {
            best = best.max(self.last_of(known, pool, from, until));
        }
        Ok(best)
    }

    /// The last arrival of a pool up to a moment that no departure has taken and that is within the
    /// hold before another moment.
    fn last_of(
        &self,
        known: &Known<'_>,
        pool: PoolNumber,
        from: u64,
        until: u64,
    ) -> Option<(u64, SeenNumber)> {
        let members = known.pools().get(pool);
        let behind = members.partition_point(|number| known.times().of(*number).when() <= until);
        let near = members.get(behind.saturating_sub(COPIES)..behind)?;
        for number in near.iter().rev() {
            let when = known.times().of(*number).when();
            let is_taken = self.taken.get(number.index()).copied().unwrap_or(false);
            if !is_taken && when.saturating_add(known.hold()) >= from {
                return Some((when, *number));
            }
        }
        None
    }
}

/// The content of a departure from a relayed address.
fn relayed_of(known: &Known<'_>, number: SeenNumber) -> Option<Relayed> {
    match known.sights().get(number)?.says() {
        Says::Departure(
            Content::Relayed {
                relayed,
                peer,
                digest,
            },
            _,
        ) => Some(Relayed {
            number,
            relayed,
            peer,
            digest,
        }),
        _ => None,
    }
}
