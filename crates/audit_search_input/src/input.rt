//! The input of a lane's search.

mod leases;
mod needs;
mod pools;

use crate::deadlines::Deadlines;
use crate::views::Views;
use audit_keys::Credentials;
use audit_known::{Known, Matches, Placed};
use audit_model::{Addr, Policy, SightId, Sighting};
use audit_search_state::{Constraints, PoolRef};
use audit_seen::{Content, LaneNumber, PoolKey, Says, Seen, SeenNumber};
use audit_sightings::Intake;
pub use needs::{AHEAD, helps, names, peer_of};
use std::alloc::{AllocError, Global};

/// The captures whose lanes are searched.
#[derive(Clone, Copy)]
pub struct Captured<'a> {
    intake: &'a Intake,
    credentials: &'a Credentials,
    pairs: &'a [(Addr, Addr)],
}

impl<'a> Captured<'a> {
    /// These captures and credentials, and the client and the listen address of each lane.
    pub fn new(
        intake: &'a Intake,
        credentials: &'a Credentials,
        pairs: &'a [(Addr, Addr)],
    ) -> Captured<'a> {
        Captured {
            intake,
            credentials,
            pairs,
        }
    }

    /// The sightings.
    pub fn intake(&self) -> &'a Intake {
        self.intake
    }

    /// The policy of the server.
    pub fn policy(&self) -> &'a Policy {
        self.intake.policy()
    }

    /// The client and the listen address of each lane.
    pub fn pairs(&self) -> &'a [(Addr, Addr)] {
        self.pairs
    }
}

/// The input of all lanes' searches.
#[derive(Clone, Copy)]
pub struct SearchInput<'a> {
    captured: Captured<'a>,
    known: Known<'a>,
    placed: &'a Placed,
    views: &'a Views,
    deadlines: &'a Deadlines,
    /// The arrival that each departure most likely answers.
    matches: &'a Matches,
    constraints: &'a Constraints,
}

impl<'a> SearchInput<'a> {
    /// The captures, the facts of their sightings, the placement, the arrivals and departures of
    /// each lane, the deadlines of handovers, the arrival that each departure most likely answers,
    /// and the constraints.
    pub fn new(
        captured: Captured<'a>,
        known: Known<'a>,
        placed: &'a Placed,
        views: &'a Views,
        deadlines: &'a Deadlines,
        matches: &'a Matches,
        constraints: &'a Constraints,
    ) -> SearchInput<'a> {
        SearchInput {
            captured,
            known,
            placed,
            views,
            deadlines,
            matches,
            constraints,
        }
    }

    /// The allocator of the search.
    pub fn alloc(&self) -> Global {
        self.known.alloc()
    }

    /// The policy of the server.
    pub fn policy(&self) -> &'a Policy {
        self.captured.policy()
    }

    /// The users and their keys.
    pub fn credentials(&self) -> &'a Credentials {
        self.captured.credentials
    }

    /// The facts by which departures are matched.
    pub fn known(&self) -> &Known<'a> {
        &self.known
    }

    /// The arrivals and departures of each lane.
    pub fn views(&self) -> &'a Views {
        self.views
    }

    /// The deadlines of handovers.
    pub fn deadlines(&self) -> &'a Deadlines {
        self.deadlines
    }

    /// The constraints, in addition to the captures.
    pub fn constraints(&self) -> &'a Constraints {
        self.constraints
    }

    /// The number of lanes.
    pub fn lanes(&self) -> usize {
        self.captured.pairs.len()
    }

    /// All sightings, in order.
    pub fn in_order(&self) -> &'a [SeenNumber] {
        self.placed.in_order()
    }

    /// The arrival that a departure most likely answers, or the departure that most likely answers
    /// an arrival.
    pub fn matched_to(&self, number: SeenNumber) -> Option<SeenNumber> {
        self.matches.of(number)
    }

    /// The longest time from an arrival to its departure, in nanoseconds.
    pub fn hold(&self) -> u64 {
        self.known.hold()
    }

    /// The content of a sighting.
    pub fn seen(&self, number: SeenNumber) -> Option<&'a Seen> {
        self.known.sights().get(number)
    }

    /// A sighting.
    pub fn sighting(&self, number: SeenNumber) -> Option<&'a Sighting> {
        self.captured.intake.sighting(self.seen(number)?.id())
    }

    /// The moment at which a sighting is placed.
    pub fn at(&self, number: SeenNumber) -> u64 {
        self.placed.at(number)
    }

    /// The least moment of a sighting.
    pub fn low(&self, number: SeenNumber) -> u64 {
        self.placed.low(number)
    }

    /// The rank of a sighting in the order of all.
    pub fn rank(&self, number: SeenNumber) -> u32 {
        self.placed.rank(number)
    }

    /// The content of a departure.
    pub fn content(&self, number: SeenNumber) -> Option<Content> {
        self.seen(number)?.content()
    }

    /// The client and the listen address of a lane.
    pub fn pair(&self, lane: LaneNumber) -> (Addr, Addr) {
        let none = Addr { ip: 0, port: 0 };
        self.captured
            .pairs
            .get(lane.index())
            .copied()
            .unwrap_or((none, none))
    }

    /// The number of a sighting.
    pub fn number_of(&self, sight: SightId) -> Option<SeenNumber> {
        self.known.sights().at(sight.iface as usize, sight.index)
    }

    /// The last moment at which the response to an arrival may leave.
    pub fn held_until(&self, arrival: SeenNumber) -> u64 {
        self.at(arrival).saturating_add(self.known.hold())
    }

    /// The pools of a lane that a departure may answer. `relayed` is the lane's present relayed
    /// address.
    pub fn pools_of(
        &self,
        lane: LaneNumber,
        departure: &Seen,
        relayed: Option<Addr>,
    ) -> Result<Vec<PoolRef>, AllocError> {
        let mut found = Vec::new(self.alloc());
        match (departure.says(), relayed) {
            (Says::Departure(_, Some(pool)), _) => found.push(PoolRef::own(pool))?,
            (Says::Departure(Content::Relayed { peer, digest, .. }, _), _) => {
                let mut pools = Vec::new(self.alloc());
                self.known.add_sent(lane, peer, digest, &mut pools)?;
                for pool in pools {
                    found.push(PoolRef::own(pool))?;
                }
            }
            (Says::Departure(Content::Data { peer, digest }, _), Some(relayed)) => {
                self.add_received(relayed, peer, digest, &mut found)?;
            }
            (Says::Departure(Content::Channel { number, digest }, _), Some(relayed)) => {
                for peer in self.known.bindings().peers_of(lane, number)? {
                    self.add_received(relayed, peer, digest, &mut found)?;
                }
            }
            _ => {}
        }
        Ok(found)
    }

    fn add_received(
        &self,
        relayed: Addr,
        peer: Addr,
        digest: u64,
        found: &mut Vec<PoolRef>,
    ) -> Result<(), AllocError> {
        let key = PoolKey::peer(relayed, peer, digest);
        if let Some(pool) = self.known.numbers().get(&key) {
            found.push(PoolRef::own(pool))?;
            found.push(PoolRef::shared(pool))?;
        }
        Ok(())
    }
}
