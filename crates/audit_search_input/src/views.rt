//! The arrivals and departures of each lane, in the order of all sightings.

use crate::input::Captured;
use crate::ranked::{Arriving, Ranked};
use crate::shared::Shared;
use audit_known::{Known, Matches, Placed};
use audit_search_state::{Constraint, Constraints, PoolRef};
use audit_seen::{LaneNumber, PoolNumber, Says, Seen, SeenNumber};
use std::alloc::{AllocError, Global};

/// An odd number whose bits look random.
const FACTOR: u64 = 0x9E37_79B9_7F4A_7C15;

/// The starts of the arrivals, the departures and the data of a lane.
#[derive(Clone, Copy)]
struct Start {
    arrivals: usize,
    departures: usize,
    sent: usize,
}

/// The arrivals and the departures of each lane, in order.
#[derive(Drop)]
pub struct Views {
    arrivals: Vec<Arriving>,
    departures: Vec<Ranked>,
    /// The arriving data of clients.
    sent: Vec<Ranked>,
    /// The starts of each lane, and the ends of the last one.
    starts: Vec<Start>,
    /// A digest of all that the search of each lane depends on.
    fingerprints: Vec<u64>,
}

/// The inputs of the views.
#[derive(Clone, Copy)]
pub struct Viewed<'a> {
    captured: Captured<'a>,
    known: Known<'a>,
    placed: &'a Placed,
    matches: &'a Matches,
    relayed: &'a [Option<LaneNumber>],
    constraints: &'a Constraints,
    shared: &'a Shared,
}

impl<'a> Viewed<'a> {
    /// The captures, the facts of their sightings, the placement, the arrival that each departure
    /// most likely answers, the lane of each departure from a relayed address, the constraints, and
    /// sightings on which other lanes depend, too.
    pub fn new(
        captured: Captured<'a>,
        known: Known<'a>,
        placed: &'a Placed,
        matches: &'a Matches,
        relayed: &'a [Option<LaneNumber>],
        constraints: &'a Constraints,
        shared: &'a Shared,
    ) -> Viewed<'a> {
        Viewed {
            captured,
            known,
            placed,
            matches,
            relayed,
            constraints,
            shared,
        }
    }
}

impl Views {
    /// The views of all lanes. It takes n log n.
    pub fn of(alloc: Global, viewed: &Viewed<'_>) -> Result<Views, AllocError> {
        let lanes = viewed.captured.pairs().len();
        let mut views = Views {
            arrivals: Vec::new(alloc),
            departures: Vec::new(alloc),
            sent: Vec::new(alloc),
            starts: Vec::with_capacity(alloc, lanes)?,
            fingerprints: vec![in alloc; 0; lanes]?,
        };
        for number in viewed.placed.in_order() {
            if let Some(seen) = viewed.known.sights().get(*number) {
                views.add(viewed, seen, *number)?;
            }
        }
        views.arrivals.sort_unstable();
        views.departures.sort_unstable();
        views.sent.sort_unstable();
        for lane in 0..=lanes {
            views.start(lane)?;
        }
        Ok(views)
    }

    /// Records where a lane begins.
    fn start(&mut self, lane: usize) -> Result<(), AllocError> {
        let arrivals = self
            .arrivals
            .partition_point(|one| one.lane().index() < lane);
        let departures = self
            .departures
            .partition_point(|one| one.lane().index() < lane);
        let sent = self.sent.partition_point(|one| one.lane().index() < lane);
        self.starts.push(Start {
            arrivals,
            departures,
            sent,
        })?;
        Ok(())
    }

    /// The starts of a lane, and those of the next one.
    fn bounds(&self, lane: LaneNumber) -> Option<(Start, Start)> {
        let start = self.starts.get(lane.index())?;
        let end = self.starts.get(lane.index().saturating_add(1))?;
        Some((*start, *end))
    }

    fn add(
        &mut self,
        viewed: &Viewed<'_>,
        seen: &Seen,
        number: SeenNumber,
    ) -> Result<(), AllocError> {
        let rank = viewed.placed.rank(number);
        for (_, lane) in viewed.shared.of_sighting(number) {
            self.mix(viewed, *lane, number);
        }
        match seen.says() {
            Says::Received(pool) => self.add_received(viewed, seen, pool, rank, number),
            Says::Departure(..) => {
                let relayed = viewed.relayed.get(number.index()).copied().flatten();
                if let Some(lane) = seen.lane().or(relayed) {
                    self.departures.push(Ranked::new(lane, rank, number))?;
                    self.mix(viewed, lane, number);
                }
                Ok(())
            }
            _ => self.add_asked(viewed, seen, rank, number),
        }
    }

    /// Adds a client's datagram.
    fn add_asked(
        &mut self,
        viewed: &Viewed<'_>,
        seen: &Seen,
        rank: u32,
        number: SeenNumber,
    ) -> Result<(), AllocError> {
        if let (Some(lane), Some(pool)) = (seen.lane(), seen.pool()) {
            let pool = PoolRef::own(pool);
            self.arrivals.push(Arriving::new(lane, pool, rank, number))?;
            self.mix(viewed, lane, number);
            if let Says::Sent(_) = seen.says() {
                self.sent.push(Ranked::new(lane, rank, number))?;
            }
        }
        Ok(())
    }

    /// Adds a peer's datagram to the lanes that may act on it.
    fn add_received(
        &mut self,
        viewed: &Viewed<'_>,
        seen: &Seen,
        pool: PoolNumber,
        rank: u32,
        number: SeenNumber,
    ) -> Result<(), AllocError> {
        let known = &viewed.known;
        let Some(sighting) = viewed.captured.intake().sighting(seen.id()) else {
            return Ok(());
        };
        let moment = known.times().of(number).early();
        let mut is_shared = false;
        for lane in known
            .tenancies()
            .lanes_at(sighting.to, moment, known.hold())?
        {
            let not_here = Constraint::NotHere {
                sighting: number,
                lane,
            };
            if !viewed.constraints.contains(not_here) {
                let pool = if is_shared {
                    PoolRef::shared(pool)
                } else {
                    PoolRef::own(pool)
                };
                self.arrivals.push(Arriving::new(lane, pool, rank, number))?;
                self.mix(viewed, lane, number);
                is_shared = true;
            }
        }
        Ok(())
    }

    /// Adds a sighting, and its moments, to the digest of a lane.
    fn mix(&mut self, viewed: &Viewed<'_>, lane: LaneNumber, number: SeenNumber) {
        let placed = viewed.placed;
        let constraints = viewed.constraints;
        let at_of = |other: Option<SeenNumber>| other.map_or(0, |other| placed.at(other));
        if let Some(fingerprint) = self.fingerprints.get_mut(lane.index()) {
            let mut mixed = *fingerprint;
            let is_at_request = constraints.contains(Constraint::AtRequest { answer: number });
            let is_earlier = constraints.contains(Constraint::Earlier { answer: number });
            let matched = viewed
                .matches
                .of(number)
                .map_or(0, |matched| u64::from(matched.value()));
            for word in [
                u64::from(number.value()),
                placed.low(number),
                placed.at(number),
                u64::from(is_at_request),
                u64::from(is_earlier),
                at_of(constraints.handed_over_before(number)),
                at_of(constraints.over_before(number)),
                at_of(constraints.next_of(number)),
                at_of(constraints.maker_of(number)),
                matched,
            ] {
                mixed = (mixed ^ word).wrapping_mul(FACTOR).rotate_left(29);
            }
            *fingerprint = mixed;
        }
    }

    /// A digest of all that the search of a lane depends on.
    pub fn fingerprint(&self, lane: LaneNumber) -> u64 {
        self.fingerprints.get(lane.index()).copied().unwrap_or(0)
    }

    /// The arrivals of a lane's pool, by rank. The cost is the logarithm of the number of the
    /// lane's arrivals.
    pub fn arrivals(&self, lane: LaneNumber, pool: PoolRef) -> &[Arriving] {
        let Some((start, end)) = self.bounds(lane) else {
            return &[];
        };
        let of_lane = self
            .arrivals
            .get(start.arrivals..end.arrivals)
            .unwrap_or(&[]);
        let first = of_lane.partition_point(|one| one.pool() < pool);
        let rest = of_lane.get(first..).unwrap_or(&[]);
        let count = rest.partition_point(|one| one.pool() <= pool);
        rest.get(..count).unwrap_or(&[])
    }

    /// The departures of a lane, by rank.
    pub fn departures(&self, lane: LaneNumber) -> &[Ranked] {
        match self.bounds(lane) {
            Some((start, end)) => self
                .departures
                .get(start.departures..end.departures)
                .unwrap_or(&[]),
            None => &[],
        }
    }

    /// The arriving data of a lane's client, by rank.
    pub fn sent(&self, lane: LaneNumber) -> &[Ranked] {
        match self.bounds(lane) {
            Some((start, end)) => self.sent.get(start.sent..end.sent).unwrap_or(&[]),
            None => &[],
        }
    }
}
