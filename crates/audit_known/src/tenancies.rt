//! Which client had which relayed address at which time, by the responses.

ghost use Rattle.std.specs.Prelude.{◌≡◌};

use crate::changes::Changes;
use crate::times::Times;
use audit_model::Addr;
use audit_seen::{Content, LaneNumber, Says, Seen, SeenNumber, Sights};
use std::alloc::{AllocError, Global};

const NANOSECONDS: u64 = 1_000_000_000;

/// How many responses that prolong one tenancy are looked at; a tenancy with more has no end by its
/// lifetime.
const PROLONGED: usize = 256;

/// How many tenancies before a moment are looked at.
const NEIGHBOURS: usize = 8;

/// The time in which a client may have had a relayed address.
#[derive(Clone, Copy, Debug)]
pub struct Tenancy {
    start: u64,
    end: u64,
    relayed: Addr,
    lane: LaneNumber,
    /// The response that granted it.
    maker: SeenNumber,
}

impl Tenancy {
    /// The relayed address.
    pub fn relayed(&self) -> Addr
        ensures { result ≡ self.now.relayed }
    {
        self.relayed
    }

    /// The lane of the client.
    pub fn lane(&self) -> LaneNumber
        ensures { result ≡ self.now.lane }
    {
        self.lane
    }
}

/// The tenancies by the responses.
#[derive(Drop)]
pub struct Tenancies {
    by_address: Vec<Tenancy>,
    by_lane: Vec<Tenancy>,
    alloc: Global,
}

impl Tenancies {
    /// The tenancies of all responses. `matches` has the known request of each response. It takes n
    /// log n.
    pub fn of(
        alloc: Global,
        sights: &Sights,
        times: &Times,
        matches: &[Option<SeenNumber>],
        grace: u64,
    ) -> Result<Tenancies, AllocError> {
        let changes = Changes::gather(alloc, sights, times)?;
        let mut by_address: Vec<Tenancy> = Vec::new(alloc);
        let mut last = None;
        for made in changes.made() {
            let Some(seen) = sights.get(made.number()) else {
                continue;
            };
            let response = Some((made.relayed(), seen.lane(), seen.says()));
            if last == response {
                continue;
            }
            last = response;
            let maker = made.number();
            if let Some(tenancy) = tenancy_of(sights, times, matches, &changes, maker, grace) {
                by_address.push(tenancy)?;
            }
        }
        let mut by_lane = Vec::from_slice(alloc, by_address.as_slice())?;
        by_address.sort_unstable_by_key(|one| (one.relayed, one.start, one.maker));
        by_lane.sort_unstable_by_key(|one| (one.lane, one.start, one.maker));
        Ok(Tenancies {
            by_address,
            by_lane,
            alloc,
        })
    }

    /// The tenancies of a relayed address, by their starts.
    pub fn of_address(&self, relayed: Addr) -> &[Tenancy] {
        let start = self.by_address.partition_point(|one| one.relayed < relayed);
        let end = self
            .by_address
            .partition_point(|one| one.relayed <= relayed);
        self.by_address.get(start..end).unwrap_or(&[])
    }

    /// The tenancies of a lane, by their starts.
    pub fn of_lane(&self, lane: LaneNumber) -> &[Tenancy] {
        let start = self.by_lane.partition_point(|one| one.lane < lane);
        let end = self.by_lane.partition_point(|one| one.lane <= lane);
        self.by_lane.get(start..end).unwrap_or(&[])
    }

    /// Those of some tenancies, in the order of their starts, that overlap a span of time, the last
    /// one first; if none does, the nearest ones.
    pub fn meeting(&self, of: &[Tenancy], low: u64, high: u64) -> Result<Vec<Tenancy>, AllocError> {
        let after = of.partition_point(|one| one.start <= high);
        let near = of
            .get(after.saturating_sub(NEIGHBOURS)..after)
            .unwrap_or(&[]);
        let mut found = Vec::new(self.alloc);
        for one in near.iter().rev() {
            if one.end >= low {
                found.push(*one)?;
            }
        }
        if found.is_empty() {
            for one in near.iter().rev().take(2) {
                found.push(*one)?;
            }
            if let Some(next) = of.get(after) {
                found.push(*next)?;
            }
        }
        Ok(found)
    }

    /// The lanes in which the server may have acted on a datagram that arrived at a relayed address
    /// at a moment, the likeliest first.
    pub fn lanes_at(
        &self,
        relayed: Addr,
        moment: u64,
        hold: u64,
    ) -> Result<Vec<LaneNumber>, AllocError> {
        let of = self.of_address(relayed);
        let after = of.partition_point(|one| one.start <= moment);
        let near = of
            .get(after.saturating_sub(NEIGHBOURS)..after)
            .unwrap_or(&[]);
        let mut lanes = Vec::new(self.alloc);
        for one in near {
            if one.end >= moment && !lanes.contains(&one.lane) {
                lanes.push(one.lane)?;
            }
        }
        if let (true, Some(last)) = (lanes.is_empty(), near.last()) {
            lanes.push(last.lane)?;
        }
        for one in of.get(after..).unwrap_or(&[]).iter().take(2) {
            if one.start <= moment.saturating_add(hold) && !lanes.contains(&one.lane) {
                lanes.push(one.lane)?;
            }
        }
        Ok(lanes)
    }
}

/// The tenancy that a response grants.
fn tenancy_of(
    sights: &Sights,
    times: &Times,
    matches: &[Option<SeenNumber>],
    changes: &Changes,
    maker: SeenNumber,
    grace: u64,
) -> Option<Tenancy> {
    let seen = sights.get(maker)?;
    let lane = seen.lane()?;
    let Content::Allocated { relayed, seconds } = seen.content()? else {
        return None;
    };
    let when = times.of(maker).when();
    let end = match changes.end_after(lane, when) {
        Some(number) => times
            .of(number)
            .when()
            .max(sights.get(number).map_or(0, |seen| seen.last_moment())),
        None => u64::MAX,
    };
    let first_end = over(seen, seconds, grace);
    let last_end = prolonged(sights, changes, lane, when, end, first_end, grace);
    let start = match matches.get(maker.index()).copied().flatten() {
        Some(matched) => when.min(times.of(matched).when()),
        None => when,
    };
    Some(Tenancy {
        start,
        end: end.min(last_end),
        relayed,
        lane,
        maker,
    })
}

/// The last moment of a lease of this number of seconds.
fn over(seen: &Seen, seconds: u32, grace: u64) -> u64 {
    seen.last_moment()
        .saturating_add(u64::from(seconds).saturating_mul(NANOSECONDS))
        .saturating_add(grace)
}

/// The last moment of a tenancy, prolonged by the responses after a moment and up to an end.
fn prolonged(
    sights: &Sights,
    changes: &Changes,
    lane: LaneNumber,
    from: u64,
    end: u64,
    first: u64,
    grace: u64,
) -> u64 {
    let mut last = first;
    for (place, response) in changes.refreshed_after(lane, from).iter().enumerate() {
        let Some(seen) = sights.get(response.number()) else {
            return last;
        };
        if response.lane() != lane || response.when() > end || seen.first_moment() > last {
            return last;
        }
        if place >= PROLONGED {
            return u64::MAX;
        }
        if let Says::Departure(Content::Refreshed { seconds }, _) = seen.says() {
            last = over(seen, seconds, grace);
        }
    }
    last
}
