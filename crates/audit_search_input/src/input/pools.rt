//! The pools that departures of a lane may answer, whatever allocation it has.

use super::SearchInput;
use audit_model::Addr;
use audit_search_state::PoolRef;
use audit_seen::{Content, LaneNumber, SeenNumber};
use std::alloc::AllocError;

impl SearchInput<'_> {
    /// The pool of a response's requests.
    pub fn response_ref(&self, departure: SeenNumber) -> Option<PoolRef> {
        Some(PoolRef::own(self.seen(departure)?.response_pool()?))
    }

    /// The pools that a departure of a lane may answer: those of the lane's present address, those
    /// of its other addresses, or any.
    pub fn any_pools(
        &self,
        lane: LaneNumber,
        departure: SeenNumber,
        now: Option<Addr>,
    ) -> Result<Vec<PoolRef>, AllocError> {
        let Some(seen) = self.seen(departure) else {
            return Ok(Vec::new(self.alloc()));
        };
        let mut pools = self.pools_of(lane, seen, now)?;
        if matches!(
            seen.content(),
            Some(Content::Data { .. } | Content::Channel { .. })
        ) {
            let known = &self.known;
            let time = known.times().of(departure);
            let of = known.tenancies().of_lane(lane);
            for tenancy in known.tenancies().meeting(of, time.early(), time.late())? {
                if Some(tenancy.relayed()) != now {
                    let more = self.pools_at(lane, departure, tenancy.relayed())?;
                    for pool in more {
                        pools.push(pool)?;
                    }
                }
            }
        }
        Ok(pools)
    }

    fn pools_at(
        &self,
        lane: LaneNumber,
        departure: SeenNumber,
        relayed: Addr,
    ) -> Result<Vec<PoolRef>, AllocError> {
        match self.seen(departure) {
            Some(seen) => self.pools_of(lane, seen, Some(relayed)),
            None => Ok(Vec::new(self.alloc())),
        }
    }
}
