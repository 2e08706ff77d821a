//! Arrivals that are alike for a response.

use audit_seen::{PoolNumber, PoolNumbers, SeenNumber, Sights};
use std::alloc::{AllocError, Global};

/// The arrivals of each pool in an order.
#[derive(Drop)]
pub struct Pools {
    /// The index of the first arrival of each pool, and the number of all arrivals at the end.
    starts: Vec<usize>,
    members: Vec<SeenNumber>,
}

impl Pools {
    /// The arrivals of each pool by these moments of the sightings, and then by their numbers.
    pub fn by(
        alloc: Global,
        sights: &Sights,
        numbers: &PoolNumbers,
        moments: &[u64],
    ) -> Result<Pools, AllocError> {
        let entries = sorted_entries(alloc, sights, moments)?;
        let mut pools = Pools {
            starts: Vec::new(alloc),
            members: Vec::with_capacity(alloc, entries.len())?,
        };
        pools.note_starts(&entries, numbers.count())?;
        for (_, _, number) in &entries {
            pools.members.push(*number)?;
        }
        Ok(pools)
    }

    /// Records where each pool's arrivals begin.
    fn note_starts(
        &mut self,
        entries: &[(PoolNumber, u64, SeenNumber)],
        count: usize,
    ) -> Result<(), AllocError> {
        for (place, (pool, _, _)) in entries.iter().enumerate() {
            self.start_up_to(pool.index().saturating_add(1), place)?;
        }
        self.start_up_to(count.saturating_add(1), entries.len())
    }

    /// The pools up to a number that have no start yet begin at this index.
    fn start_up_to(&mut self, count: usize, place: usize) -> Result<(), AllocError> {
        if self.starts.len() < count {
            self.starts.resize(count, place)?;
        }
        Ok(())
    }

    /// The arrivals of a pool, in order.
    pub fn get(&self, pool: PoolNumber) -> &[SeenNumber] {
        let start = self.starts.get(pool.index()).copied();
        let end = self.starts.get(pool.index().saturating_add(1)).copied();
        match (start, end) {
            (Some(start), Some(end)) => self.members.get(start..end).unwrap_or(&[]),
            _ => &[],
        }
    }
}

/// The arrivals that are in pools: by pool, by moment, by number.
fn sorted_entries(
    alloc: Global,
    sights: &Sights,
    moments: &[u64],
) -> Result<Vec<(PoolNumber, u64, SeenNumber)>, AllocError> {
    let mut entries = Vec::new(alloc);
    for (place, (seen, moment)) in sights.as_slice().iter().zip(moments).enumerate() {
        if let (Some(pool), Ok(number)) = (seen.pool(), u32::try_from(place)) {
            entries.push((pool, *moment, SeenNumber::new(number)))?;
        }
    }
    entries.sort_unstable();
    Ok(entries)
}
