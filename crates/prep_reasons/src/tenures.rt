//! Which client was granted which relayed address, and when.

use audit_model::Addr;
use std::alloc::{AllocError, Global};

/// A client's lease of a relayed address, with the skews added to both ends.
#[derive(Clone, Copy)]
pub(crate) struct Tenure {
    pub(crate) relayed: Addr,
    pub(crate) start: u64,
    pub(crate) end: u64,
    pub(crate) pair: u32,
}

/// The tenures of all addresses.
#[derive(Drop)]
pub(crate) struct Tenures {
    /// By address and start.
    all: Vec<Tenure>,
    /// For each index, the tenure with the greatest end among those of its address up to this
    /// index.
    longest: Vec<usize>,
}

impl Tenures {
    /// Indexes the tenures. The cost is their number times its logarithm.
    pub(crate) fn new(alloc: Global, tenures: Vec<Tenure>) -> Result<Self, AllocError> {
        let mut all = tenures;
        all.sort_by_key(|tenure| (tenure.relayed, tenure.start))?;
        let mut longest = Vec::new(alloc);
        let mut best: Option<(usize, Tenure)> = None;
        for (at, tenure) in all.iter().enumerate() {
            let place = match best {
                Some((place, other)) if other.relayed == tenure.relayed && other.end > tenure.end =>
                    { place }
                _ => {
                    best = Some((at, *tenure));
                    at
                }
            };
            longest.push(place)?;
        }
        Ok(Tenures { all, longest })
    }

    /// How many tenures began before a moment or at it, including those of lesser addresses.
    fn behind(&self, relayed: Addr, stamp: u64) -> usize {
        self.all.partition_point(|tenure| (tenure.relayed, tenure.start) <= (relayed, stamp))
    }

    /// The client that has an address at a moment.
    pub(crate) fn holder(&self, relayed: Addr, stamp: u64) -> Option<u32> {
        let last = self.behind(relayed, stamp).checked_sub(1)?;
        let longest = *self.longest.get(last)?;
        let tenure = self.all.get(longest)?;
        if tenure.relayed == relayed && stamp <= tenure.end {
            Some(tenure.pair)
        } else {
            None
        }
    }

    /// The last tenure of an address that began before a moment or at it.
    pub(crate) fn last_begun(&self, relayed: Addr, stamp: u64) -> Option<Tenure> {
        let last = self.behind(relayed, stamp).checked_sub(1)?;
        let tenure = self.all.get(last)?;
        if tenure.relayed == relayed {
            Some(*tenure)
        } else {
            None
        }
    }

    /// How many tenures of an address began before a moment or at it.
    pub(crate) fn begun(&self, relayed: Addr, stamp: u64) -> u32 {
        let first = self.all.partition_point(|tenure| tenure.relayed < relayed);
        let begun = self.behind(relayed, stamp).saturating_sub(first);
        u32::try_from(begun).unwrap_or(u32::MAX)
    }
}
