//! The lanes, by their clients.

use crate::numbers::LaneNumber;
use audit_model::Addr;
use std::alloc::{AllocError, Global};
use std::collections::BTreeMap;

/// The number of each lane by its client and listen address.
#[derive(Drop)]
pub struct Lanes {
    numbers: BTreeMap<(Addr, Addr), LaneNumber>,
}

impl Lanes {
    /// The lanes of these pairs of a client and a listen address, in order.
    pub fn of(alloc: Global, pairs: &[(Addr, Addr)]) -> Result<Lanes, AllocError> {
        let mut numbers = BTreeMap::new(alloc);
        for (place, pair) in pairs.iter().enumerate() {
            if let Ok(number) = u32::try_from(place) {
                numbers.insert(*pair, LaneNumber::new(number))?;
            }
        }
        Ok(Lanes { numbers })
    }

    /// The lane of a client at a listen address. The cost is the logarithm of their number.
    pub fn get(&self, client: Addr, listen: Addr) -> Option<LaneNumber> {
        self.numbers.get(&(client, listen)).copied()
    }
}
