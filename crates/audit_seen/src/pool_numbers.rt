//! The number of each pool, by the key of its arrivals.

use crate::content::{ArrivalKind, PoolKey};
use crate::numbers::{LaneNumber, PoolNumber, SeenNumber};
use audit_model::Addr;
use std::alloc::{AllocError, Global};

/// The number of each pool: the index of its key among all, which are in order.
#[derive(Drop)]
pub struct PoolNumbers {
    keys: Vec<PoolKey>,
    /// The index of the first key whose digest begins with a number of 16 bits, or with a greater
    /// one.
    starts: Vec<usize>,
}

/// The first 16 bits of a digest.
fn first_bits(digest: u64) -> usize {
    (digest >> 48) as usize
}

impl PoolNumbers {
    ghost use Rattle.std.specs.Prelude.{◌≡◌, vec_len};

    /// No pools. It takes no memory.
    pub fn new(alloc: Global) -> PoolNumbers
        ensures { vec_len result.keys ≡ 0 }
    {
        PoolNumbers {
            keys: Vec::new(alloc),
            starts: Vec::new(alloc),
        }
    }

    /// The number of pools.
    pub fn count(&self) -> usize
        ensures { result ≡ vec_len self.now.keys }
    {
        self.keys.len()
    }

    /// The pool of a key. The cost is the logarithm of their number.
    pub fn get(&self, key: &PoolKey) -> Option<PoolNumber> {
        let bits = first_bits(key.digest());
        let start = self.start(bits);
        let near = self.keys.get(start..self.start(bits.saturating_add(1)))?;
        let place = near.binary_search(key).ok()?;
        u32::try_from(start.saturating_add(place))
            .ok()
            .map(|number| PoolNumber::new(number))
    }

    /// The first lane that sent data of a digest.
    pub fn first_sender(&self, digest: u64) -> Option<LaneNumber> {
        let least = PoolKey::send(LaneNumber::new(0), Addr { ip: 0, port: 0 }, digest);
        let first = self.keys.partition_point(|key| *key < least);
        let key = self.keys.get(first)?;
        match key.kind() {
            ArrivalKind::Send { lane, .. } | ArrivalKind::Channel { lane, .. }
                if key.digest() == digest => { Some(lane) }
            _ => None,
        }
    }

    /// Adds the next key, and returns the number of its pool. Keys come in order.
    pub(crate) fn take(&mut self, key: PoolKey) -> Result<PoolNumber, AllocError> {
        if self.keys.last() != Some(&key) {
            let place = self.keys.len();
            let count = first_bits(key.digest()).saturating_add(1);
            if self.starts.len() < count {
                self.starts.resize(count, place)?;
            }
            self.keys.push(key)?;
        }
        let number = u32::try_from(self.keys.len().saturating_sub(1));
        Ok(PoolNumber::new(number.map_err(|_| AllocError)?))
    }

    /// The index of the first key whose digest begins with these bits, or with greater ones.
    fn start(&self, bits: usize) -> usize {
        self.starts.get(bits).copied().unwrap_or(self.keys.len())
    }
}
