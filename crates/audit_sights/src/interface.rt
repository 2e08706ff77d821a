//! The values of the sightings of one interface.

ghost use Rattle.std.specs.Prelude.{◌≡◌, ℕ, None, Some, if◌then◌else◌, nat_eq, OnOk, OnErr};
ghost use Rattle.audit_sights.specs.Found.{found_in};

use crate::rising::Rising;
use std::alloc::{AllocError, Global};
use std::collections::BTreeMap;

/// Values by index: those that were added in rising order, and the others.
#[derive(Drop)]
pub struct InterfaceMap<V> {
    rising: Rising<V>,
    others: BTreeMap<u32, V>,
}

impl<V: Copy> InterfaceMap<V> {
    /// No values. Allocates no memory.
    pub fn new(alloc: Global) -> Self
        ensures { (index : ℕ) → found_in result index ≡ None }
    {
        InterfaceMap {
            rising: Rising::new(alloc),
            others: BTreeMap::new(alloc),
        }
    }

    /// The value at the index. It takes logarithmic time.
    pub fn get(&self, index: u32) -> Option<V>
        ensures { result ≡ found_in self.now index }
    {
        match self.rising.get(index) {
            Some(value) => Some(value),
            None => self.others.get(&index).copied(),
        }
    }

    /// Sets the value at the index. If memory is refused, nothing changes. It takes logarithmic
    /// time.
    pub fn put(&mut self, index: u32, value: V) -> Result<(), AllocError>
        ensures ok { OnOk result ((q : ℕ) → found_in self.new q ≡ (if nat_eq q index then Some value else found_in self.old q)) }
        ensures err { OnErr result ((q : ℕ) → found_in self.new q ≡ found_in self.old q) }
    {
        if !self.rising.put(index, value)? {
            self.others.insert(index, value)?;
        }
        Ok(())
    }
}
