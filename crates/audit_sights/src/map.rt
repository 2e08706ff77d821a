//! A map with a value for each of some sightings.

ghost use Rattle.std.specs.Prelude.{◌≡◌, None, Some, if◌then◌else◌, OnOk, OnErr};
ghost use Rattle.audit_model.specs.declared.sighting.SightId.{SightId};
ghost use Rattle.audit_model.specs.Sames.{same_sight};
ghost use Rattle.audit_sights.specs.Found.{found};

use crate::interface::InterfaceMap;
use audit_model::SightId;
use std::alloc::{AllocError, Global};
use std::collections::BTreeMap;

/// Values by the ids of sightings, for sightings that mostly come in rising order on each
/// interface.
#[derive(Drop)]
pub struct SightMap<V> {
    by_interface: BTreeMap<u32, InterfaceMap<V>>,
    alloc: Global,
}

impl<V: Copy> SightMap<V> {
    /// No values. Allocates no memory.
    pub fn new(alloc: Global) -> Self
        ensures { (sight : SightId) → found result sight ≡ None }
    {
        SightMap {
            by_interface: BTreeMap::new(alloc),
            alloc,
        }
    }

    /// The value of the sighting. It allocates no memory, and takes logarithmic time: if indices
    /// rose, in the number of those of the interface from there on.
    pub fn get(&self, sight: SightId) -> Option<V>
        ensures { result ≡ found self.now sight }
    {
        let values = self.by_interface.get(&sight.iface)?;
        values.get(sight.index)
    }

    /// Sets the value of the sighting, in place of any other. If memory is refused, nothing
    /// changes. It takes logarithmic time.
    pub fn put(&mut self, sight: SightId, value: V) -> Result<(), AllocError>
        ensures ok { OnOk result ((other : SightId) → found self.new other ≡ (if same_sight other sight then Some value else found self.old other)) }
        ensures err { OnErr result ((other : SightId) → found self.new other ≡ found self.old other) }
    {
        if let Some(values) = self.by_interface.get_mut(&sight.iface) {
            values.put(sight.index, value)?;
            return Ok(());
        }
        let mut first = InterfaceMap::new(self.alloc);
        first.put(sight.index, value)?;
        self.by_interface.insert(sight.iface, first)?;
        Ok(())
    }
}
