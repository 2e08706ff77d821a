//! A table with a value for each sighting of an intake.

ghost use Rattle.std.specs.Prelude.{◌≡◌, ◌<◌, ◌≤◌, ◌++◌, ℕ, Some, None, OnOk, is_some, length, replicate, if◌then◌else◌};
ghost use Rattle.std.specs.Bool.{OnTrue, OnFalse};
ghost use Rattle.audit_model.specs.declared.sighting.SightId.{SightId};
ghost use Rattle.audit_model.specs.Sames.{same_sight};
ghost use Rattle.audit_placement.specs.Table.{table_at, table_or};

use audit_model::SightId;
use audit_sightings::Intake;
use std::alloc::{AllocError, Global};

/// Values by interface and index.
#[derive(Drop)]
pub struct Table<T> {
    by_interface: Vec<Vec<T>>,
}

impl<T: Copy> Table<T> {
    /// A table without places. Allocates no memory.
    pub fn new(alloc: Global) -> Self
        ensures { (sight : SightId) → table_at result.by_interface.items sight ≡ None }
    {
        Table {
            by_interface: Vec::new(alloc),
        }
    }

    /// Adds a place with the blank for each sighting of the intake that has none. It takes time in
    /// proportion to these sightings and the interfaces.
    pub fn grow(&mut self, alloc: Global, intake: &Intake, blank: T) -> Result<(), AllocError>
        ensures { (sight : SightId) → table_or blank self.new.by_interface.items sight ≡ table_or blank self.old.by_interface.items sight }
    {
        grow_interfaces(alloc, &mut self.by_interface, intake, blank)
    }

    /// The value at the place of the id.
    pub fn read(&self, sight: SightId) -> Option<T>
        ensures { result ≡ table_at self.now.by_interface.items sight }
    {
        let values = self.by_interface.get(sight.iface as usize)?;
        values.get(sight.index as usize).copied()
    }

    /// Sets the value at the place of the id. Returns whether there is one.
    pub fn write(&mut self, sight: SightId, value: T) -> bool
        ensures there { result ≡ is_some (table_at self.old.by_interface.items sight) }
        ensures set { OnTrue result ((other : SightId) → table_at self.new.by_interface.items other
            ≡ (if same_sight sight other then Some value else table_at self.old.by_interface.items other)) }
        ensures same { OnFalse result (self.new.by_interface.items ≡ self.old.by_interface.items) }
    {
        let iface = sight.iface as usize;
        let index = sight.index as usize;
        if iface < self.by_interface.len() && index < self.by_interface[iface].len() {
            self.by_interface[iface][index] = value;
            return true;
        }
        false
    }
}

/// Adds an empty list if the interface has none.
fn add_interface<T: Copy>(
    alloc: Global,
    by_interface: &mut Vec<Vec<T>>,
    iface: u32,
    blank: T,
) -> Result<(), AllocError>
    requires { iface ≤ length by_interface.old.items }
    ensures there { OnOk result (iface < length by_interface.new.items) }
    ensures same { (sight : SightId) → table_or blank by_interface.new.items sight ≡ table_or blank by_interface.old.items sight }
{
    if by_interface.len() <= iface as usize {
        by_interface.push(Vec::new(alloc))?;
    }
    Ok(())
}

/// Extends the list of each interface to its number of sightings.
fn grow_interfaces<T: Copy>(
    alloc: Global,
    by_interface: &mut Vec<Vec<T>>,
    intake: &Intake,
    blank: T,
) -> Result<(), AllocError>
    ensures { (sight : SightId) → table_or blank by_interface.new.items sight ≡ table_or blank by_interface.old.items sight }
{
    'interfaces: for iface in 0..intake.interfaces() {
        add_interface(alloc, by_interface, iface, blank)?;
        let count = intake.interface(iface).len();
        fill(&mut by_interface[iface as usize], blank, count)?;
    }
    Ok(())
}

/// Adds the value at the end, up to that number of values.
fn fill<T: Copy>(values: &mut Vec<T>, blank: T, count: usize) -> Result<(), AllocError>
    ensures { (more : ℕ) × (values.new.items ≡ values.old.items ++ replicate more blank) }
{
    if values.len() < count {
        values.reserve(count - values.len())?;
    }
    'room: while values.len() < count {
        values.push(blank)?;
    }
    Ok(())
}
