//! Sightings, interface by interface.

mod joining;

ghost use Rattle.std.specs.Prelude.{◌≡◌, ◌<◌, ◌≤◌, ◌+◌, max, List, ℕ, [], ◌∷◌, ◌++◌, length, replicate, OnOk, OnErr};
ghost use Rattle.audit_model.specs.declared.sighting.Sighting.{Sighting};
ghost use Rattle.audit_sightings.specs.ByInterface.{Adds, AreBytes};
ghost use Rattle.audit_sightings.specs.Newest.{later_of};

use crate::fault::IntakeFaultKind;
use crate::intake::MAX_FILES;
use crate::owned_datagram::OwnedDatagram;
use audit_model::{Listed, SightId, Sighting, window};
use std::alloc::{AllocError, Global};
use std::marker::Model;

/// The most sightings of an intake.
pub const MAX_SIGHTINGS: u32 = 16_777_216;

/// The number of interface numbers of each file.
pub const INTERFACES_OF_FILE: u32 = 64;

/// The sightings of each interface, by the interface's number.
#[derive(Drop)]
pub struct ByInterface {
    interfaces: Vec<Listed<Sighting>>,
    count: u32,
    /// By file, the moment from which on its newest sighting may have come.
    newest: [Option<u64>; MAX_FILES],
    alloc: Global,
}

impl Model for ByInterface {
    ghost use Rattle.std.specs.Prelude.{List};
    ghost use Rattle.audit_model.specs.declared.sighting.Sighting.{Sighting};
    ghost use Rattle.audit_sightings.specs.ByInterface.{AreByInterface};
    ghost use Rattle.audit_sightings.specs.Newest.{AreNewest};

    ghost Value = { List (List Sighting) };

    ghost view = { λ a. a.interfaces.items };

    ghost invariant = { λ a. AreByInterface a.interfaces.items a.count × AreNewest a.interfaces.items a.newest };
}

impl ByInterface {
    ghost use Rattle.std.specs.Prelude.{◌≡◌, ◌⊎◌, ◌<◌, ℕ, [], length, OnOk, OnErr, IfSome, IfErr, option_copied, option_and_then, slice_get};
    ghost use Rattle.audit_sightings.specs.ByInterface.{of_interface, count_of, IsNumbered, EachFits, Adds};
    ghost use Rattle.audit_sightings.specs.Newest.{IsNewest};
    ghost use Rattle.audit_sightings.specs.Stretch.{owned};
    ghost use Rattle.audit_sightings.specs.Sightings.{sighting_of};

    /// No sightings. Allocates no memory.
    pub fn new(alloc: Global) -> ByInterface
        ensures { result ≡ [] }
    {
        ByInterface {
            interfaces: Vec::new(alloc),
            count: 0,
            newest: [None; MAX_FILES],
            alloc,
        }
    }

    /// The sightings of an interface.
    pub fn interface(&self, iface: u32) -> &[Sighting]
        ensures exact { result.now ≡ of_interface self.now iface }
        ensures numbered { IsNumbered iface result.now }
    {
        match self.interfaces.get(iface as usize) {
            Some(interface) => interface.as_slice(),
            None => &[],
        }
    }

    /// The sighting of that id.
    pub fn sighting(&self, id: SightId) -> Option<&Sighting>
        ensures exact { option_copied result
            ≡ option_and_then (λ interface. slice_get interface id.index) (slice_get self.now id.iface) }
    {
        let interface = self.interfaces.get(id.iface as usize)?;
        interface.as_slice().get(id.index as usize)
    }

    /// The number of interfaces.
    pub fn len(&self) -> u32
        ensures { result ≡ length self.now }
    {
        self.interfaces.len() as u32
    }

    /// The number of sightings of all interfaces.
    pub fn count(&self) -> u32
        ensures count { result ≡ count_of self.now }
        ensures numbered { (iface : ℕ) → IsNumbered iface (of_interface self.now iface) }
        ensures few { (count_of self.now ≤ MAX_SIGHTINGS) × (length self.now ≤ 1024) }
        ensures fits { (iface : ℕ) → EachFits (of_interface self.now iface) }
    {
        self.count
    }

    /// The moment from which on the newest sighting of a file may have come.
    pub fn newest(&self, file: u32) -> Option<u64>
        ensures { IsNewest self.now file result }
    {
        self.newest.get(file as usize).copied().flatten()
    }

    /// Adds a sighting after those of its interface. After a fault nothing is changed.
    pub fn push(
        &mut self,
        iface: u32,
        skew: u64,
        kept: OwnedDatagram,
    ) -> Result<(), IntakeFaultKind>
        requires { iface < 1024 }
        ensures ok { OnOk result (Adds self.old iface
            (sighting_of skew iface (length (of_interface self.old iface)) (owned kept)) self.new) }
        ensures full { count_of self.old ≡ MAX_SIGHTINGS → result ≡ Err IntakeFaultKind.Limit }
        ensures refused { IfErr result (λ fault. (fault ≡ IntakeFaultKind.Memory)
            ⊎ ((fault ≡ IntakeFaultKind.Limit) × (count_of self.old ≡ MAX_SIGHTINGS))) }
        ensures err { OnErr result (self.new ≡ self.old) }
    {
        if self.count >= MAX_SIGHTINGS {
            return Err(IntakeFaultKind::Limit);
        }
        let index = self.interface(iface).len() as u32;
        bytes(kept.payload.as_slice());
        let (lo, hi) = window(kept.stamp, skew);
        let sighting = Sighting {
            payload: kept.payload,
            stamp: kept.stamp,
            lo,
            hi,
            id: SightId { iface, index },
            from: kept.from,
            to: kept.to,
            side: kept.side,
        };
        add(self.alloc, &mut self.interfaces, iface as usize, sighting)?;
        self.count += 1;
        let file = (iface / INTERFACES_OF_FILE) as usize;
        self.newest[file] = later(self.newest[file], lo);
        Ok(())
    }
}

/// The later of two moments, if there is a first.
fn later(before: Option<u64>, moment: u64) -> Option<u64>
    ensures { result ≡ later_of before moment }
{
    match before {
        Some(before) => Some(before.max(moment)),
        None => Some(moment),
    }
}

/// A payload is bytes.
fn bytes(payload: &[u8])
    ensures { AreBytes payload.now }
{
    let _length = payload.len();
}

/// Adds a sighting after those of its interface. If memory runs out nothing is changed.
fn add(
    alloc: Global,
    interfaces: &mut Vec<Listed<Sighting>>,
    iface: usize,
    sighting: Sighting,
) -> Result<(), AllocError>
    ensures ok { OnOk result (Adds interfaces.old.items iface sighting interfaces.new.items) }
    ensures err { OnErr result (interfaces.new.items ≡ interfaces.old.items) }
    ensures few { OnOk result (length interfaces.old.items ≤ 1024 → iface < 1024 → length interfaces.new.items ≤ 1024) }
{
    let before = interfaces.len();
    let added = add_behind(alloc, interfaces, iface, sighting);
    if added.is_err() {
        interfaces.truncate(before);
    }
    added
}

/// Adds a sighting after those of its interface. If memory runs out, empty interfaces may be added
/// after the others.
fn add_behind(
    alloc: Global,
    interfaces: &mut Vec<Listed<Sighting>>,
    iface: usize,
    sighting: Sighting,
) -> Result<(), AllocError>
    ensures ok { OnOk result (Adds interfaces.old.items iface sighting interfaces.new.items) }
    ensures err { OnErr result ((more : ℕ) × (interfaces.new.items ≡ interfaces.old.items ++ replicate more [])) }
    ensures few { OnOk result (length interfaces.new.items ≤ max (length interfaces.old.items) (iface + 1)) }
{
    add_interfaces(alloc, interfaces, iface)?;
    interfaces[iface].push(sighting)?;
    Ok(())
}

/// Adds empty interfaces until there is that of the interface.
fn add_interfaces(
    alloc: Global,
    interfaces: &mut Vec<Listed<Sighting>>,
    iface: usize,
) -> Result<(), AllocError>
    ensures room { OnOk result (iface < length interfaces.new.items) }
    ensures few { length interfaces.new.items ≤ max (length interfaces.old.items) (iface + 1) }
    ensures empty { (more : ℕ) × (interfaces.new.items ≡ interfaces.old.items ++ replicate more []) }
{
    'room: while interfaces.len() <= iface {
        interfaces.push(Listed::new(alloc))?;
    }
    Ok(())
}
