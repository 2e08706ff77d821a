//! The number of placed sightings of each interface.

ghost use Rattle.std.specs.Prelude.{◌≡◌, ◌≢◌, ◌≤◌, ◌^◌, ◌⊎◌, ℕ, false, length, IfOk, IfErr, OnOk, IsTrue, nat_eq};
ghost use Rattle.audit_server.specs.State.{put};
ghost use Rattle.audit_cuts.specs.Carried.{placed_in};
ghost use Rattle.audit_cuts.specs.Rebasing.{bases_of};
ghost use Rattle.audit_machine.specs.declared.carry_error.CarryError.TheVariants.{Interfaces, Memory};
ghost use Rattle.audit_machine.specs.Carrying.{HasCountFrom, LacksBase};
ghost use Rattle.audit_machine.specs.Counts.{count_of};

use crate::carry_error::CarryError;
use audit_cuts::Interface;
use std::alloc::{AllocError, Global};
use std::collections::BTreeMap;

/// A count for each interface, 0 at first.
#[derive(Drop)]
pub struct Counts {
    counts: BTreeMap<u32, u32>,
}

impl Counts {
    /// No counts. Allocates no memory.
    pub fn new(alloc: Global) -> Counts
        ensures { (iface : ℕ) → count_of result iface ≡ 0 }
    {
        Counts {
            counts: BTreeMap::new(alloc),
        }
    }

    /// The count of an interface.
    pub fn get(&self, iface: u32) -> u32
        ensures { result ≡ count_of self.now iface }
    {
        self.counts.get(&iface).copied().unwrap_or(0)
    }

    /// Sets the count of an interface.
    pub fn put(&mut self, iface: u32, count: u32) -> Result<(), AllocError>
        ensures { OnOk result ((q : ℕ) → count_of self.new q ≡ put nat_eq (count_of self.old) iface count q) }
    {
        self.counts.insert(iface, count)?;
        Ok(())
    }

    /// Whether each interface that has a count other than 0 is before this one.
    pub fn are_before(&self, end: u32) -> bool
        ensures yes { IsTrue result → (iface : ℕ) → end ≤ iface → count_of self.now iface ≡ 0 }
        ensures no { result ≡ false → HasCountFrom end self.now }
    {
        for (iface, count) in self.counts.iter() {
            if *iface >= end && *count > 0 {
                return false;
            }
        }
        true
    }

    /// The interfaces with these bases and their counts. There has to be a base for each interface
    /// that has a count other than 0.
    pub fn interfaces(&self, alloc: Global, bases: &[u64]) -> Result<Vec<Interface>, CarryError>
        ensures placed { IfOk result (λ all. (iface : ℕ) → placed_in all.items iface ≡ count_of self.now iface) }
        ensures bases { IfOk result (λ all. bases_of all.items ≡ bases.now) }
        ensures why { IfErr result (LacksBase self.now bases.now) }
    {
        let Ok(end) = u32::try_from(bases.len()) else {
            return Err(CarryError::Interfaces);
        };
        if !self.are_before(end) {
            return Err(CarryError::Interfaces);
        }
        let mut all = Vec::new(alloc);
        for iface in 0..end {
            all.push(Interface {
                base: bases[iface as usize],
                placed: self.get(iface),
            })?;
        }
        Ok(all)
    }

    /// The counts of interfaces by their numbers.
    pub fn resume(alloc: Global, all: &[Interface]) -> Result<Counts, CarryError>
        ensures ok { IfOk result (λ counts. (iface : ℕ) → count_of counts iface ≡ placed_in all.now iface) }
        ensures why { IfErr result (λ error. error ≢ Memory → (error ≡ Interfaces) × (2 ^ 32 ≤ length all.now)) }
    {
        let Ok(end) = u32::try_from(all.len()) else {
            return Err(CarryError::Interfaces);
        };
        let mut counts = Counts::new(alloc);
        for iface in 0..end {
            counts.put(iface, all[iface as usize].placed)?;
        }
        Ok(counts)
    }
}
