//! The contents of the captured sightings, read once.

use crate::bindings::Bindings;
use audit_finding::Windows;
use audit_model::Addr;
use audit_seen::{Lanes, PoolNumbers, Sights};
use audit_sightings::Intake;
use std::alloc::{AllocError, Global};

/// The contents of the sightings, the numbers of the pools, and the channels that were requested.
#[derive(Drop)]
pub struct Contents {
    sights: Sights,
    numbers: PoolNumbers,
    bindings: Bindings,
}

impl Contents {
    /// Reads each sighting. `windows` limits the moments that a sighting may have. `pairs` has the
    /// client and the listen address of each lane. It takes n log n, and for each sighting as many
    /// steps as it has bytes.
    pub fn read(
        alloc: Global,
        intake: &Intake,
        pairs: &[(Addr, Addr)],
        windows: Windows,
    ) -> Result<Contents, AllocError> {
        let lanes = Lanes::of(alloc, pairs)?;
        let (sights, numbers) = Sights::read(alloc, intake, &lanes, windows)?;
        let bindings = Bindings::of(alloc, intake, &sights)?;
        Ok(Contents {
            sights,
            numbers,
            bindings,
        })
    }

    /// The sightings.
    pub fn sights(&self) -> &Sights {
        &self.sights
    }

    /// The number of each pool.
    pub fn numbers(&self) -> &PoolNumbers {
        &self.numbers
    }

    /// The channels that were requested.
    pub fn bindings(&self) -> &Bindings {
        &self.bindings
    }
}
