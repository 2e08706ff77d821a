//! The contents of the captures, read once.

use audit_finding::Windows;
use audit_keys::Credentials;
use audit_known::Contents;
use audit_model::{Addr, Policy};
use audit_search_input::Captured;
use audit_seen::Sights;
use audit_sightings::Intake;
use std::alloc::{AllocError, Global};

/// The contents of the captures, read once.
#[derive(Drop)]
pub struct Reading<'a> {
    captured: Captured<'a>,
    contents: Contents,
    alloc: Global,
}

impl<'a> Reading<'a> {
    /// Reads each sighting. `windows` limits the moments that a sighting may have. `pairs` has the
    /// client and the listen address of each lane. It takes n log n, and for each sighting as many
    /// steps as it has bytes.
    pub fn new(
        alloc: Global,
        intake: &'a Intake,
        credentials: &'a Credentials,
        pairs: &'a [(Addr, Addr)],
        windows: Windows,
    ) -> Result<Reading<'a>, AllocError> {
        Ok(Reading {
            captured: Captured::new(intake, credentials, pairs),
            contents: Contents::read(alloc, intake, pairs, windows)?,
            alloc,
        })
    }

    /// The allocator of the search.
    pub fn alloc(&self) -> Global {
        self.alloc
    }

    /// The captures.
    pub fn captured(&self) -> Captured<'a> {
        self.captured
    }

    /// The policy of the server.
    pub fn policy(&self) -> &'a Policy {
        self.captured.policy()
    }

    /// The number of lanes.
    pub fn lanes(&self) -> usize {
        self.captured.pairs().len()
    }

    /// The contents of the sightings.
    pub fn contents(&self) -> &Contents {
        &self.contents
    }

    /// The sightings.
    pub fn sights(&self) -> &Sights {
        self.contents.sights()
    }
}
