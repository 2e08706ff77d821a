//! The finder of the program.

ghost use Rattle.std.specs.Prelude.{◌≡◌};

use crate::finder::Finder;
use crate::finding::{find, find_parallel};
use crate::walking::{find_late, find_once};
use audit_finding::{CertificateFinder, ExtensionFinder, FoundCertificate, Windows};
use audit_keys::Credentials;
use audit_model::{Certificate, Extension};
use audit_sightings::Intake;
use std::alloc::{AllocError, Global};
use std::hash::RandomState;
use std::thread::Threads;

/// Makes certificates by one walk over the sightings, or in passes over all of them.
#[derive(Clone, Copy, Debug)]
pub struct WalkAndPasses {
    seed: RandomState,
}

impl WalkAndPasses {
    /// The finder whose tables of clients hash with this seed: clients choose their addresses, and
    /// may not know the seed before.
    pub fn new(seed: RandomState) -> WalkAndPasses
        ensures { result.seed ≡ seed }
    {
        WalkAndPasses { seed }
    }
}

impl CertificateFinder for WalkAndPasses {
    ghost use Rattle.audit_finder.specs.Found.{IsFound};

    type Extending = Finder;

    ghost finds = { IsFound };

    fn find_once(
        &self,
        alloc: Global,
        intake: &Intake,
        credentials: &Credentials,
        windows: Windows,
    ) -> Result<FoundCertificate, AllocError> {
        find_once(alloc, self.seed, intake, credentials, windows)
    }

    fn find_late(
        &self,
        alloc: Global,
        intake: &Intake,
        credentials: &Credentials,
    ) -> Result<Certificate, AllocError> {
        Ok(find_late(alloc, self.seed, intake, credentials)?.into_certificate())
    }

    /// With one worker it runs on the caller's thread alone.
    fn find<R: Threads + Sync>(
        &self,
        rt: &R,
        alloc: Global,
        intake: &Intake,
        credentials: &Credentials,
        windows: Windows,
        workers: u32,
    ) -> Result<FoundCertificate, AllocError> {
        if workers == 1 {
            return find(alloc, self.seed, intake, credentials, windows);
        }
        find_parallel(rt, alloc, self.seed, intake, credentials, windows, workers)
    }

    fn extending(&self, alloc: Global) -> Finder {
        Finder::new(alloc, self.seed)
    }
}

impl ExtensionFinder for Finder {
    ghost placed_to = { λ finder. finder.search.placed_to };

    fn extend(
        &mut self,
        intake: &Intake,
        credentials: &Credentials,
        horizon: u64,
    ) -> Result<Extension, AllocError> {
        Finder::extend(self, intake, credentials, horizon)
    }
}
