//! The traits of a finder of certificates.
//!
//! No verdict depends on a finder: its result is judged, or refused. A finder must return; for
//! captures that grow, it must return only events after the last horizon. So the program is stated
//! and proved for every finder, and its proofs are independent of those of the finder that it has.
#![tactic(auto)]

ghost use Rattle.std.specs.Prelude.{◌≡◌, None, IfOk};
ghost use Rattle.std.specs.Thread.{IsSync};

mod found_certificate;
mod windows;

use audit_keys::Credentials;
use audit_model::{Certificate, Extension};
use audit_sightings::Intake;
pub use found_certificate::FoundCertificate;
use std::alloc::{AllocError, Global};
use std::thread::Threads;
pub use windows::Windows;

/// Finds certificates for what was captured.
pub trait CertificateFinder {
    ghost use Rattle.audit_model.specs.declared.certificate.Certificate.{Certificate as Found};
    ghost use Rattle.audit_sightings.specs.Intake.{Taken, taken};

    /// The finder for captures that grow.
    type Extending: ExtensionFinder + Drop;

    /// The property of each certificate that it makes for the captures.
    ghost finds: { Taken → Found → Type 0 };

    /// Makes a certificate in the least time, by one walk over the sightings that uses only this
    /// part of each window.
    fn find_once(
        &self,
        alloc: Global,
        intake: &Intake,
        credentials: &Credentials,
        windows: Windows,
    ) -> Result<FoundCertificate, AllocError>
        ensures { IfOk result (λ found. finds (taken intake.now) found.certificate) };

    /// Makes a certificate by one walk in which leases last as long as possible: the act on each
    /// request is at the moment at which its response leaves.
    fn find_late(
        &self,
        alloc: Global,
        intake: &Intake,
        credentials: &Credentials,
    ) -> Result<Certificate, AllocError>
        ensures { IfOk result (finds (taken intake.now)) };

    /// Makes a certificate with all passes, using this part of each window, with at most this
    /// number of threads.
    fn find<R: Threads + Sync>(
        &self,
        rt: &R,
        alloc: Global,
        intake: &Intake,
        credentials: &Credentials,
        windows: Windows,
        workers: u32,
    ) -> Result<FoundCertificate, AllocError>
        requires { IsSync R.row }
        ensures { IfOk result (λ found. finds (taken intake.now) found.certificate) };

    /// The finder for captures that grow, before its first portion.
    fn extending(&self, alloc: Global) -> Self::Extending
        ensures { Self.Extending.placed_to result ≡ None };
}

/// Makes the certificate of captures that grow, in portions.
pub trait ExtensionFinder {
    ghost use Rattle.std.specs.Prelude.{◌≡◌, ℕ, IfOk, OnOk, Option, Some};
    ghost use Rattle.audit_finding.specs.Turn.{StandInside};

    /// The last horizon, up to which it returned all events.
    ghost placed_to: { Self → Option ℕ };

    /// Returns the additions to the certificate up to a horizon. After an `AllocError` it can't
    /// continue.
    fn extend(
        &mut self,
        intake: &Intake,
        credentials: &Credentials,
        horizon: u64,
    ) -> Result<Extension, AllocError>
        // All of it is after the last horizon, and no later than this one.
        ensures inside { IfOk result (StandInside (placed_to self.old) horizon) }
        ensures given { OnOk result (placed_to self.new ≡ Some horizon) };
}
