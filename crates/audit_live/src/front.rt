//! The front: all that is placed so far.

ghost use Rattle.std.specs.Prelude.{◌≡◌, ℕ, Option, None, Some, IfNone, IfOk, OnOk, [], length, vec_len};
ghost use Rattle.audit_keys.specs.KeyFor.{key_for};
ghost use Rattle.audit_order.specs.Grown.{Fits};
ghost use Rattle.audit_order.specs.Growing.{placing_count};
ghost use Rattle.audit_placement.specs.Entries.{entries};
ghost use Rattle.audit_prefix.specs.Live.{MayAdvance, owed_in};
ghost use Rattle.audit_prefix.specs.Breaches.{LiveBreach};
ghost use Rattle.audit_rules.specs.Keys.{KeyFor};
ghost use Rattle.audit_sightings.specs.Intake.{AreNumbered, Taken, taken};
ghost use Rattle.audit_whole.specs.Glued.{lanes_from};
ghost use Rattle.audit_live.specs.Knows.{Knows, TakesExtension, stands_for};

use crate::lanes::LiveLanes;
use crate::progress::Progress;
use audit_keys::Credentials;
use audit_model::{Breach, Extension};
use audit_order::Placing;
use audit_sightings::Intake;
use std::alloc::{AllocError, Global};

/// The certificate so far, and the state of its lanes.
#[derive(Drop)]
pub struct Front {
    pub placing: Placing,
    pub lanes: LiveLanes,
}

impl Front {
    /// Nothing is placed. Allocates no memory.
    pub fn new(alloc: Global) -> Front
        ensures lanes { result.placing.certificate.lanes ≡ [] }
        ensures drops { result.placing.certificate.drops ≡ [] }
        ensures knows { (taken : Taken) (key_for : KeyFor) → AreNumbered taken → Knows taken key_for None result }
    {
        Front {
            placing: Placing::new(alloc),
            lanes: LiveLanes::new(alloc),
        }
    }

    /// Adds an extension to the certificate, and returns the breach that it then shows.
    pub fn take(
        &mut self,
        intake: &Intake,
        credentials: &Credentials,
        last: Option<u64>,
        extension: &Extension,
    ) -> Result<Option<Breach>, AllocError>
        requires knows { Knows (taken intake.now) (key_for credentials.now) last self.old }
        requires fits { Fits self.old.placing.certificate extension.now }
        ensures takes_extension { IfOk result (TakesExtension (taken intake.now) (key_for credentials.now) last self.old extension.now self.new) }
        // If the extension may come, the result is the breach of the whole certificate,
        ensures shows { (horizon : ℕ) → MayAdvance (stands_for (taken intake.now) self.old last) horizon extension.now →
            IfOk result (LiveBreach (taken intake.now) (key_for credentials.now) self.new.placing.certificate) }
        // and if there is none, the invariant holds on.
        ensures knows { (horizon : ℕ) → MayAdvance (stands_for (taken intake.now) self.old last) horizon extension.now →
            IfOk result (λ found. IfNone found (Knows (taken intake.now) (key_for credentials.now) (Some horizon) self.new)) }
    {
        if let Err(breach) = self.placing.add(intake, extension)? {
            return Ok(Some(breach));
        }
        self.lanes.add(extension.lanes.as_slice())?;
        self.lanes
            .take(intake, credentials, last, extension.events.as_slice())
    }

    /// The progress at a horizon.
    pub fn progress(&self, horizon: u64) -> Progress
        requires { vec_len self.now.lanes.lanes ≡ length self.now.placing.certificate.lanes }
        ensures horizon { result.horizon ≡ horizon }
        ensures placed { (taken : Taken) (key_for : KeyFor) (last : Option ℕ) → Knows taken key_for last self.now → result.placed ≡ placing_count (entries self.now.placing.certificate) }
        ensures lanes { result.lanes ≡ length self.now.placing.certificate.lanes }
        ensures owed { (taken : Taken) (key_for : KeyFor) (last : Option ℕ) → Knows taken key_for last self.now →
            result.owed ≡ owed_in taken key_for (lanes_from 0 self.now.placing.certificate.lanes) }
    {
        Progress {
            horizon,
            placed: self.placing.count(),
            lanes: self.placing.certificate().lanes.len() as u32,
            owed: u32::try_from(self.lanes.owed).unwrap_or(u32::MAX),
        }
    }
}
