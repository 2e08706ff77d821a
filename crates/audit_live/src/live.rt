//! A live audit: captures that grow, judged turn by turn.

ghost use Rattle.std.specs.Prelude.{◌≡◌, ◌<◌, ◌+◌, ◌++◌, ◌∷◌, ◌↔◌, ℕ, List, [], IfErr, IfOk, IsOkUnless, IsSome, OnErr, OnOk, None, Some, Ok, Err, vec_len};
ghost use Rattle.audit_keys.specs.KeyFor.{key_for};
ghost use Rattle.audit_model.specs.declared.certificate.TheConstants.{MAX_LANES};
ghost use Rattle.audit_prefix.specs.Live.{Advances, IsProgress, MayAdvance, Shows, horizon_of};
ghost use Rattle.audit_prefix.specs.Prefix.{IsPrefix};
ghost use Rattle.audit_prefix.specs.Breaches.{LiveBreach};
ghost use Rattle.audit_sightings.specs.Files.{Fed, GoesOn, Refuses, StandsFor, not_fed};
ghost use Rattle.audit_sightings.specs.Intake.{taken};
ghost use Rattle.audit_sightings.specs.declared.fault.IntakeFault.{IntakeFault as Fault};
ghost use Rattle.audit_sightings.specs.declared.fault.IntakeFaultKind.TheVariants as kinds;
ghost use Rattle.audit_sightings.specs.declared.intake.TheConstants.{MAX_FILES};
ghost use Rattle.audit_verdict.specs.Verdicts.{IsConforming, IsVerdict};
ghost use Rattle.audit_whole.specs.CaptureRun.{rules_for};
ghost use Rattle.audit_whole.specs.Conforms.{Conforms};
ghost use Rattle.audit_whole.specs.Headline.{Headline};
ghost use Rattle.audit_live.specs.declared.cause.Cause.{Cause as FirstCause};
ghost use Rattle.audit_live.specs.declared.cause.Cause.TheVariants.{Refused};
ghost use Rattle.audit_live.specs.declared.fault.LiveFault.TheVariants.{Ended, Input};
ghost use Rattle.audit_live.specs.Knows.{TakesExtension};
ghost use Rattle.audit_live.specs.Refusals.{ChecksTheEnds, IfBreach, IsInput, IsRefusal, Leaves, standing_of, end_by};

use crate::cause::Cause;
use crate::fault::{LiveEnd, LiveFault};
use crate::front::Front;
use crate::progress::Progress;
use crate::turn::{is_in_turn, is_not_later};
use audit_glue::check;
use audit_keys::Credentials;
use audit_model::{Extension, Policy, Verdict};
use audit_sightings::Intake;
use audit_sightings::laws::sightings_are_numbered;
use std::alloc::Global;
use std::marker::Model;

/// Captures that grow, and the certificate for them so far.
#[derive(Drop)]
pub struct Live {
    intake: Intake,
    credentials: Credentials,
    front: Front,
    /// The last horizon.
    last: Option<u64>,
    /// The first cause by which it ended.
    ended: Option<Cause>,
    alloc: Global,
}

impl Model for Live {
    ghost use Rattle.std.specs.Prelude.{◌≡◌, None};
    ghost use Rattle.std.specs.Coded.{codes};
    ghost use Rattle.audit_keys.specs.KeyFor.{key_for};
    ghost use Rattle.audit_keys.specs.contracts.keyring.Credentials.{the_row as credentials_row};
    ghost use Rattle.audit_sightings.specs.contracts.intake.Intake.{the_row as intake_row};
    ghost use Rattle.audit_live.specs.contracts.front.Front.{the_row as front_row};
    ghost use Rattle.audit_sightings.specs.Intake.{taken};
    ghost use Rattle.audit_live.specs.Audit.{Audit};
    ghost use Rattle.audit_live.specs.Knows.{Knows};

    ghost Value = { Audit };

    ghost coded = { Prim.hlevel (codes, credentials_row.coded, intake_row.coded, front_row.coded) };

    ghost view = { λ l. record { intake = l.intake; credentials = l.credentials; front = l.front; last = l.last; ended = l.ended } };

    ghost invariant = { λ l. l.ended ≡ None → Knows (taken l.intake) (key_for l.credentials) l.last l.front };
}

impl Live {
    /// An audit of no captures. Allocates no memory.
    pub fn open(alloc: Global, policy: Policy, credentials: Credentials) -> Live
        ensures taken { taken result.intake ≡ record { policy = policy; files = 0; interfaces = [] } }
        ensures stands { StandsFor result.intake [] }
        ensures credentials { result.credentials ≡ credentials }
        ensures lanes { result.front.placing.certificate.lanes ≡ [] }
        ensures drops { result.front.placing.certificate.drops ≡ [] }
        ensures last { result.last ≡ None }
        ensures ended { result.ended ≡ None }
    {
        Live {
            intake: Intake::new(alloc, policy),
            credentials,
            front: Front::new(alloc),
            last: None,
            ended: None,
            alloc,
        }
    }

    /// Adds a capture, and returns its number, from 0 in order. A refusal changes nothing.
    pub fn add_file(&mut self) -> Result<u32, LiveFault>
        ensures ended { IsSome self.old.ended → (result ≡ Err Ended) × (self.new ≡ self.old) }
        ensures number { IfOk result (λ file. file ≡ vec_len self.old.intake.files) }
        ensures taken { OnOk result (taken self.new.intake ≡ record (taken self.old.intake) { files = vec_len self.old.intake.files + 1 }) }
        ensures stands { (files : List Fed) → StandsFor self.old.intake files → OnOk result (StandsFor self.new.intake (files ++ not_fed ∷ [])) }
        ensures err { OnErr result (taken self.new.intake ≡ taken self.old.intake) }
        ensures kept { (files : List Fed) → StandsFor self.old.intake files → OnErr result (StandsFor self.new.intake files) }
        ensures rest { self.new ≡ record self.old { intake = self.new.intake } }
        // Before the audit has ended, it is refused exactly as an intake refuses a file.
        ensures room { self.old.ended ≡ None → self.old.intake.failed ≡ None → vec_len self.old.intake.files < MAX_FILES →
            IsOkUnless result (Input (record { kind = kinds.Memory; file = vec_len self.old.intake.files })) }
        ensures full { self.old.ended ≡ None → self.old.intake.failed ≡ None → vec_len self.old.intake.files ≡ MAX_FILES →
            result ≡ Err (Input (record { kind = kinds.Limit; file = MAX_FILES })) }
        ensures again { (failed : ℕ) → self.old.ended ≡ None → self.old.intake.failed ≡ Some failed →
            result ≡ Err (Input (record { kind = kinds.Failed; file = failed })) }
        ensures failed { self.new.intake.failed ≡ self.old.intake.failed }
    {
        if self.ended.is_some() {
            return Err(LiveFault::Ended);
        }
        match self.intake.add_file() {
            Ok(file) => Ok(file),
            Err(fault) => Err(LiveFault::Input(fault)),
        }
    }

    /// Feeds the next bytes of a capture, split anywhere. A refusal of the bytes ends the audit.
    pub fn feed(&mut self, file: u32, piece: &[u8]) -> Result<(), LiveFault>
        requires { file < vec_len self.old.intake.files }
        ensures ended { IsSome self.old.ended → (result ≡ Err Ended) × (self.new ≡ self.old) }
        ensures ok { (files : List Fed) → StandsFor self.old.intake files → OnOk result (GoesOn self.new.intake files file piece.now) }
        ensures err { self.old.ended ≡ None → (files : List Fed) → StandsFor self.old.intake files →
            IfErr result (λ refusal. IsInput refusal (λ fault. (fault.file ≡ file) × Refuses self.new.intake.policy self.new.intake.interfaces files file piece.now fault.kind)) }
        ensures cause { self.old.ended ≡ None → IfErr result (λ refusal. IsInput refusal (λ fault. self.new.ended ≡ Some (Refused fault))) }
        ensures goes_on { OnOk result (self.new.ended ≡ None) }
        ensures files { vec_len self.new.intake.files ≡ vec_len self.old.intake.files }
        ensures policy { self.new.intake.policy ≡ self.old.intake.policy }
        // As the captures grow, the placed part stays a prefix of a run that explains them.
        ensures prefix { OnOk result (IsPrefix (taken self.new.intake) (rules_for (taken self.new.intake) (key_for self.new.credentials)) self.new.front.placing.certificate (horizon_of self.new.last)) }
        ensures rest { self.new ≡ record self.old { intake = self.new.intake; ended = self.new.ended } }
    {
        if self.ended.is_some() {
            return Err(LiveFault::Ended);
        }
        let fed = self.intake.feed(file, piece);
        // The invariant includes that its sightings are numbered.
        sightings_are_numbered(&self.intake);
        match fed {
            Ok(()) => Ok(()),
            Err(fault) => {
                self.ended = Some(Cause::Refused(fault));
                Err(LiveFault::Input(fault))
            }
        }
    }

    /// Checks whether an advance may come, before anything changes.
    fn may_advance(&self, horizon: u64, extension: &Extension) -> Result<(), LiveFault>
        ensures may { OnOk result ((self.now.ended ≡ None) × MayAdvance (standing_of self.now) horizon extension.now) }
        ensures refused { IfErr result (IsRefusal self.now horizon extension.now) }
        ensures early { IfErr result (λ refusal. IfBreach refusal (λ _. ⊥)) }
    {
        if self.ended.is_some() {
            return Err(LiveFault::Ended);
        }
        if is_not_later(self.last, horizon) {
            return Err(LiveFault::Horizon);
        }
        match self.front.placing.fits(extension) {
            Ok(true) => {}
            Ok(false) => return Err(LiveFault::Lane),
            Err(_) => return Err(LiveFault::Memory),
        }
        if is_in_turn(self.last, horizon, extension) {
            Ok(())
        } else {
            Err(LiveFault::OutOfTurn)
        }
    }

    /// Extends the certificate up to a new horizon, and returns the progress. It is refused, in
    /// this order, by G5 after G3, G4 or a refused feed; G1, G6 and G2, which change nothing; G3,
    /// the least breach of the certificate with the extension; and G4.
    ///
    /// It takes n log n time in the extension and the sightings after the last advance.
    pub fn advance(&mut self, horizon: u64, extension: Extension) -> Result<Progress, LiveFault>
        ensures refused { IfErr result (IsRefusal self.old horizon extension) }
        ensures accepted { OnOk result ((self.old.ended ≡ None) × MayAdvance (standing_of self.old) horizon extension × (self.new.last ≡ Some horizon) × (self.new.ended ≡ None)) }
        ensures leaves { IfErr result (Leaves self.old self.new) }
        ensures passes { OnOk result (TakesExtension (taken self.old.intake) (key_for self.old.credentials) self.old.last self.old.front extension self.new.front None) }
        ensures breach { IfErr result (λ refusal. IfBreach refusal (λ breach. TakesExtension (taken self.old.intake) (key_for self.old.credentials) self.old.last self.old.front extension self.new.front (Some breach))) }
        // If accepted, the whole certificate with the extension has no breach; if refused by G3, it
        // has this one.
        ensures advances { OnOk result (Advances (key_for self.old.credentials) (standing_of self.old) horizon extension (standing_of self.new)) }
        ensures shows { IfErr result (λ refusal. IfBreach refusal (λ breach. Shows (key_for self.old.credentials) (standing_of self.old) extension (Some breach))) }
        ensures broken { IfErr result (λ refusal. IfBreach refusal (λ breach.
            LiveBreach (taken self.old.intake) (key_for self.old.credentials) self.new.front.placing.certificate (Some breach))) }
        // The placed part is a prefix of a run that explains the captures.
        ensures prefix { OnOk result (IsPrefix (taken self.new.intake) (rules_for (taken self.new.intake) (key_for self.new.credentials)) self.new.front.placing.certificate horizon) }
        // The progress includes the number of departures that acts sent and that haven't left.
        ensures progress { IfOk result (λ progress. (progress.horizon ≡ horizon)
            × IsProgress (key_for self.new.credentials) (standing_of self.new) horizon progress.placed progress.lanes progress.owed) }
        ensures rest { (self.new.intake ≡ self.old.intake) × (self.new.credentials ≡ self.old.credentials) }
    {
        match self.may_advance(horizon, &extension) {
            Ok(()) => {}
            Err(LiveFault::Memory) => {
                self.ended = Some(Cause::NoMemory);
                return Err(LiveFault::Memory);
            }
            Err(refusal) => return Err(refusal),
        }
        self.ended = Some(Cause::NoMemory);
        match self
            .front
            .take(&self.intake, &self.credentials, self.last, &extension)
        {
            Ok(None) => {
                self.last = Some(horizon);
                self.ended = None;
                Ok(self.front.progress(horizon))
            }
            Ok(Some(breach)) => {
                self.ended = Some(Cause::Broke(breach));
                Err(LiveFault::Breach(breach))
            }
            Err(_) => Err(LiveFault::Memory),
        }
    }

    /// The intake of the captures. Allocates no memory.
    pub fn intake(&self) -> &Intake
        ensures { result.now ≡ self.now.intake }
    {
        &self.intake
    }

    /// The users that it was opened with. Allocates no memory.
    pub fn credentials(&self) -> &Credentials
        ensures { result.now ≡ self.now.credentials }
    {
        &self.credentials
    }

    /// The last horizon. No event up to it will be added. Allocates no memory.
    pub fn last(&self) -> Option<u64>
        ensures { result ≡ self.now.last }
    {
        self.last
    }

    /// The verdict, if the captures end here: the first cause that ended the audit, or else the
    /// fault of the first capture that ends inside a block or has no byte, or else the verdict on
    /// the whole intake by the certificate of all extensions. It reads all of both once.
    pub fn finish(&self) -> Result<Verdict, LiveEnd>
        // The first cause is reported again.
        ensures first_cause { (cause : FirstCause) → self.now.ended ≡ Some cause → result ≡ end_by cause }
        ensures ends { self.now.ended ≡ None → (files : List Fed) → StandsFor self.now.intake files → ChecksTheEnds result files }
        ensures verdict { self.now.ended ≡ None → IfOk result (IsVerdict (taken self.now.intake) (key_for self.now.credentials) self.now.front.placing.certificate) }
        ensures conforming { self.now.ended ≡ None → IfOk result (λ verdict. IsConforming verdict
            ↔ Conforms (taken self.now.intake) (rules_for (taken self.now.intake) (key_for self.now.credentials)) self.now.front.placing.certificate) }
        ensures headline { IfOk result (λ verdict. IsConforming verdict → Headline (taken self.now.intake) (key_for self.now.credentials) self.now.front.placing.certificate) }
    {
        match self.ended {
            Some(Cause::Broke(breach)) => return Ok(Verdict::NotShown(breach)),
            Some(Cause::NoMemory) => return Err(LiveEnd::Memory),
            Some(Cause::Refused(fault)) => return Err(LiveEnd::Input(fault)),
            None => {}
        }
        if let Err(fault) = self.intake.finish() {
            return Err(LiveEnd::Input(fault));
        }
        let certificate = self.front.placing.certificate();
        match check(self.alloc, &self.intake, &self.credentials, certificate) {
            Ok(verdict) => Ok(verdict),
            Err(_) => Err(LiveEnd::Memory),
        }
    }
}
