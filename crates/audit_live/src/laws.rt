//! Properties of the steps of a lane, by the definitions alone. No program calls these.

ghost use Rattle.std.specs.Prelude.{◌<◌, ℕ, List, Option, None, Some, IfSome};
ghost use Rattle.audit_lane.specs.Content.{Happening};
ghost use Rattle.audit_lane.specs.Kept.{Kept};
ghost use Rattle.audit_model.specs.declared.certificate.Certificate.{Certificate};
ghost use Rattle.audit_model.specs.declared.extension.Extension.{Extension};
ghost use Rattle.audit_model.specs.declared.pair.Pair.{Pair};
ghost use Rattle.audit_model.specs.declared.verdict.Breach.{Breach};
ghost use Rattle.audit_order.specs.Grown.{Fits};
ghost use Rattle.audit_prefix.specs.Advance.{OfMoments};
ghost use Rattle.audit_prefix.specs.Breaches.{LiveBreach};
ghost use Rattle.audit_prefix.specs.Walk.{Memory};
ghost use Rattle.audit_rules.specs.declared.credentials.CredRow.{CredRow};
ghost use Rattle.audit_rules.specs.Keys.{KeyFor};
ghost use Rattle.audit_sightings.specs.Intake.{Taken, taken as taken_of};
ghost use Rattle.audit_live.specs.declared.front.Front.{Front};
ghost use Rattle.audit_live.specs.Knows.{Knows, TakesExtension};
ghost use Rattle.audit_live.specs.Remembered.{GoesOnAsWalk, StopsAsWalk};

use audit_sightings::Intake;
use audit_sightings::laws::sightings_are_bounded;

/// If an event is right by the row of its user, the walk of the lane by all credentials continues
/// with it, and the lane's state stays equal to the walk's.
pub fn steps_are_remembered()
    ensures { (taken : Taken) (key_for : KeyFor) (pair : Pair) (number place : ℕ) (event : Happening) (rows : List CredRow) (old new : Kept) (m : Memory) →
        GoesOnAsWalk taken key_for pair number place event rows old new m }
{}

/// The breach that an event shows by the row of its user is of the first rule that the walk of the
/// lane breaks there by all credentials.
pub fn breaches_are_those_of_the_walk()
    ensures { (taken : Taken) (key_for : KeyFor) (pair : Pair) (number place : ℕ) (event : Happening) (rows : List CredRow) (old : Kept) (m : Memory) (breach : Breach) →
        StopsAsWalk taken key_for pair number place event rows old m breach }
{}

/// If the extension of a turn fits and comes past the last horizon, the turn's breach is that of
/// the whole certificate with the extension.
pub fn turns_report_the_breach_of_the_whole()
    ensures { (taken : Taken) (key_for : KeyFor) (last : Option ℕ) (old new : Front) (extension : Extension) (found : Option Breach) →
        Knows taken key_for last old → Fits old.placing.certificate extension → OfMoments (λ moment. IfSome last (λ before. before < moment)) extension →
        TakesExtension taken key_for last old extension new found → LiveBreach taken key_for new.placing.certificate found }
{}

/// If a certificate over an intake has no breach, no breach is one by the same definitions. So an
/// advance is refused by G3 exactly if there is one.
pub fn a_breach_is_reported_or_none(intake: &Intake)
    ensures { (key_for : KeyFor) (certificate : Certificate) (breach : Breach) →
        LiveBreach (taken_of intake.now) key_for certificate None → LiveBreach (taken_of intake.now) key_for certificate (Some breach) → ⊥ }
{
    sightings_are_bounded(intake);
}
