//! Properties of every lane and of every verdict, by the definitions alone. No program calls these.

ghost use Rattle.std.specs.Prelude.{◌↔◌};
ghost use Rattle.audit_lane.specs.Content.{Content};
ghost use Rattle.audit_model.specs.declared.certificate.Certificate.{Certificate};
ghost use Rattle.audit_model.specs.declared.verdict.Verdict.{Verdict};
ghost use Rattle.audit_rules.specs.Keys.{KeyFor};
ghost use Rattle.audit_sightings.specs.Intake.{AreNumbered, Taken};
ghost use Rattle.audit_verdict.specs.Run.{PassesAsRun};
ghost use Rattle.audit_verdict.specs.Verdicts.{IsConforming, IsVerdict};
ghost use Rattle.audit_whole.specs.CaptureRun.{rules_for};
ghost use Rattle.audit_whole.specs.Conforms.{Conforms};

/// If placement passes, a lane passes exactly if it is a run of a server that has its client alone,
/// with the tenancies of that run.
pub fn passed_is_run()
    ensures { (content : Content) → PassesAsRun content }
{}

/// A verdict is that a certificate conforms exactly if it explains the captures by one run of the
/// server.
pub fn conforming()
    ensures { (taken : Taken) (key_for : KeyFor) (certificate : Certificate) (verdict : Verdict) → AreNumbered taken →
        IsVerdict taken key_for certificate verdict → IsConforming verdict ↔ Conforms taken (rules_for taken key_for) certificate }
{}
