//! The fault that captures show of a departure.

ghost use Rattle.std.specs.Prelude.{◌≡◌, ◌≢◌, List, None, IfSome};
ghost use Rattle.audit_model.specs.declared.certificate.Certificate.{Certificate};
ghost use Rattle.audit_rules.specs.Keys.{KeyFor};
ghost use Rattle.audit_sightings.specs.Intake.{taken};
ghost use Rattle.audit_server.specs.Step.{Step};
ghost use Rattle.audit_whole.specs.CaptureRun.{rules_for, IsCaptureRun};
ghost use Rattle.audit_whole.specs.Conforms.{Conforms};
ghost use Rattle.audit_faults.specs.declared.fault.Fault.{Fault};
ghost use Rattle.audit_faults.specs.declared.fault.Fault.TheVariants as faults;
ghost use Rattle.audit_keys.specs.KeyFor.{key_for};
ghost use Rattle.audit_faults.specs.Explains.{IsFault, NoneBefore};

use crate::fault::Fault;
use crate::first_fault::first_fault;
use crate::index::Index;
use crate::laws::{fault_excludes, faults_of_any_users};
use audit_keys::Credentials;
use audit_model::SightId;
use audit_sightings::Intake;

/// The first fault that the captures show of a departure. It reads all sightings several times, and
/// allocates no memory.
pub fn shown_fault(intake: &Intake, credentials: &Credentials, sight: SightId) -> Option<Fault>
    // No captured datagram explains the departure.
    ensures shown { IfSome result (λ fault. IsFault (taken intake.now) (key_for credentials.now) fault sight) }
    // It is the first of the faults that the departure shows.
    ensures first { IfSome result (NoneBefore (λ earlier. IsFault (taken intake.now) (key_for credentials.now) earlier sight)) }
    // So no list of moves is a run of the server that explains the captures,
    ensures no_run { IfSome result (λ fault. (steps : List Step) →
        IsCaptureRun (taken intake.now) (rules_for (taken intake.now) (key_for credentials.now)) steps → ⊥) }
    // and no certificate conforms.
    ensures no_certificate { IfSome result (λ fault. (certificate : Certificate) →
        Conforms (taken intake.now) (rules_for (taken intake.now) (key_for credentials.now)) certificate → ⊥) }
    // Except for an unauthentic request, that is so whoever the users are.
    ensures whoever { IfSome result (λ fault. fault ≢ faults.Unauthentic → (users : KeyFor) (steps : List Step) →
        IsCaptureRun (taken intake.now) (rules_for (taken intake.now) users) steps → ⊥) }
    // It misses none of these faults.
    ensures none { result ≡ None → (fault : Fault) → IsFault (taken intake.now) (key_for credentials.now) fault sight → ⊥ }
{
    fault_excludes();
    faults_of_any_users();
    let everywhere = Index {
        extents: &[],
        leases: None,
        arrivals: None,
    };
    first_fault(intake, &everywhere, credentials, sight)
}
