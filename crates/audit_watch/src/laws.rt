//! What an intake has of all packets. It follows from the definitions alone, and no program calls
//! it.

ghost use Rattle.std.specs.Prelude.{◌≡◌, ◌++◌, ℕ, List};
ghost use Rattle.audit_pcapng.specs.declared.packet.Packet.{Packet};
ghost use Rattle.audit_sightings.specs.Intake.{Taken};
ghost use Rattle.audit_sightings.specs.Sightings.{AreSightings};
ghost use Rattle.audit_machine.specs.Carrying.{base_at};
ghost use Rattle.audit_watch.specs.declared.watch.Watch.{Watch as OneWatch};
ghost use Rattle.audit_watch.specs.Rest.{AreBasesOf};
ghost use Rattle.audit_watch.specs.Watch.{AreAllCaptured, AreCaptured};

/// If an intake has the later packets of each file, and the bases count the sightings of the
/// earlier ones, then what the intake has was captured, and stays so with more packets. Without
/// more, nothing else was captured from the bases on.
pub fn later_packets_are_the_rest()
    ensures captured { (all rest : Taken) (w : OneWatch) (earlier later more : ℕ → List Packet) → all.policy ≡ w.machine.policy → rest.policy ≡ all.policy →
        AreSightings all.policy all.interfaces (λ file. earlier file ++ (later file ++ more file)) → AreSightings rest.policy rest.interfaces later →
        AreBasesOf all.policy earlier (base_at w.bases.items) → AreCaptured all w rest }
    ensures all { (all rest : Taken) (w : OneWatch) (earlier later : ℕ → List Packet) → all.policy ≡ w.machine.policy → rest.policy ≡ all.policy →
        AreSightings all.policy all.interfaces (λ file. earlier file ++ later file) → AreSightings rest.policy rest.interfaces later →
        AreBasesOf all.policy earlier (base_at w.bases.items) → AreAllCaptured all w rest }
{}
