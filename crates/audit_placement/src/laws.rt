//! Consequences of the definitions of placement.

ghost use Rattle.std.specs.Prelude.{◌≡◌, ◌↔◌, [], Some};
ghost use Rattle.audit_model.specs.declared.certificate.Certificate.{Certificate};
ghost use Rattle.audit_model.specs.declared.event.At.{At};
ghost use Rattle.audit_model.specs.declared.sighting.SightId.{SightId};
ghost use Rattle.audit_model.specs.declared.verdict.Breach.{Breach};
ghost use Rattle.audit_sightings.specs.Intake.{Taken};
ghost use Rattle.audit_placement.specs.Among.{IsFirst, ShowsAmong};
ghost use Rattle.audit_placement.specs.Entries.{entries};
ghost use Rattle.audit_placement.specs.FirstPlace.{first_place};
ghost use Rattle.audit_placement.specs.Shows.{ShowsFrom};

/// The entries of a certificate are ordered by lane and place: which one is first, and which one is
/// earlier, depends on lane and place alone. So the order in which the entries are read doesn't
/// matter.
pub fn by_lane_and_place()
    ensures first { (certificate : Certificate) (sight : SightId) (at : At) →
        (first_place (entries certificate) sight ≡ Some at) ↔ IsFirst (entries certificate) sight at }
    ensures shown { (taken : Taken) (certificate : Certificate) (breach : Breach) →
        ShowsFrom taken [] (entries certificate) breach ↔ ShowsAmong taken (entries certificate) breach }
{}
