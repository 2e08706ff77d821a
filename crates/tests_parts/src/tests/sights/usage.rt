//! A caller whose contracts follow from those of the map.

ghost use Rattle.std.specs.Prelude.{◌≡◌, None, Some, OnOk, OnErr, if◌then◌else◌, false};
ghost use Rattle.audit_model.specs.declared.sighting.SightId.{SightId};
ghost use Rattle.audit_model.specs.Sames.{same_sight};
ghost use Rattle.audit_sights.specs.Found.{found};
ghost use Rattle.tests_parts.specs.declared.tests.sights.usage.Seen.{Seen as Noted};

use audit_model::SightId;
use audit_sights::SightMap;
use std::alloc::AllocError;

#[derive(Clone, Copy, Debug, PartialEq, Eq)]
pub struct Seen {
    pub moment: u64,
    pub acted: bool,
}

/// Notes a sighting that is not noted yet.
pub fn note(map: &mut SightMap<Seen>, sight: SightId, moment: u64) -> Result<(), AllocError>
    ensures first { OnOk result (found map.old sight ≡ None → (other : SightId) → found map.new other ≡ (if same_sight other sight then Some (record { moment = moment; acted = false }) else found map.old other)) }
    ensures again { (seen : Noted) → found map.old sight ≡ Some seen → (other : SightId) → found map.new other ≡ found map.old other }
    ensures err { OnErr result ((other : SightId) → found map.new other ≡ found map.old other) }
{
    if map.get(sight).is_some() {
        return Ok(());
    }
    let seen = Seen {
        moment,
        acted: false,
    };
    map.put(sight, seen)
}
