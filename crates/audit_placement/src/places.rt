//! The places of sightings.

ghost use Rattle.std.specs.Prelude.{◌≡◌};
ghost use Rattle.audit_placement.specs.Places.{has_place};

use crate::first::FirstPlaces;
use crate::keys::PlacedKeys;
use audit_model::{Certificate, SightId};

/// The places of sightings.
#[derive(Drop)]
pub enum Places {
    /// Each is placed at most once, at that key.
    Once(PlacedKeys),
    /// Each has that first place. Another entry may place it again.
    First(FirstPlaces),
}

impl Places {
    /// Whether the certificate places the sighting.
    pub fn has(&self, certificate: &Certificate, sight: SightId) -> bool
        ensures { result ≡ has_place certificate.now self.now sight }
    {
        match self {
            Places::Once(keys) => keys.key(sight).is_some(),
            Places::First(first) => first.at(certificate, sight).is_some(),
        }
    }
}
