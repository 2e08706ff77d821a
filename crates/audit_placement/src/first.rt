//! The first place of each sighting, by lane and place.

ghost use Rattle.std.specs.Prelude.{◌≡◌, ◌++◌, ◌∷◌, [], List, IfOk, OnOk, is_some, if◌then◌else◌};
ghost use Rattle.audit_model.specs.declared.sighting.SightId.{SightId};
ghost use Rattle.audit_placement.specs.FirstPlace.{noted, spot_of, is_placed, Notes};
ghost use Rattle.audit_model.specs.Sames.{same_sight};
ghost use Rattle.audit_placement.specs.Entries.{at_of};
ghost use Rattle.audit_placement.specs.declared.entry.Entry.{Entry};

use crate::entry::{Entry, Spot, at_spot};
use crate::table::Table;
use audit_model::{At, Certificate, Event, SightId};
use audit_sightings::Intake;
use std::alloc::{AllocError, Global};
use std::collections::BTreeMap;

/// The first places of an intake's sightings, by interface and index: 12 bytes a sighting.
#[derive(Drop)]
pub struct FirstPlaces {
    places: Table<Spot>,
    /// Those of ids that no sighting has.
    strangers: BTreeMap<SightId, Spot>,
}

impl FirstPlaces {
    /// No sighting is placed yet.
    pub fn new(alloc: Global, intake: &Intake) -> Result<FirstPlaces, AllocError>
        ensures { IfOk result (λ first. (sight : SightId) → spot_of first sight ≡ Spot.Nowhere) }
    {
        let mut places = Table::new(alloc);
        places.grow(alloc, intake, Spot::Nowhere)?;
        Ok(FirstPlaces {
            places,
            strangers: BTreeMap::new(alloc),
        })
    }

    fn spot(&self, sight: SightId) -> Spot
        ensures { result ≡ spot_of self.now sight }
    {
        match self.places.read(sight) {
            Some(spot) => spot,
            None => match self.strangers.get(&sight) {
                Some(spot) => *spot,
                None => Spot::Nowhere,
            },
        }
    }

    /// The first place of the sighting in the certificate.
    pub fn at(&self, certificate: &Certificate, sight: SightId) -> Option<At>
        ensures { result ≡ noted certificate.now self.now sight }
    {
        at_spot(certificate, self.spot(sight))
    }

    /// Notes that the certificate's entry at the spot places the sighting. Returns whether an
    /// earlier entry does.
    fn place(
        &mut self,
        certificate: &Certificate,
        sight: SightId,
        spot: Spot,
    ) -> Result<bool, AllocError>
        ensures found { IfOk result (λ placed. placed ≡ is_some (noted certificate.now self.old sight)) }
        ensures noted { IfOk result (λ placed. (other : SightId) → noted certificate.now self.new other
            ≡ (if placed then noted certificate.now self.old other
            else if same_sight sight other then at_of certificate.now spot else noted certificate.now self.old other)) }
    {
        if self.at(certificate, sight).is_some() {
            return Ok(true);
        }
        if !self.places.write(sight, spot) {
            self.strangers.insert(sight, spot)?;
        }
        Ok(false)
    }

    /// Notes the placement of an entry, as `place` does. Returns false for an act.
    pub fn place_entry(
        &mut self,
        certificate: &Certificate,
        entry: &Entry,
        spot: Spot,
    ) -> Result<bool, AllocError>
        requires { at_of certificate.now spot ≡ Some entry.now.at }
        ensures found { (earlier : List Entry) → Notes certificate.now self.old earlier → IfOk result (λ placed. placed ≡ is_placed earlier entry.now.event) }
        ensures notes { (earlier : List Entry) → Notes certificate.now self.old earlier → OnOk result (Notes certificate.now self.new (earlier ++ entry.now ∷ [])) }
    {
        match entry.event {
            Event::In { sight, .. } | Event::Out { sight, .. } => self.place(
                certificate,
                sight,
                spot,
            ),
            Event::Act { .. } => Ok(false),
        }
    }
}
