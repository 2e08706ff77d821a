//! The key at which each sighting is placed, at most once.

ghost use Rattle.std.specs.Prelude.{◌≡◌, Some, None, if◌then◌else◌};
ghost use Rattle.std.specs.Bool.{OnTrue};
ghost use Rattle.audit_model.specs.declared.sighting.SightId.{SightId};
ghost use Rattle.audit_placement.specs.Keys.{key_in, key_at};
ghost use Rattle.audit_model.specs.Sames.{same_sight};

use crate::table::Table;
use audit_model::{Key, SightId};
use audit_sightings::Intake;
use std::alloc::{AllocError, Global};
use std::mem::size_of;

/// The key at which a sighting is placed, in 16 bytes.
#[derive(Clone, Copy, Debug)]
pub enum PlacedKey {
    Nowhere,
    At { tie: u32, moment: u64 },
}

const _: () = prove!(size_of::<PlacedKey>() == 16);

impl PlacedKey {
    fn key(self) -> Option<Key>
        ensures { result ≡ key_in self }
    {
        match self {
            PlacedKey::Nowhere => None,
            PlacedKey::At { tie, moment } => Some(Key { moment, tie }),
        }
    }
}

/// The keys at which an intake's sightings are placed, by interface and index: 16 bytes a sighting.
#[derive(Drop)]
pub struct PlacedKeys {
    keys: Table<PlacedKey>,
}

impl PlacedKeys {
    /// No sighting is placed yet. Allocates no memory.
    pub fn new(alloc: Global) -> PlacedKeys
        ensures { (sight : SightId) → key_at result sight ≡ None }
    {
        PlacedKeys {
            keys: Table::new(alloc),
        }
    }

    /// Reserves memory for the sightings that were added to the intake.
    pub fn grow(&mut self, alloc: Global, intake: &Intake) -> Result<(), AllocError>
        ensures { (sight : SightId) → key_at self.new sight ≡ key_at self.old sight }
    {
        self.keys.grow(alloc, intake, PlacedKey::Nowhere)
    }

    /// The key at which the sighting is placed.
    pub fn key(&self, sight: SightId) -> Option<Key>
        ensures { result ≡ key_at self.now sight }
    {
        self.keys.read(sight)?.key()
    }

    /// Notes the key of a sighting. Returns whether the table has a place for it.
    pub fn place(&mut self, sight: SightId, key: Key) -> bool
        ensures { OnTrue result ((other : SightId) → key_at self.new other ≡ (if same_sight sight other then Some key else key_at self.old other)) }
    {
        let noted = PlacedKey::At {
            tie: key.tie,
            moment: key.moment,
        };
        self.keys.write(sight, noted)
    }
}
