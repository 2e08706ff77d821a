//! Reads ahead the payloads that the walks over placed events need.

use audit_model::Event;
use audit_sightings::{Intake, ReadsAhead, read_sighting};

/// Reads ahead the sightings of arrivals and departures. Acts name the same sightings.
#[derive(Clone, Copy)]
pub struct Placed<'a> {
    pub intake: &'a Intake,
}

impl ReadsAhead<Event> for Placed<'_> {
    fn read(&self, event: &Event) -> u64 {
        let (Event::In { sight, .. } | Event::Out { sight, .. }) = event else {
            return 0;
        };
        match self.intake.sighting(*sight) {
            Some(sighting) => read_sighting(sighting),
            None => 0,
        }
    }
}
