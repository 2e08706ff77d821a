//! Reads ahead the payloads that the walks over a lane's events need.

use crate::input::LaneEvent;
use audit_model::Event;
use audit_sightings::{Intake, ReadsAhead, read_payload};

/// Reads ahead the arrivals, which may name a user.
#[derive(Clone, Copy)]
pub struct Arrivals<'a> {
    pub intake: &'a Intake,
}

impl ReadsAhead<Event> for Arrivals<'_> {
    fn read(&self, event: &Event) -> u64 {
        let Event::In { sight, .. } = event else {
            return 0;
        };
        match self.intake.sighting(*sight) {
            Some(sighting) => read_payload(sighting),
            None => 0,
        }
    }
}

/// Reads ahead the payloads that acts compare.
#[derive(Clone, Copy)]
pub struct Compared;

impl<'a> ReadsAhead<LaneEvent<'a>> for Compared {
    fn read(&self, event: &LaneEvent<'a>) -> u64 {
        match event {
            LaneEvent::In { sighting, .. } => read_payload(sighting),
            LaneEvent::Act { leaves, .. } => read_payload(leaves),
            // Its act read it before.
            LaneEvent::Out { .. } => 0,
        }
    }
}
