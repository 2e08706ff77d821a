//! The events of the passes, in the order of their keys.

use audit_model::{Event, Key};
use audit_search::{Act, Reading, Round};
use audit_seen::{LaneNumber, SeenNumber, Sights, Slot};
use audit_walk::Portion;
use std::alloc::{AllocError, Global};

/// The events so far.
#[derive(Drop)]
struct Writing<'a> {
    sights: &'a Sights,
    round: &'a Round,
    /// How many acts are written.
    written: usize,
    /// The key of the next event.
    key: Key,
    /// The lane that acts on each arrival.
    acted: Vec<Option<LaneNumber>>,
    portion: Portion,
}

/// The events of a round: at each moment in the order of the sightings, with the acts right before
/// and after these.
pub(crate) fn written(
    alloc: Global,
    reading: &Reading<'_>,
    round: &Round,
) -> Result<Portion, AllocError> {
    let mut writing = Writing {
        sights: reading.sights(),
        round,
        written: 0,
        key: Key { moment: 0, tie: 0 },
        acted: acted(alloc, reading, round)?,
        portion: Portion::new(alloc),
    };
    for number in round.placed().in_order() {
        writing.write(*number)?;
    }
    Ok(writing.portion)
}

/// The lane that acts on each arrival; if two do, the one whose act comes first.
fn acted(
    alloc: Global,
    reading: &Reading<'_>,
    round: &Round,
) -> Result<Vec<Option<LaneNumber>>, AllocError> {
    let count = reading.sights().as_slice().len();
    let mut acted: Vec<Option<LaneNumber>> = vec![in alloc; None; count]?;
    for act in round.acts() {
        if let Some(place) = acted.get_mut(act.arrival().index()) {
            if place.is_none() {
                *place = Some(act.lane());
            }
        }
    }
    Ok(acted)
}

impl Writing<'_> {
    /// Writes a sighting, and the acts right before it and right after it.
    fn write(&mut self, number: SeenNumber) -> Result<(), AllocError> {
        let round = self.round;
        self.go_to(round.placed().at(number));
        let rank = round.placed().rank(number);
        self.write_acts(Slot::own(rank))?;
        self.write_own(number)?;
        self.write_acts(Slot::first(rank.saturating_add(1)))
    }

    /// Advances to a moment, unless it is past.
    fn go_to(&mut self, moment: u64) {
        if moment > self.key.moment {
            self.key = Key { moment, tie: 0 };
        }
    }

    /// The key of the next event.
    fn tick(&mut self) -> Key {
        let key = self.key;
        self.key.tie = key.tie.saturating_add(1);
        key
    }

    /// Writes the acts before a slot.
    fn write_acts(&mut self, before: Slot) -> Result<(), AllocError> {
        let round = self.round;
        for act in round.acts().get(self.written..).unwrap_or(&[]) {
            if act.slot() >= before {
                return Ok(());
            }
            self.written = self.written.saturating_add(1);
            self.write_act(act)?;
        }
        Ok(())
    }

    fn write_act(&mut self, act: &Act) -> Result<(), AllocError> {
        let sights = self.sights;
        let seen = (sights.get(act.arrival()), sights.get(act.departure()));
        if let (Some(arrives), Some(leaves)) = seen {
            let (sight, gives) = (arrives.id(), leaves.id());
            let key = self.tick();
            let event = Event::Act { sight, gives, key };
            self.portion.push(act.lane(), event)?;
        }
        Ok(())
    }

    /// Writes a sighting: in the lane that acts on it, or as a drop, or as it leaves.
    fn write_own(&mut self, number: SeenNumber) -> Result<(), AllocError> {
        let sights = self.sights;
        let Some(seen) = sights.get(number) else {
            return Ok(());
        };
        let sight = seen.id();
        if seen.arrives() {
            let lane = self.acted.get(number.index()).copied().flatten();
            let key = self.tick();
            return match lane {
                Some(lane) => self.portion.push(lane, Event::In { sight, key }),
                None => self.portion.push_drop(sight, key),
            };
        }
        let round = self.round;
        let relayed = round.relayed().as_slice().get(number.index());
        if let Some(lane) = seen.lane().or(relayed.copied().flatten()) {
            let key = self.tick();
            let event = Event::Out { sight, key };
            self.portion.push(lane, event)?;
        }
        Ok(())
    }
}
