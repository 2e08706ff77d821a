//! Sightings of one lane on which the search of another lane depends, too.

use audit_known::{Handover, Known, Matches};
use audit_seen::{LaneNumber, SeenNumber};
use std::alloc::{AllocError, Global};

/// Sightings of one lane on which the search of another lane depends, too.
#[derive(Drop)]
pub struct Shared {
    list: Vec<(SeenNumber, LaneNumber)>,
}

impl Shared {
    /// The sightings of addresses that are handed over.
    pub fn of(
        alloc: Global,
        known: &Known<'_>,
        handovers: &[Handover],
        matches: &Matches,
    ) -> Result<Shared, AllocError> {
        let mut list = Vec::new(alloc);
        for handover in handovers {
            list.push((handover.next(), handover.from()))?;
            let to = known
                .sights()
                .get(handover.next())
                .and_then(|seen| seen.lane());
            if let (Some(to), Some(ender)) = (to, handover.ender()) {
                list.push((ender, to))?;
                if let Some(request) = matches.of(ender) {
                    list.push((request, to))?;
                }
            }
        }
        list.sort_unstable();
        Ok(Shared { list })
    }

    /// The lanes that depend on a sighting, in addition to its own lane.
    pub fn of_sighting(&self, number: SeenNumber) -> &[(SeenNumber, LaneNumber)] {
        let start = self.list.partition_point(|one| one.0 < number);
        let rest = self.list.get(start..).unwrap_or(&[]);
        let count = rest.partition_point(|one| one.0 <= number);
        rest.get(..count).unwrap_or(&[])
    }
}
