//! The places of an interface that may be in reach of a departure.

ghost use Rattle.std.specs.Prelude.{◌<◌, ◌≤◌, ◌-◌, List, length, slice_index_or, IfOk};
ghost use Rattle.audit_model.specs.declared.sighting.Sighting.{Sighting};
ghost use Rattle.audit_model.specs.Window.{later};
ghost use Rattle.audit_faults.specs.Reach.{AreLatest, AreEarliest, OutsideIsOut};

use audit_model::Sighting;
use std::alloc::{AllocError, Global};

/// Moments of an interface: none up to a place is later, and none from a place on is earlier.
#[derive(Drop)]
pub struct Extents {
    /// By place, the greatest last moment up to it.
    pub latest: Vec<u64>,
    /// By place from the last one back, the least first moment from it on.
    pub earliest: Vec<u64>,
}

/// Places of an interface, from the first to before `past`.
#[derive(Clone, Copy)]
pub struct Span {
    pub first: usize,
    pub past: usize,
}

/// The greatest last moment up to each place.
fn latest_of(alloc: Global, row: &[Sighting]) -> Result<Vec<u64>, AllocError>
    ensures { IfOk result (λ latest. AreLatest row.now latest.items) }
{
    let mut latest = Vec::with_capacity(alloc, row.len())?;
    let mut greatest = 0;
    'places: for sighting in row {
        greatest = sighting.hi.max(greatest);
        latest.push(greatest)?;
    }
    Ok(latest)
}

/// The least first moment from each place on, from the last place back.
fn earliest_of(alloc: Global, row: &[Sighting]) -> Result<Vec<u64>, AllocError>
    ensures { IfOk result (λ earliest. AreEarliest row.now earliest.items) }
{
    let mut earliest = Vec::with_capacity(alloc, row.len())?;
    let mut least = u64::MAX;
    'places: for from_end in 0..row.len() {
        least = row[row.len() - 1 - from_end].lo.min(least);
        earliest.push(least)?;
    }
    Ok(earliest)
}

/// The moments of an interface. It takes memory for two numbers a sighting.
pub fn extents_of(alloc: Global, row: &[Sighting]) -> Result<Extents, AllocError>
    ensures latest { IfOk result (λ extents. AreLatest row.now extents.latest.items) }
    ensures earliest { IfOk result (λ extents. AreEarliest row.now extents.earliest.items) }
{
    Ok(Extents {
        latest: latest_of(alloc, row)?,
        earliest: earliest_of(alloc, row)?,
    })
}

/// The count of places that are too early for a departure that left no earlier than a moment.
fn too_early(latest: &[u64], hold: u64, moment: u64) -> usize
    ensures bound { result ≤ length latest.now }
    ensures out { 0 < result → later (slice_index_or latest.now (result - 1) 0) hold < moment }
{
    let mut low = 0;
    let mut high = latest.len();
    'halves: while low < high {
        let middle = low + (high - low) / 2;
        if latest[middle].saturating_add(hold) < moment {
            low = middle + 1;
        } else {
            high = middle;
        }
    }
    low
}

/// The count of places, from the last one back, that are too late for a departure that left no
/// later than a moment.
fn too_late(earliest: &[u64], moment: u64) -> usize
    ensures bound { result ≤ length earliest.now }
    ensures out { 0 < result → moment < slice_index_or earliest.now (result - 1) 0 }
{
    let mut low = 0;
    let mut high = earliest.len();
    'halves: while low < high {
        let middle = low + (high - low) / 2;
        if moment < earliest[middle] {
            low = middle + 1;
        } else {
            high = middle;
        }
    }
    low
}

/// The places of an interface outside of which no sighting is in reach of the departure. It takes
/// logarithmic time.
pub fn span_of(extents: &Extents, hold: u64, departure: &Sighting) -> Span
    ensures past { (row : List Sighting) → AreLatest row extents.now.latest.items → result.past ≤ length row }
    ensures out { (row : List Sighting) → AreLatest row extents.now.latest.items → AreEarliest row extents.now.earliest.items →
        OutsideIsOut hold departure.now row result.first result.past }
{
    let late = too_late(&extents.earliest, departure.hi);
    Span {
        first: too_early(&extents.latest, hold, departure.lo),
        past: extents.latest.len().saturating_sub(late),
    }
}
