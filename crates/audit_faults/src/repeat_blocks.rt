//! Blocks of places that repeat datagrams. A search for the arrival that explains a departure skips
//! a block in one step.

ghost use Rattle.std.specs.Prelude.{◌≡◌, ◌+◌, ◌-◌, ◌<◌, ◌≤◌, ℕ, List, IfOk, IfSome, IsTrue, MatchOption};
ghost use Rattle.audit_model.specs.Window.{later};
ghost use Rattle.audit_sightings.specs.Intake.{Taken, taken};
ghost use Rattle.audit_faults.specs.declared.keyed.Keyed.{Keyed as OneKeyed};
ghost use Rattle.audit_faults.specs.RepeatBlocks.{AreBlocks, AreRepeatedInReach, IsBlock, IsRepeatedSince};
ghost use Rattle.audit_faults.specs.Repeats.{AreRepeats};

use crate::keyed::Keyed;
use crate::repeats::Arrivals;
use audit_model::Sighting;
use audit_sightings::Intake;
use std::alloc::{AllocError, Global};

/// The places from `first` to that at which the block is listed. Each of them repeats a datagram,
/// unless `end` is 0.
#[derive(Clone, Copy)]
pub struct RepeatBlock {
    pub first: u32,
    /// No datagram that they repeat is at an earlier place.
    pub since: u32,
    /// No window of a datagram that they repeat ends earlier.
    pub end: u64,
}

/// The block of one place.
fn block_at(intake: &Intake, places: &[Keyed], repeats: &[Option<u32>], place: u32) -> RepeatBlock
    requires { AreRepeats (taken intake.now) places.now repeats.now }
    ensures { IsBlock (taken intake.now) places.now place result }
{
    let unrepeated = RepeatBlock {
        first: place,
        since: 0,
        end: 0,
    };
    let Some(Some(before)) = repeats.get(place as usize) else {
        return unrepeated;
    };
    let Some(one) = places.get(*before as usize) else {
        return unrepeated;
    };
    let Some(earlier) = intake.sighting(one.sight) else {
        return unrepeated;
    };
    RepeatBlock {
        first: place,
        since: *before,
        end: earlier.hi,
    }
}

/// Joins a block with that of the places just before it.
fn joined(before: RepeatBlock, block: RepeatBlock) -> RepeatBlock
    ensures first { result.first ≡ before.first }
    ensures joined { (taken : Taken) (places : List OneKeyed) (place : ℕ) → 0 < block.first → IsBlock taken places (block.first - 1) before →
        IsBlock taken places place block → IsBlock taken places place result }
{
    RepeatBlock {
        first: before.first,
        since: before.since.min(block.since),
        end: before.end.min(block.end),
    }
}

/// The block that is listed at a place. Its size is the greatest power of two that divides the
/// number of places up to it, so that a search takes logarithmic time.
fn block_of(
    intake: &Intake,
    places: &[Keyed],
    repeats: &[Option<u32>],
    blocks: &[RepeatBlock],
    place: u32,
) -> RepeatBlock
    requires repeats { AreRepeats (taken intake.now) places.now repeats.now }
    requires listed { AreBlocks (taken intake.now) places.now blocks.now }
    ensures { IsBlock (taken intake.now) places.now place result }
{
    let least = place.saturating_add(1) & place;
    let mut block = block_at(intake, places, repeats, place);
    'merges: while least < block.first {
        let Some(before) = blocks.get(block.first as usize - 1) else {
            return block;
        };
        block = joined(*before, block);
    }
    block
}

/// The block of each place. It takes linear time.
pub fn blocks_of(
    alloc: Global,
    intake: &Intake,
    places: &[Keyed],
    repeats: &[Option<u32>],
) -> Result<Vec<RepeatBlock>, AllocError>
    requires { AreRepeats (taken intake.now) places.now repeats.now }
    ensures { IfOk result (λ blocks. AreBlocks (taken intake.now) places.now blocks.items) }
{
    let mut blocks = Vec::with_capacity(alloc, places.len())?;
    'places: for place in 0..places.len() {
        let Ok(number) = u32::try_from(place) else {
            return Ok(blocks);
        };
        let block = block_of(intake, places, repeats, blocks.as_slice(), number);
        blocks.push(block)?;
    }
    Ok(blocks)
}

/// Whether each place of the block repeats a datagram that is at the first place or after it, and
/// in reach of the departure if the place's own datagram is.
fn is_in_reach(hold: u64, block: &RepeatBlock, first: usize, departure: &Sighting) -> bool
    ensures { IsTrue result → (0 < block.now.end) × (first ≤ block.now.since) × (departure.now.lo ≤ later block.now.end hold) }
{
    0 < block.end && first <= block.since as usize && departure.lo <= block.end.saturating_add(hold)
}

/// The last place from the first to before `past` that doesn't repeat one of these places which is
/// in reach of the departure; none if each does. It takes logarithmic time.
pub fn last_unrepeated(
    intake: &Intake,
    arrivals: Arrivals<'_>,
    first: usize,
    past: usize,
    departure: &Sighting,
) -> Option<usize>
    requires repeats { AreRepeats (taken intake.now) arrivals.by_key.places.now arrivals.repeats.now }
    requires listed { AreBlocks (taken intake.now) arrivals.by_key.places.now arrivals.blocks.now }
    ensures place { IfSome result (λ place. (first ≤ place) × (place < past)) }
    ensures others { MatchOption result
        (AreRepeatedInReach (taken intake.now) arrivals.entry.by_key.places.now departure.now first first past)
        (λ place. AreRepeatedInReach (taken intake.now) arrivals.entry.by_key.places.now departure.now first (place + 1) past) }
{
    let hold = intake.policy().hold;
    let mut place = past;
    'skips: while first < place {
        let Some(block) = arrivals.blocks.get(place - 1) else {
            return Some(place - 1);
        };
        if is_in_reach(hold, block, first, departure) {
            place = block.first as usize;
            continue;
        }
        let Ok(number) = u32::try_from(place - 1) else {
            return Some(place - 1);
        };
        let alone = block_at(intake, arrivals.by_key.places, arrivals.repeats, number);
        if !is_in_reach(hold, &alone, first, departure) {
            return Some(place - 1);
        }
        place -= 1;
    }
    None
}
