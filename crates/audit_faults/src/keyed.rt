//! Sightings by key, which is a digest of their content, and by first moment.

ghost use Rattle.std.specs.Prelude.{◌≡◌, ◌-◌, ◌+◌, ◌<◌, ◌≤◌, OnOk, Contains, length, slice_index_or};
ghost use Rattle.std.specs.List.Sorted.{IsNonDecreasingBy, IsPermutation};
ghost use Rattle.audit_stun.specs.Parts.{parts_of};
ghost use Rattle.audit_faults.specs.declared.keyed.Keyed.{Keyed as OneKeyed};
ghost use Rattle.audit_faults.specs.Keyed.{digest_of, number_at, number_of, placed_as, HasKeyed, IsNarrow};

use crate::reach::Span;
use audit_model::{SightId, Sighting};
use audit_stun::Message;
use std::alloc::AllocError;
use std::hash::{DefaultHasher, Hasher};

/// A place in an index: the id of a sighting, with its key and its first moment.
#[derive(Clone, Copy)]
pub struct Keyed {
    pub key: u64,
    pub moment: u64,
    pub sight: SightId,
}

/// Places, sorted by their keys and moments, and the width of the widest window.
#[derive(Drop)]
pub struct KeyedList {
    pub places: Vec<Keyed>,
    pub width: u64,
}

/// A view of such a list for look-ups.
#[derive(Clone, Copy)]
pub struct ByKey<'a> {
    pub places: &'a [Keyed],
    pub width: u64,
}

impl KeyedList {
    pub fn by_key(&self) -> ByKey<'_>
        ensures places { result.places.now ≡ self.now.places.items }
        ensures width { result.width ≡ self.now.width }
    {
        ByKey {
            places: self.places.as_slice(),
            width: self.width,
        }
    }
}

/// A digest by which equal bytes are found. Others may have the same, which only costs time.
pub fn digest(bytes: &[u8]) -> u64
    ensures { result ≡ digest_of bytes.now }
{
    let mut hasher = DefaultHasher::new();
    hasher.write(bytes);
    hasher.finish()
}

/// The key of a message's transaction id.
pub fn transaction_key(said: &Message<'_>) -> u64
    ensures { result ≡ digest_of (parts_of said.now).tid }
{
    digest(&said.tid())
}

/// The greater of a width and that of the sighting's window.
pub fn wider(width: u64, sighting: &Sighting) -> u64
    ensures kept { width ≤ result }
    ensures narrow { IsNarrow result sighting.now }
{
    sighting.hi.saturating_sub(sighting.lo).max(width)
}

/// Adds a place.
pub fn add_key(key: u64, sighting: &Sighting, keyed: &mut Vec<Keyed>) -> Result<(), AllocError>
    ensures here { OnOk result (Contains keyed.new.items (placed_as key sighting.now.id sighting.now)) }
    ensures kept { OnOk result ((one : OneKeyed) → Contains keyed.old.items one → Contains keyed.new.items one) }
{
    keyed.push(Keyed {
        key,
        moment: sighting.lo,
        sight: sighting.id,
    })?;
    Ok(())
}

/// The number by which places are sorted.
pub fn number(key: u64, moment: u64) -> u128
    ensures { result ≡ number_at key moment }
{
    u128::from(key) * 18_446_744_073_709_551_616 + u128::from(moment)
}

/// Sorts places by their keys, and by their moments. It takes n log n time.
pub fn sort_keyed(keyed: &mut Vec<Keyed>) -> Result<(), AllocError>
    ensures permuted { OnOk result (IsPermutation keyed.old.items keyed.new.items) }
    ensures sorted { OnOk result (IsNonDecreasingBy number_of keyed.new.items) }
{
    keyed.sort_by_key(|one| number(one.key, one.moment))?;
    Ok(())
}

/// The count of places below a number.
fn places_below(keyed: &[Keyed], bound: u128) -> usize
    ensures bound { result ≤ length keyed.now }
    ensures below { (one : OneKeyed) → 0 < result → number_of (slice_index_or keyed.now (result - 1) one) < bound }
{
    let mut low = 0;
    let mut high = keyed.len();
    'halves: while low < high {
        let middle = low + (high - low) / 2;
        if number(keyed[middle].key, keyed[middle].moment) < bound {
            low = middle + 1;
        } else {
            high = middle;
        }
    }
    low
}

/// The count of places up to a number.
fn places_through(keyed: &[Keyed], bound: u128) -> usize
    ensures bound { result ≤ length keyed.now }
    ensures above { (one : OneKeyed) → result < length keyed.now → bound < number_of (slice_index_or keyed.now result one) }
{
    let mut low = 0;
    let mut high = keyed.len();
    'halves: while low < high {
        let middle = low + (high - low) / 2;
        if number(keyed[middle].key, keyed[middle].moment) <= bound {
            low = middle + 1;
        } else {
            high = middle;
        }
    }
    low
}

/// The places of a key, with moments in a range. It takes logarithmic time.
pub fn span_of_key(keyed: &[Keyed], key: u64, low: u64, high: u64) -> Span
    ensures past { result.past ≤ length keyed.now }
    ensures has { IsNonDecreasingBy number_of keyed.now → HasKeyed keyed.now key low high result.first result.past }
{
    Span {
        first: places_below(keyed, number(key, low)),
        past: places_through(keyed, number(key, high)),
    }
}
