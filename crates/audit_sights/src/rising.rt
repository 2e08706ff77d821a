//! Values by index, in a list whose indices rise.

ghost use Rattle.std.specs.Prelude.{◌≡◌, ◌<◌, ◌≤◌, ◌+◌, ◌*◌, ℕ, [], Some, None, if◌then◌else◌, length, nat_eq, ◌↔◌, IsTrue, IfOk, OnErr, MatchOption};
ghost use Rattle.std.specs.Bool.{OnTrue, OnFalse};
ghost use Rattle.audit_sights.specs.Pairs.{value_at, index_at, Rises, IsWithin, IsAt, IsNowhere, IsPast};

use std::alloc::{AllocError, Global};
use std::marker::Model;

/// A place before which no pair has the index. It takes a step for each doubling of the pairs from
/// there on.
fn start<V: Copy>(pairs: &[(u32, V)], index: u32) -> usize
    requires some { 0 < length pairs.now }
    requires rises { Rises pairs.now }
    ensures bound { result < length pairs.now }
    ensures within { IsWithin pairs.now index result (length pairs.now) }
{
    let len = pairs.len();
    let mut back = 1;
    'doubling: while back < len {
        let low = len - back;
        if pairs[low].0 <= index {
            return low;
        }
        back = back.saturating_mul(2);
    }
    0
}

/// The last of four places, a quarter apart from `low` on, that is `low` or has no index above this
/// one. It has no branch, since a processor could not predict it.
fn quarters_on<V: Copy>(pairs: &[(u32, V)], index: u32, low: usize, quarter: usize) -> usize
    requires some { 0 < quarter }
    requires bound { low + 3 * quarter < length pairs.now }
    requires rises { Rises pairs.now }
    ensures from { low ≤ result }
    ensures to { result ≤ low + 3 * quarter }
    ensures here { low < result → index_at pairs.now result ≤ index }
    ensures next { result < low + 3 * quarter → index < index_at pairs.now (result + quarter) }
{
    let first = usize::from(pairs[low + quarter].0 <= index);
    let second = usize::from(pairs[low + 2 * quarter].0 <= index);
    let third = usize::from(pairs[low + 3 * quarter].0 <= index);
    low + quarter * (first + second + third)
}

/// The one place of `size` from `start` on at which a pair may have the index.
fn place_within<V: Copy>(pairs: &[(u32, V)], index: u32, start: usize, size: usize) -> usize
    requires some { 0 < size }
    requires bound { start + size ≤ length pairs.now }
    requires rises { Rises pairs.now }
    requires within { IsWithin pairs.now index start (start + size) }
    ensures bound { result < length pairs.now }
    ensures within { IsWithin pairs.now index result (result + 1) }
{
    let mut low = start;
    let mut size = size;
    'halving: while size > 1 {
        let half = size / 2;
        let middle = low + half;
        if pairs[middle].0 <= index {
            low = middle;
        }
        size -= half;
    }
    low
}

/// The one place from `start` on at which a pair may have the index.
fn place_from<V: Copy>(pairs: &[(u32, V)], index: u32, start: usize) -> usize
    requires bound { start < length pairs.now }
    requires rises { Rises pairs.now }
    requires within { IsWithin pairs.now index start (length pairs.now) }
    ensures bound { result < length pairs.now }
    ensures within { IsWithin pairs.now index result (result + 1) }
{
    let mut low = start;
    let mut size = pairs.len() - start;
    'quartering: while size > 3 {
        let quarter = size / 4;
        low = quarters_on(pairs, index, low, quarter);
        size -= 3 * quarter;
    }
    place_within(pairs, index, low, size)
}

/// The place of the pair with the index. It takes logarithmic time in the number of pairs from
/// there on.
fn find<V: Copy>(pairs: &[(u32, V)], index: u32) -> Option<usize>
    requires { Rises pairs.now }
    ensures { MatchOption result (IsNowhere pairs.now index) (IsAt pairs.now index) }
{
    if pairs.is_empty() {
        return None;
    }
    let place = place_from(pairs, index, start(pairs, index));
    if pairs[place].0 == index {
        Some(place)
    } else {
        None
    }
}

/// Whether the index is past the last.
fn is_past<V: Copy>(pairs: &[(u32, V)], index: u32) -> bool
    requires { Rises pairs.now }
    ensures { IsTrue result ↔ IsPast pairs.now index }
{
    let len = pairs.len();
    if len == 0 {
        return true;
    }
    pairs[len - 1].0 < index
}

/// Values by index, in a list of pairs whose indices rise, which contracts see.
#[derive(Drop)]
pub struct Rising<V> {
    pairs: Vec<(u32, V)>,
}

impl<V> Model for Rising<V> {
    ghost use Rattle.std.specs.Prelude.{List, ℕ};
    ghost use Rattle.audit_sights.specs.Pairs.{Rises};

    ghost Value = { List (ℕ × V) };

    ghost view = { λ rising. rising.pairs.items };

    ghost invariant = { λ rising. Rises rising.pairs.items };
}

impl<V: Copy> Rising<V> {
    /// No values. Allocates no memory.
    pub fn new(alloc: Global) -> Self
        ensures { result ≡ [] }
    {
        Rising {
            pairs: Vec::new(alloc),
        }
    }

    /// The value at the index. It takes logarithmic time in the number of pairs from there on.
    pub fn get(&self, index: u32) -> Option<V>
        ensures { result ≡ value_at self.now index }
    {
        let pairs = self.pairs.as_slice();
        match find(pairs, index) {
            Some(place) => Some(pairs[place].1),
            None => None,
        }
    }

    /// Sets the value at an index that is there or past the last. Returns whether it is. If memory
    /// is refused, nothing changes. It takes the time of `get`.
    pub fn put(&mut self, index: u32, value: V) -> Result<bool, AllocError>
        ensures set { IfOk result (λ is_set. OnTrue is_set ((q : ℕ) → value_at self.new q ≡ (if nat_eq q index then Some value else value_at self.old q))) }
        ensures absent { IfOk result (λ is_set. OnFalse is_set (value_at self.old index ≡ None)) }
        ensures same { IfOk result (λ is_set. OnFalse is_set (self.new ≡ self.old)) }
        ensures err { OnErr result (self.new ≡ self.old) }
    {
        if is_past(&self.pairs, index) {
            self.pairs.push((index, value))?;
            return Ok(true);
        }
        match find(&self.pairs, index) {
            Some(place) => {
                self.pairs[place] = (index, value);
                Ok(true)
            }
            None => Ok(false),
        }
    }
}
