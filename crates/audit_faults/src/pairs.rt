//! Clients and the relayed addresses that they were granted, as pairs of numbers. Each of a pair is
//! a partner of the other.

ghost use Rattle.std.specs.Prelude.{◌≡◌, ◌-◌, ◌<◌, ◌≤◌, ℕ, Contains, IfOk, MatchOption, OnOk, Some, length, slice_index_or};
ghost use Rattle.std.specs.List.Sorted.{IsNonDecreasingBy};
ghost use Rattle.audit_model.specs.declared.address.Addr.{Addr as OneAddr};
ghost use Rattle.audit_model.specs.declared.sighting.Sighting.{Sighting as OneSighting};
ghost use Rattle.audit_sightings.specs.Intake.{taken, sighting_at};
ghost use Rattle.audit_faults.specs.declared.keyed.Keyed.{Keyed as OneKeyed};
ghost use Rattle.audit_faults.specs.Keyed.{number_at};
ghost use Rattle.audit_faults.specs.Leased.{AreAnswers, beginning_key as key_of_beginning};
ghost use Rattle.audit_faults.specs.Pairs.{Allocates, ArePaired, ArePairs};

use crate::keyed::{ByKey, Keyed, number};
use crate::lease_keys::{address_number, beginning_key};
use crate::values::{address_in, message_of};
use audit_model::{Addr, Side};
use audit_sightings::Intake;
use audit_stun::Class;
use audit_stun::numbers::attribute::XOR_RELAYED_ADDRESS;
use audit_stun::numbers::method::ALLOCATE;
use std::alloc::{AllocError, Global};

/// Adds a pair, in both orders.
fn add_pair(client: Addr, relayed: Addr, pairs: &mut Vec<u128>) -> Result<(), AllocError>
    ensures here { OnOk result (ArePaired pairs.new.items client relayed) }
    ensures kept { OnOk result ((pair : ℕ) → Contains pairs.old.items pair → Contains pairs.new.items pair) }
{
    let one = address_number(client);
    let other = address_number(relayed);
    pairs.push(number(one, other))?;
    pairs.push(number(other, one))?;
    Ok(())
}

/// Adds the pair of an Allocate success response, at its place by its client.
fn add_at(intake: &Intake, place: &Keyed, pairs: &mut Vec<u128>) -> Result<(), AllocError>
    ensures here { OnOk result ((success : OneSighting) → sighting_at (taken intake.now) place.now.sight ≡ Some success → place.now.key ≡ key_of_beginning success.to →
        (client relayed : OneAddr) → Allocates client relayed success → ArePaired pairs.new.items client relayed) }
    ensures kept { OnOk result ((pair : ℕ) → Contains pairs.old.items pair → Contains pairs.new.items pair) }
{
    let Some(success) = intake.sighting(place.sight) else {
        return Ok(());
    };
    if place.key != beginning_key(success.to) || success.side != Side::Leaves {
        return Ok(());
    }
    let payload = success.payload.as_slice();
    let Some(said) = message_of(payload, Class::Success, ALLOCATE) else {
        return Ok(());
    };
    let Some(relayed) = address_in(&said, XOR_RELAYED_ADDRESS) else {
        return Ok(());
    };
    add_pair(success.to, relayed, pairs)?;
    Ok(())
}

/// Adds the pairs of all Allocate success responses.
fn add_all(intake: &Intake, answers: ByKey<'_>, pairs: &mut Vec<u128>) -> Result<(), AllocError>
    ensures { OnOk result ((k : ℕ) (one : OneKeyed) → k < length answers.entry.places.now → slice_index_or answers.entry.places.now k one ≡ one →
        (success : OneSighting) → sighting_at (taken intake.now) one.sight ≡ Some success → one.key ≡ key_of_beginning success.to →
        (client relayed : OneAddr) → Allocates client relayed success → ArePaired pairs.new.items client relayed) }
{
    'places: for place in 0..answers.places.len() {
        add_at(intake, &answers.places[place], pairs)?;
    }
    Ok(())
}

/// For each Allocate success response its client and its relayed address, in both orders. It takes
/// n log n time.
pub fn pairs_of(alloc: Global, intake: &Intake, answers: ByKey<'_>) -> Result<Vec<u128>, AllocError>
    requires { AreAnswers (taken intake.now) answers }
    ensures { IfOk result (λ pairs. ArePairs (taken intake.now) pairs.items) }
{
    let mut pairs = Vec::new(alloc);
    add_all(intake, answers, &mut pairs)?;
    pairs.sort_by_key(|pair| *pair)?;
    Ok(pairs)
}

/// The count of pairs below a number.
fn pairs_below(pairs: &[u128], bound: u128) -> usize
    ensures bound { result ≤ length pairs.now }
    ensures below { 0 < result → slice_index_or pairs.now (result - 1) 0 < bound }
    ensures above { result < length pairs.now → bound ≤ slice_index_or pairs.now result 0 }
{
    let mut low = 0;
    let mut high = pairs.len();
    'halves: while low < high {
        let middle = low + (high - low) / 2;
        if pairs[middle] < bound {
            low = middle + 1;
        } else {
            high = middle;
        }
    }
    low
}

/// The least partner of the holder from `least` on. It takes logarithmic time.
pub fn next_partner(pairs: &[u128], holder: u64, least: u64) -> Option<u64>
    requires { IsNonDecreasingBy (λ (pair : ℕ). pair) pairs.now }
    ensures { MatchOption result
        ((other : ℕ) → least ≤ other → other ≤ 18446744073709551615 → Contains pairs.now (number_at holder other) → ⊥)
        (λ partner. (other : ℕ) → least ≤ other → other < partner → Contains pairs.now (number_at holder other) → ⊥) }
{
    let found = *pairs.get(pairs_below(pairs, number(holder, least)))?;
    let partner = found.saturating_sub(number(holder, 0));
    u64::try_from(partner).ok()
}
