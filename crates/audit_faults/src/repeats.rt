//! Repeats of arrivals: the same datagram, or the same data in another Send indication, from and to
//! the same addresses.

ghost use Rattle.std.specs.Prelude.{◌≡◌, IfOk, IfSome, IsTrue};
ghost use Rattle.audit_sightings.specs.Intake.{taken};
ghost use Rattle.audit_faults.specs.Repeats.{AreRepeats, AreSame, AreSameSend, IsRepeat, IsRepeated, IsSentAgain};

use crate::keyed::{ByKey, Keyed, digest};
use crate::lease_keys::{address_number, mixed};
use crate::repeat_blocks::RepeatBlock;
use crate::values::{address_in, message_of};
use audit_model::{Policy, Sighting};
use audit_sightings::Intake;
use audit_stun::numbers::attribute::{DATA, XOR_PEER_ADDRESS};
use audit_stun::numbers::method::SEND;
use audit_stun::{Class, channel_data};
use std::alloc::{AllocError, Global};
use std::collections::BTreeMap;

/// The arrivals, by what they request.
#[derive(Clone, Copy)]
pub struct Arrivals<'a> {
    pub by_key: ByKey<'a>,
    /// For each place, the last place before it of the same datagram, if there is one.
    pub repeats: &'a [Option<u32>],
    /// For each place, the block that ends there.
    pub blocks: &'a [RepeatBlock],
    /// The clients with their relayed addresses, as pairs of numbers in both orders.
    pub pairs: &'a [u128],
}

/// Whether two datagrams have the same direction and the same addresses.
fn have_same_path(earlier: &Sighting, later: &Sighting) -> bool
    ensures { IsTrue result → (earlier.now.side ≡ later.now.side) × (earlier.now.from ≡ later.now.from) × (earlier.now.to ≡ later.now.to) }
{
    earlier.side == later.side && earlier.from == later.from && earlier.to == later.to
}

/// Whether they differ by their moments alone.
fn are_same(earlier: &Sighting, later: &Sighting) -> bool
    ensures { IsTrue result → AreSame earlier.now later.now }
{
    have_same_path(earlier, later) && earlier.payload.as_slice() == later.payload.as_slice()
}

/// Whether two payloads are Send indications with the same data for the same peer. Each has a
/// transaction id of its own (RFC 8656, section 11.1).
fn are_same_send(earlier: &[u8], later: &[u8]) -> bool
    ensures { IsTrue result → AreSameSend earlier.now later.now }
{
    let Some(one) = message_of(earlier, Class::Indication, SEND) else {
        return false;
    };
    let Some(other) = message_of(later, Class::Indication, SEND) else {
        return false;
    };
    if channel_data(later).is_some() {
        return false;
    }
    address_in(&one, XOR_PEER_ADDRESS) == address_in(&other, XOR_PEER_ADDRESS)
        && one.first(DATA) == other.first(DATA)
}

/// Whether a client sent the same data to the same peer in another Send indication.
fn is_sent_again(policy: &Policy, earlier: &Sighting, later: &Sighting) -> bool
    ensures { IsTrue result → IsSentAgain policy.now earlier.now later.now }
{
    have_same_path(earlier, later)
        && !policy.relays(later.to)
        && are_same_send(earlier.payload.as_slice(), later.payload.as_slice())
}

/// Whether a datagram repeats another, which may have come before it.
fn is_repeat(policy: &Policy, earlier: &Sighting, later: &Sighting) -> bool
    ensures { IsTrue result → IsRepeat policy.now earlier.now later.now }
{
    earlier.lo <= later.lo && (are_same(earlier, later) || is_sent_again(policy, earlier, later))
}

/// A number for the content of a payload: repeats have the same. The data of a Send indication is
/// already in the key, and so is a peer's datagram.
fn content_number(policy: &Policy, sighting: &Sighting) -> u64 {
    if policy.relays(sighting.to) {
        return 0;
    }
    let payload = sighting.payload.as_slice();
    if let Some(indication) = message_of(payload, Class::Indication, SEND) {
        if let Some(peer) = address_in(&indication, XOR_PEER_ADDRESS) {
            return address_number(peer);
        }
    }
    digest(payload)
}

/// A number for the datagram at a place: repeats of one key have the same.
fn number_at(intake: &Intake, place: &Keyed) -> Option<u64> {
    let sighting = intake.sighting(place.sight)?;
    let ends = mixed(address_number(sighting.from), address_number(sighting.to));
    let content = content_number(intake.policy(), sighting);
    Some(mixed(mixed(place.key, ends), content))
}

/// Returns `before`, if the datagram at this place repeats the one there.
fn repeated(intake: &Intake, places: &[Keyed], before: u32, place: usize) -> Option<u32>
    ensures { IfSome result (λ before. IsRepeated (taken intake.now) places.now before place) }
{
    if place <= before as usize {
        return None;
    }
    let one = places.get(before as usize)?;
    let other = places.get(place)?;
    let earlier = intake.sighting(one.sight)?;
    let later = intake.sighting(other.sight)?;
    if !is_repeat(intake.policy(), earlier, later) {
        return None;
    }
    Some(before)
}

/// The last place before it of the same datagram. `last` has the last place of each number, and
/// gets this one.
fn last_before(
    intake: &Intake,
    places: &[Keyed],
    place: usize,
    last: &mut BTreeMap<u64, u32>,
) -> Result<Option<u32>, AllocError>
    ensures { IfOk result (λ before. IfSome before (λ before. IsRepeated (taken intake.now) places.now before place)) }
{
    let (Some(one), Ok(number)) = (places.get(place), u32::try_from(place)) else {
        return Ok(None);
    };
    let Some(datagram) = number_at(intake, one) else {
        return Ok(None);
    };
    match last.insert(datagram, number)? {
        Some(before) => Ok(repeated(intake, places, before, place)),
        None => Ok(None),
    }
}

/// For each place, the last place before it of the same datagram. It takes n log n time.
pub fn repeats_of(
    alloc: Global,
    intake: &Intake,
    places: &[Keyed],
) -> Result<Vec<Option<u32>>, AllocError>
    ensures { IfOk result (λ repeats. AreRepeats (taken intake.now) places.now repeats.items) }
{
    let mut last = BTreeMap::new(alloc);
    let mut repeats = Vec::new(alloc);
    'places: for place in 0..places.len() {
        let before = last_before(intake, places, place, &mut last)?;
        repeats.push(before)?;
    }
    Ok(repeats)
}
