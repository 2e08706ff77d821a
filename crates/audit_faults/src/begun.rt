//! Whether a client whose datagram may have caused a departure was ever granted the leases that it
//! needs, searched among the arrivals with the departure's key.

ghost use Rattle.std.specs.Prelude.{◌≡◌, ◌↔◌, ℕ, IsFalse, IsTrue, Some};
ghost use Rattle.audit_model.specs.declared.sighting.Sighting.{Sighting};
ghost use Rattle.audit_sightings.specs.Intake.{taken, sighting_at};
ghost use Rattle.audit_faults.specs.ArrivalKeys.{HasOwnedKey, IsArrivalBy, IsOwnedBy};
ghost use Rattle.audit_faults.specs.Beginning.{Begins, WasBegun};
ghost use Rattle.audit_faults.specs.Grants.{IsCaptured};
ghost use Rattle.audit_faults.specs.Index.{AreArrivals, IsIndex};
ghost use Rattle.audit_faults.specs.Leased.{address_number as number_of_address};
ghost use Rattle.audit_faults.specs.Pairs.{HasPartner, IsPartnerFor};
ghost use Rattle.audit_faults.specs.Repeats.{IsPlaced};

use crate::beginning::begins;
use crate::cause_keys::owned_key;
use crate::departure_keys::{
    key_of_any_peer, key_of_channel_data, key_of_named_peer, key_of_sends,
};
use crate::fault::Fault;
use crate::index::Index;
use crate::keyed::span_of_key;
use crate::lease_keys::address_number;
use crate::pairs::next_partner;
use crate::reach::Span;
use crate::repeat_blocks::last_unrepeated;
use crate::repeats::Arrivals;
use crate::sought::{count_in_reach, earliest};
use audit_model::{Addr, SightId, Sighting};
use audit_sightings::Intake;

/// Whether the sighting of that id may have caused the departure, for a client that was granted the
/// leases by then.
fn begins_at(
    intake: &Intake,
    index: &Index<'_>,
    fault: Fault,
    always: &Sighting,
    left: &Sighting,
    sight: SightId,
    departure: &Sighting,
) -> bool
    requires index { IsIndex (taken intake.now) index.now }
    requires always { always.now.lo ≡ 0 }
    ensures { IsTrue result ↔ ((arrival : Sighting) × (sighting_at (taken intake.now) sight ≡ Some arrival)
        × Begins (taken intake.now) fault left.now.hi departure.now arrival) }
{
    let Some(arrival) = intake.sighting(sight) else {
        return false;
    };
    begins(intake, index, fault, always, left, arrival, departure)
}

/// Whether the sighting at a place did.
fn begins_from(
    intake: &Intake,
    arrivals: Arrivals<'_>,
    index: &Index<'_>,
    fault: Fault,
    always: &Sighting,
    left: &Sighting,
    place: usize,
    departure: &Sighting,
) -> bool
    requires index { IsIndex (taken intake.now) index.now }
    requires always { always.now.lo ≡ 0 }
    ensures some { IsTrue result → ((arrival : Sighting) × IsCaptured (taken intake.now) arrival
        × Begins (taken intake.now) fault left.now.hi departure.now arrival) }
    ensures none { IsFalse result → (arrival : Sighting) → IsPlaced (taken intake.now) arrivals.entry.by_key.places.now place arrival →
        Begins (taken intake.now) fault left.now.hi departure.now arrival → ⊥ }
{
    let Some(one) = arrivals.by_key.places.get(place) else {
        return false;
    };
    begins_at(intake, index, fault, always, left, one.sight, departure)
}

/// Whether the sighting at the last of these places did. Mostly it did.
fn begins_last(
    intake: &Intake,
    arrivals: Arrivals<'_>,
    index: &Index<'_>,
    fault: Fault,
    always: &Sighting,
    left: &Sighting,
    span: Span,
    departure: &Sighting,
) -> bool
    requires index { IsIndex (taken intake.now) index.now }
    requires always { always.now.lo ≡ 0 }
    ensures { IsTrue result → ((arrival : Sighting) × IsCaptured (taken intake.now) arrival
        × Begins (taken intake.now) fault left.now.hi departure.now arrival) }
{
    if span.past <= span.first {
        return false;
    }
    let Some(one) = arrivals.by_key.places.get(span.past - 1) else {
        return false;
    };
    begins_at(intake, index, fault, always, left, one.sight, departure)
}

/// Whether an arrival with the key did. The last one is tried first.
fn begun_by(
    intake: &Intake,
    arrivals: Arrivals<'_>,
    index: &Index<'_>,
    fault: Fault,
    always: &Sighting,
    left: &Sighting,
    key: u64,
    departure: &Sighting,
) -> bool
    requires index { IsIndex (taken intake.now) index.now }
    requires always { always.now.lo ≡ 0 }
    requires arrivals { AreArrivals (taken intake.now) arrivals }
    ensures some { IsTrue result → ((arrival : Sighting) × IsCaptured (taken intake.now) arrival
        × Begins (taken intake.now) fault left.now.hi departure.now arrival) }
    ensures all { (arrival : Sighting) → IsCaptured (taken intake.now) arrival → IsArrivalBy (taken intake.now).policy key arrival →
        Begins (taken intake.now) fault left.now.hi departure.now arrival → IsTrue result }
{
    let first = earliest(departure, intake.policy().hold, arrivals.by_key.width);
    let span = span_of_key(arrivals.by_key.places, key, first, departure.hi);
    if begins_last(
        intake, arrivals, index, fault, always, left, span, departure,
    ) {
        return true;
    }
    let mut past = span.past;
    'places: while let Some(place) = last_unrepeated(
        intake, arrivals, span.first, past, departure,
    ) {
        if begins_from(
            intake, arrivals, index, fault, always, left, place, departure,
        ) {
            return true;
        }
        past = place;
    }
    false
}

/// Whether an arrival with the key did, if its client, or the relayed address that it was sent to,
/// is a partner of the holder. If there are more partners than places in reach, it searches all of
/// these places.
fn begun_by_partners(
    intake: &Intake,
    arrivals: Arrivals<'_>,
    index: &Index<'_>,
    fault: Fault,
    always: &Sighting,
    left: &Sighting,
    key: u64,
    holder: Addr,
    departure: &Sighting,
) -> bool
    requires index { IsIndex (taken intake.now) index.now }
    requires always { always.now.lo ≡ 0 }
    requires arrivals { AreArrivals (taken intake.now) arrivals }
    ensures some { IsTrue result → ((arrival : Sighting) × IsCaptured (taken intake.now) arrival
        × Begins (taken intake.now) fault left.now.hi departure.now arrival) }
    ensures all { (partner : ℕ) (arrival : Sighting) → HasPartner arrivals.entry.pairs.now (number_of_address holder) partner → IsCaptured (taken intake.now) arrival →
        IsOwnedBy (taken intake.now).policy key partner arrival → Begins (taken intake.now) fault left.now.hi departure.now arrival → IsTrue result }
{
    let number = address_number(holder);
    let mut steps = count_in_reach(intake, arrivals, key, departure);
    let mut least = 0;
    'partners: while let Some(partner) = next_partner(arrivals.pairs, number, least) {
        if steps == 0 {
            return begun_by(intake, arrivals, index, fault, always, left, key, departure);
        }
        let owned = owned_key(key, partner);
        if begun_by(
            intake, arrivals, index, fault, always, left, owned, departure,
        ) {
            return true;
        }
        steps -= 1;
        least = partner.saturating_add(1);
    }
    false
}

/// Whether an arrival with the key, if there is one, did. If the fault's check includes an
/// allocation, only arrivals of the holder's partners can.
fn begun_by_data(
    intake: &Intake,
    arrivals: Arrivals<'_>,
    index: &Index<'_>,
    fault: Fault,
    always: &Sighting,
    left: &Sighting,
    key: Option<u64>,
    holder: Addr,
    departure: &Sighting,
) -> bool
    requires index { IsIndex (taken intake.now) index.now }
    requires always { always.now.lo ≡ 0 }
    requires arrivals { AreArrivals (taken intake.now) arrivals }
    ensures some { IsTrue result → ((arrival : Sighting) × IsCaptured (taken intake.now) arrival
        × Begins (taken intake.now) fault left.now.hi departure.now arrival) }
    ensures all { (partner : ℕ) (arrival : Sighting) → IsPartnerFor fault arrivals.entry.pairs.now holder partner → IsCaptured (taken intake.now) arrival →
        HasOwnedKey (taken intake.now).policy key partner arrival → Begins (taken intake.now) fault left.now.hi departure.now arrival → IsTrue result }
{
    let Some(key) = key else {
        return false;
    };
    if fault == Fault::Unasked {
        return begun_by(intake, arrivals, index, fault, always, left, key, departure);
    }
    begun_by_partners(
        intake, arrivals, index, fault, always, left, key, holder, departure,
    )
}

/// Whether a captured arrival did: it has a key of the departure.
pub fn was_begun(
    intake: &Intake,
    arrivals: Arrivals<'_>,
    index: &Index<'_>,
    fault: Fault,
    always: &Sighting,
    left: &Sighting,
    departure: &Sighting,
) -> bool
    requires index { IsIndex (taken intake.now) index.now }
    requires always { always.now.lo ≡ 0 }
    requires arrivals { AreArrivals (taken intake.now) arrivals }
    ensures { IsTrue result ↔ WasBegun (taken intake.now) fault left.now.hi departure.now }
{
    let policy = intake.policy();
    let relayed = departure.from;
    let sends = key_of_sends(policy, departure);
    let by_sends = begun_by_data(
        intake, arrivals, index, fault, always, left, sends, relayed, departure,
    );
    if by_sends {
        return true;
    }
    let channel = key_of_channel_data(policy, departure);
    let by_channel = begun_by_data(
        intake, arrivals, index, fault, always, left, channel, relayed, departure,
    );
    if by_channel {
        return true;
    }
    let client = departure.to;
    let named_peer = key_of_named_peer(policy, departure);
    let by_named_peer = begun_by_data(
        intake, arrivals, index, fault, always, left, named_peer, client, departure,
    );
    if by_named_peer {
        return true;
    }
    let any_peer = key_of_any_peer(policy, departure);
    let by_any_peer = begun_by_data(
        intake, arrivals, index, fault, always, left, any_peer, client, departure,
    );
    by_any_peer
}
