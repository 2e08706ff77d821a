//! Checks that one more event shows no breach.

ghost use Rattle.std.specs.Prelude.{◌≡◌, ◌+◌, ℕ, Some, None, true};
ghost use Rattle.std.specs.Bool.{OnTrue};
ghost use Rattle.std.specs.Ordering.{is_gt};
ghost use Rattle.audit_model.specs.declared.event.Key.{Key as EventKey};
ghost use Rattle.audit_model.specs.Breach.{key_cmp};
ghost use Rattle.audit_sightings.specs.Intake.{taken};
ghost use Rattle.audit_placement.specs.Clean.{PlacesAt, PlacesEvent, Takes};
ghost use Rattle.audit_placement.specs.Keys.{key_at};

use crate::entry::LaneEnd;
use crate::keys::PlacedKeys;
use crate::single::breaks_no_rule;
use audit_model::{Event, Key, SightId};
use audit_sightings::Intake;

/// Whether the key is greater than that of the sighting before it on the interface, if that is
/// placed.
fn follows_its_neighbour(keys: &PlacedKeys, sight: SightId, key: Key) -> bool
    ensures { OnTrue result ((index : ℕ) (before : EventKey) → sight.index ≡ index + 1
        → key_at keys.now (record { iface = sight.iface; index = index }) ≡ Some before → is_gt (key_cmp key before) ≡ true) }
{
    let Some(index) = sight.index.checked_sub(1) else {
        return true;
    };
    match keys.key(SightId {
        iface: sight.iface,
        index,
    }) {
        Some(before) => key > before,
        None => true,
    }
}

/// Whether the key of the sighting after it on the interface is greater, if that is placed.
fn precedes_its_neighbour(keys: &PlacedKeys, sight: SightId, key: Key) -> bool
    ensures { OnTrue result ((next : EventKey) → key_at keys.now (record { iface = sight.iface; index = sight.index + 1 }) ≡ Some next
        → is_gt (key_cmp next key) ≡ true) }
{
    let Some(index) = sight.index.checked_add(1) else {
        return false;
    };
    match keys.key(SightId {
        iface: sight.iface,
        index,
    }) {
        Some(next) => next > key,
        None => true,
    }
}

/// Notes the key of a sighting that isn't placed yet. Returns whether it is between its neighbours.
fn note_key(keys: &mut PlacedKeys, sight: SightId, key: Key) -> bool
    ensures { OnTrue result (PlacesAt (key_at keys.old) sight key (key_at keys.new)) }
{
    keys.key(sight).is_none()
        && follows_its_neighbour(keys, sight, key)
        && precedes_its_neighbour(keys, sight, key)
        && keys.place(sight, key)
}

/// Notes the placement of an event. Returns whether it is between its neighbours. Whether the event
/// breaks a rule by itself isn't checked.
pub fn place_event(keys: &mut PlacedKeys, event: Event) -> bool
    ensures { OnTrue result (PlacesEvent (key_at keys.old) event (key_at keys.new)) }
{
    match event {
        Event::In { sight, key } | Event::Out { sight, key } => note_key(keys, sight, key),
        Event::Act { .. } => true,
    }
}

/// Notes the placement of an event after the end of its lane. Returns whether it shows no breach.
pub fn note_event(intake: &Intake, keys: &mut PlacedKeys, end: LaneEnd, event: Event) -> bool
    ensures { OnTrue result (Takes (taken intake.now) (key_at keys.old) end.pair end.last event (key_at keys.new)) }
{
    breaks_no_rule(intake, end, event) && place_event(keys, event)
}
