//! Checks in one pass over the events that a certificate shows no breach in what it places.

ghost use Rattle.std.specs.Prelude.{◌<◌, ◌++◌, [], ℕ, All, List, IfOk, IfSome};
ghost use Rattle.std.specs.Bool.{OnTrue};
ghost use Rattle.audit_placement.specs.declared.entry.Entry.{Entry};
ghost use Rattle.audit_sightings.specs.Intake.{Taken, taken};
ghost use Rattle.audit_placement.specs.Clean.{IsClean};
ghost use Rattle.audit_placement.specs.Entries.{lane_entries, lanes_entries, drop_entries, entries};
ghost use Rattle.audit_placement.specs.Keys.{key_at};
ghost use Rattle.audit_placement.specs.Pieces.{LaneBreaksNoRule};

use crate::ahead::Placed;
use crate::entry::LaneEnd;
use crate::keys::PlacedKeys;
use crate::lane_rules::lanes_break_no_rule;
use crate::next_event::{note_event, place_event};
use audit_model::{CertDrop, CertLane, Certificate, Event, Key, Pair};
use audit_sightings::{EventsAhead, Intake};
use std::alloc::{AllocError, Global};
use std::thread::Threads;

/// Notes the placements of a lane's events. Returns whether they show no breach after those that
/// are noted.
fn note_lane(intake: &Intake, keys: &mut PlacedKeys, lane: &CertLane) -> bool
    ensures { (number : ℕ) (earlier : List Entry) → IsClean (taken intake.now) (key_at keys.old) earlier →
        OnTrue result (IsClean (taken intake.now) (key_at keys.new) (earlier ++ lane_entries number lane.now)) }
{
    let pair = Pair {
        client: lane.client,
        listen: lane.listen,
    };
    let mut last: Option<Key> = None;
    let mut ahead = EventsAhead::new(Placed { intake }, lane.events.as_slice());
    'events: for event in lane.events.as_slice() {
        ahead.advance();
        let end = LaneEnd {
            pair: Some(pair),
            last,
        };
        if !note_event(intake, keys, end, *event) {
            return false;
        }
        last = Some(event.key());
    }
    true
}

/// Notes the placements of all lanes, as `note_lane` does of one.
fn note_lanes(intake: &Intake, keys: &mut PlacedKeys, lanes: &[CertLane]) -> bool
    ensures { IsClean (taken intake.now) (key_at keys.old) [] → OnTrue result (IsClean (taken intake.now) (key_at keys.new) (lanes_entries 0 lanes.now)) }
{
    'lanes: for lane in lanes {
        if !note_lane(intake, keys, lane) {
            return false;
        }
    }
    true
}

/// Notes the placements of a lane's events, of which none breaks a rule by itself. Returns whether
/// they show no breach after those that are noted.
fn place_lane(keys: &mut PlacedKeys, lane: &CertLane) -> bool
    ensures { (taken : Taken) (number : ℕ) (earlier : List Entry) → LaneBreaksNoRule taken lane.now → IsClean taken (key_at keys.old) earlier →
        OnTrue result (IsClean taken (key_at keys.new) (earlier ++ lane_entries number lane.now)) }
{
    'events: for event in lane.events.as_slice() {
        if !place_event(keys, *event) {
            return false;
        }
    }
    true
}

/// Notes the placements of all lanes, as `place_lane` does of one.
fn place_lanes(keys: &mut PlacedKeys, lanes: &[CertLane]) -> bool
    ensures { (taken : Taken) → All (LaneBreaksNoRule taken) lanes.now → IsClean taken (key_at keys.old) [] →
        OnTrue result (IsClean taken (key_at keys.new) (lanes_entries 0 lanes.now)) }
{
    'lanes: for lane in lanes {
        if !place_lane(keys, lane) {
            return false;
        }
    }
    true
}

/// Notes the placements of the drops. Returns whether they show no breach after those that are
/// noted.
fn note_drops(intake: &Intake, keys: &mut PlacedKeys, drops: &[CertDrop]) -> bool
    ensures { (number : ℕ) (earlier : List Entry) → IsClean (taken intake.now) (key_at keys.old) earlier →
        OnTrue result (IsClean (taken intake.now) (key_at keys.new) (earlier ++ drop_entries number drops.now)) }
{
    let mut last: Option<Key> = None;
    'drops: for dropped in drops {
        let end = LaneEnd { pair: None, last };
        let arrival = Event::In {
            sight: dropped.sight,
            key: dropped.key,
        };
        if !note_event(intake, keys, end, arrival) {
            return false;
        }
        last = Some(dropped.key);
    }
    true
}

/// The keys at which a certificate places sightings, if it shows no breach in what it places. It
/// reads the events once, and takes 16 bytes a sighting.
pub fn clean_keys(
    alloc: Global,
    intake: &Intake,
    certificate: &Certificate,
) -> Result<Option<PlacedKeys>, AllocError>
    ensures { IfOk result (λ found. IfSome found (λ keys. IsClean (taken intake.now) (key_at keys) (entries certificate.now))) }
{
    let mut keys = PlacedKeys::new(alloc);
    keys.grow(alloc, intake)?;
    if !note_lanes(intake, &mut keys, certificate.lanes.as_slice()) {
        return Ok(None);
    }
    if !note_drops(intake, &mut keys, certificate.drops.as_slice()) {
        return Ok(None);
    }
    Ok(Some(keys))
}

/// The result of `clean_keys`, by at most `workers` threads. They check each event of the lanes by
/// itself. Then this thread alone reads the events once more for the keys, and the drops. It takes
/// 16 bytes a sighting, and before that up to 129 bytes for each lane and for each 4,096 events of
/// a lane. If there is no memory for those, it is `clean_keys`.
pub fn clean_keys_by<R: Threads + Sync>(
    rt: &R,
    alloc: Global,
    intake: &Intake,
    certificate: &Certificate,
    workers: u32,
) -> Result<Option<PlacedKeys>, AllocError>
    requires { 0 < workers }
    ensures { IfOk result (λ found. IfSome found (λ keys. IsClean (taken intake.now) (key_at keys) (entries certificate.now))) }
{
    let asked = lanes_break_no_rule(rt, alloc, intake, certificate.lanes.as_slice(), workers);
    let Ok(fine) = asked else {
        return clean_keys(alloc, intake, certificate);
    };
    if !fine {
        return Ok(None);
    }
    let mut keys = PlacedKeys::new(alloc);
    keys.grow(alloc, intake)?;
    if !place_lanes(&mut keys, certificate.lanes.as_slice()) {
        return Ok(None);
    }
    if !note_drops(intake, &mut keys, certificate.drops.as_slice()) {
        return Ok(None);
    }
    Ok(Some(keys))
}
