//! The breaches of placement that the events of a lane, and the drops, show.

ghost use Rattle.std.specs.Prelude.{◌≡◌, ◌++◌, ◌∷◌, [], All, List, IfOk, IfNone, OnOk, Some, slice_get, length, ◌<◌, ◌^◌};
ghost use Rattle.audit_model.specs.Least.{IsLeast};
ghost use Rattle.audit_sightings.specs.Intake.{NamesWhatIsThere, taken};
ghost use Rattle.audit_placement.specs.declared.entry.Entry.{Entry};
ghost use Rattle.audit_placement.specs.Checks.{first_broken, event_checks, breach_of};
ghost use Rattle.audit_placement.specs.Entries.{lane_entries, drop_entries, at_of};
ghost use Rattle.audit_placement.specs.FirstPlace.{Notes};
ghost use Rattle.audit_placement.specs.Shows.{ShowsAt, ShowsFrom};

use crate::entry::{Entry, LaneEnd, Spot};
use crate::first::FirstPlaces;
use crate::single::event_rule;
use audit_model::{At, Breach, CertLane, Certificate, Event, Key, Pair};
use audit_sightings::Intake;
use std::alloc::AllocError;

/// The breach that an entry shows. `placed` is whether an earlier entry places the same sighting.
fn breach_of(intake: &Intake, entry: &Entry, placed: bool) -> Option<Breach>
    ensures exact { result ≡ breach_of entry.now.at (first_broken (event_checks (taken intake.now) placed entry.now.pair entry.now.last entry.now.event)) }
    ensures named { IfNone result (NamesWhatIsThere (taken intake.now) entry.now.event) }
{
    let end = LaneEnd {
        pair: entry.pair,
        last: entry.last,
    };
    let (rule, sight) = event_rule(intake, end, entry.event, placed)?;
    Some(Breach {
        at: entry.at,
        sight,
        rule,
        phase: 1,
    })
}

/// The least breach that an entry shows after those whose first placements are noted. Notes its
/// own.
fn entry_breach(
    intake: &Intake,
    certificate: &Certificate,
    first: &mut FirstPlaces,
    entry: &Entry,
    spot: Spot,
) -> Result<Option<Breach>, AllocError>
    requires { at_of certificate.now spot ≡ Some entry.now.at }
    ensures shown { (earlier : List Entry) → Notes certificate.now first.old earlier →
        IfOk result (IsLeast (ShowsAt (taken intake.now) earlier entry.now)) }
    ensures notes { (earlier : List Entry) → Notes certificate.now first.old earlier → OnOk result (Notes certificate.now first.new (earlier ++ entry.now ∷ [])) }
    ensures named { IfOk result (λ least. IfNone least (NamesWhatIsThere (taken intake.now) entry.now.event)) }
{
    let placed = first.place_entry(certificate, entry, spot)?;
    Ok(breach_of(intake, entry, placed))
}

/// The least breach that a lane's events show. If there is none, they name sightings that exist.
pub fn lane_breach(
    intake: &Intake,
    certificate: &Certificate,
    first: &mut FirstPlaces,
    number: u32,
    lane: &CertLane,
) -> Result<Option<Breach>, AllocError>
    requires there { slice_get certificate.now.lanes number ≡ Some lane.now }
    requires few { length lane.now.events < 2 ^ 32 }
    ensures shown { (earlier : List Entry) → Notes certificate.now first.old earlier →
        IfOk result (IsLeast (ShowsFrom (taken intake.now) earlier (lane_entries number lane.now))) }
    ensures notes { (earlier : List Entry) → Notes certificate.now first.old earlier →
        OnOk result (Notes certificate.now first.new (earlier ++ lane_entries number lane.now)) }
    ensures named { IfOk result (λ least. IfNone least (All (NamesWhatIsThere (taken intake.now)) lane.now.events)) }
{
    let pair = Pair {
        client: lane.client,
        listen: lane.listen,
    };
    let mut least = None;
    let mut last: Option<Key> = None;
    'events: for (place, event) in lane.events.as_slice().iter().enumerate() {
        let key = event.key();
        let entry = Entry {
            at: At {
                key,
                lane: number,
                place: place as u32,
            },
            event: *event,
            pair: Some(pair),
            last,
        };
        let spot = Spot::InLane {
            lane: number,
            place: place as u32,
        };
        let found = entry_breach(intake, certificate, first, &entry, spot)?;
        least = Breach::least(least, found);
        last = Some(key);
    }
    Ok(least)
}

/// The least breach that the drops show.
pub fn drops_breach(
    intake: &Intake,
    certificate: &Certificate,
    first: &mut FirstPlaces,
) -> Result<Option<Breach>, AllocError>
    ensures shown { (earlier : List Entry) → Notes certificate.now first.old earlier →
        IfOk result (IsLeast (ShowsFrom (taken intake.now) earlier (drop_entries (length certificate.now.lanes) certificate.now.drops))) }
    ensures notes { (earlier : List Entry) → Notes certificate.now first.old earlier →
        OnOk result (Notes certificate.now first.new (earlier ++ drop_entries (length certificate.now.lanes) certificate.now.drops)) }
{
    let drops = certificate.drops.as_slice();
    let lane = certificate.lanes.len() as u32;
    let mut least = None;
    let mut last: Option<Key> = None;
    'drops: for (place, dropped) in drops.iter().enumerate() {
        let entry = Entry {
            at: At {
                key: dropped.key,
                lane,
                place: place as u32,
            },
            event: Event::In {
                sight: dropped.sight,
                key: dropped.key,
            },
            pair: None,
            last,
        };
        let spot = Spot::Dropped {
            place: place as u32,
        };
        let of_drop = entry_breach(intake, certificate, first, &entry, spot)?;
        least = Breach::least(least, of_drop);
        last = Some(dropped.key);
    }
    Ok(least)
}
