//! The breaches of sightings that aren't placed.

ghost use Rattle.std.specs.Prelude.{◌≡◌, List, Some, None, length, if◌then◌else◌};
ghost use Rattle.audit_model.specs.Least.{IsLeast};
ghost use Rattle.audit_sightings.specs.Intake.{taken};
ghost use Rattle.audit_placement.specs.declared.entry.Entry.{Entry};
ghost use Rattle.audit_placement.specs.Neighbours.{unplaced_breach};
ghost use Rattle.audit_placement.specs.Places.{has_place, Knows};
ghost use Rattle.audit_placement.specs.Shows.{ShowsUnplaced, ShowsNowhere};

use crate::places::Places;
use audit_model::{At, Breach, Certificate, Key, Rule, Sighting};
use audit_sightings::Intake;

/// The breach of a sighting that isn't placed: its place is after the last drop.
fn unplaced(sighting: &Sighting, lanes: u32, drops: u32) -> Breach
    ensures { result ≡ unplaced_breach lanes drops sighting.now }
{
    Breach {
        at: At {
            key: Key {
                moment: sighting.stamp,
                tie: 0,
            },
            lane: lanes,
            place: drops,
        },
        sight: sighting.id,
        rule: Rule::Unplaced,
        phase: 1,
    }
}

/// The breach of a sighting, if it isn't placed.
fn sighting_unplaced(
    certificate: &Certificate,
    sighting: &Sighting,
    places: &Places,
    lanes: u32,
    drops: u32,
) -> Option<Breach>
    ensures { result ≡ (if has_place certificate.now places.now sighting.now.id then None else Some (unplaced_breach lanes drops sighting.now)) }
{
    if places.has(certificate, sighting.id) {
        return None;
    }
    Some(unplaced(sighting, lanes, drops))
}

/// The least breach of the sightings of one interface that aren't placed.
fn interface_unplaced(
    certificate: &Certificate,
    sightings: &[Sighting],
    places: &Places,
) -> Option<Breach>
    ensures { (entries : List Entry) → Knows certificate.now places.now entries →
        IsLeast (ShowsUnplaced entries (length certificate.now.lanes) (length certificate.now.drops) sightings.now) result }
{
    let lanes = certificate.lanes.len() as u32;
    let drops = certificate.drops.len() as u32;
    let mut least = None;
    'sightings: for sighting in sightings {
        let found = sighting_unplaced(certificate, sighting, places, lanes, drops);
        least = Breach::least(least, found);
    }
    least
}

/// The least breach of the sightings that aren't placed.
pub fn unplaced_breach(
    intake: &Intake,
    certificate: &Certificate,
    places: &Places,
) -> Option<Breach>
    ensures { (entries : List Entry) → Knows certificate.now places.now entries →
        IsLeast (ShowsNowhere (taken intake.now) entries (length certificate.now.lanes) (length certificate.now.drops)) result }
{
    let mut least = None;
    'interfaces: for iface in 0..intake.interfaces() {
        let found = interface_unplaced(certificate, intake.interface(iface), places);
        least = Breach::least(least, found);
    }
    least
}
