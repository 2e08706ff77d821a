//! Checks that moments are in the windows that a certificate's skews narrow.

ghost use Rattle.std.specs.Prelude.{◌≡◌, ◌<◌, ◌^◌, length};
ghost use Rattle.audit_model.specs.Least.{IsLeast};
ghost use Rattle.audit_sightings.specs.Intake.{taken};
ghost use Rattle.audit_placement.specs.Cuts.{is_past, is_cut_there, is_cut, cut_breach, ShowsCut, ShowsCutIn};
ghost use Rattle.audit_placement.specs.Entries.{drop_entries, lane_entries, lanes_entries};

use audit_model::{
    At, Breach, CertLane, Certificate, Event, Key, Rule, SightId, nanoseconds, window,
};
use audit_sightings::Intake;

/// Whether the moment is outside the window around the stamp by a skew in microseconds.
fn lies_past(microseconds: u64, stamp: u64, moment: u64) -> bool
    ensures { result ≡ is_past microseconds stamp moment }
{
    let (lo, hi) = window(stamp, nanoseconds(microseconds));
    moment < lo || moment > hi
}

/// Whether the certificate's skew for the sighting's interface, if it has one, excludes the moment.
fn is_cut_of(intake: &Intake, certificate: &Certificate, sight: SightId, key: Key) -> bool
    ensures { result ≡ is_cut_there (taken intake.now) certificate.now.skews sight key }
{
    let Some(sighting) = intake.sighting(sight) else {
        return false;
    };
    match certificate.skew_of(sight.iface) {
        Some(microseconds) => lies_past(microseconds, sighting.stamp, key.moment),
        None => false,
    }
}

fn event_is_cut(intake: &Intake, certificate: &Certificate, event: Event) -> bool
    ensures { result ≡ is_cut (taken intake.now) certificate.now.skews event }
{
    match event {
        Event::In { sight, key } | Event::Out { sight, key } => {
            is_cut_of(intake, certificate, sight, key)
        }
        Event::Act { .. } => false,
    }
}

/// The breach that an event shows at its place.
fn cut_at(intake: &Intake, certificate: &Certificate, at: At, event: Event) -> Option<Breach>
    ensures { result ≡ cut_breach (taken intake.now) certificate.now.skews at event }
{
    if !event_is_cut(intake, certificate, event) {
        return None;
    }
    Some(Breach {
        at,
        sight: event.sight(),
        rule: Rule::OutOfWindow,
        phase: 1,
    })
}

fn lane_cut(
    intake: &Intake,
    certificate: &Certificate,
    number: u32,
    lane: &CertLane,
) -> Option<Breach>
    requires few { length lane.now.events < 2 ^ 32 }
    ensures { IsLeast (ShowsCutIn (taken intake.now) certificate.now.skews (lane_entries number lane.now)) result }
{
    let mut least = None;
    'events: for (place, event) in lane.events.as_slice().iter().enumerate() {
        let at = At {
            key: event.key(),
            lane: number,
            place: place as u32,
        };
        let found = cut_at(intake, certificate, at, *event);
        least = Breach::least(least, found);
    }
    least
}

fn lanes_cut(intake: &Intake, certificate: &Certificate) -> Option<Breach>
    ensures { IsLeast (ShowsCutIn (taken intake.now) certificate.now.skews (lanes_entries 0 certificate.now.lanes)) result }
{
    let mut least = None;
    'lanes: for (number, lane) in certificate.lanes.as_slice().iter().enumerate() {
        let found = lane_cut(intake, certificate, number as u32, lane);
        least = Breach::least(least, found);
    }
    least
}

fn drops_cut(intake: &Intake, certificate: &Certificate) -> Option<Breach>
    ensures { IsLeast (ShowsCutIn (taken intake.now) certificate.now.skews (drop_entries (length certificate.now.lanes) certificate.now.drops)) result }
{
    let drops = certificate.drops.as_slice();
    let lane = certificate.lanes.len() as u32;
    let mut least = None;
    'drops: for (place, dropped) in drops.iter().enumerate() {
        let at = At {
            key: dropped.key,
            lane,
            place: place as u32,
        };
        let arrival = Event::In {
            sight: dropped.sight,
            key: dropped.key,
        };
        let found = cut_at(intake, certificate, at, arrival);
        least = Breach::least(least, found);
    }
    least
}

/// The least breach of moments that the certificate's skews exclude, or none exactly if none is
/// shown. If the certificate has skews, it reads the events once.
pub fn least_cut(intake: &Intake, certificate: &Certificate) -> Option<Breach>
    ensures { IsLeast (ShowsCut (taken intake.now) certificate.now) result }
{
    if certificate.skews.is_empty() {
        return None;
    }
    let of_lanes = lanes_cut(intake, certificate);
    let of_drops = drops_cut(intake, certificate);
    Breach::least(of_lanes, of_drops)
}
