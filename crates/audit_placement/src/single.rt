//! The breaches of placement that one event shows.

ghost use Rattle.std.specs.Prelude.{◌≡◌, IfNone, None, false};
ghost use Rattle.std.specs.Bool.{OnTrue};
ghost use Rattle.audit_model.specs.Lanes.{same_pair};
ghost use Rattle.audit_sightings.specs.Intake.{IsThere, NamesWhatIsThere, taken};
ghost use Rattle.audit_placement.specs.Checks.{is_late, is_of_another, placing_checks, act_checks, event_checks, first_broken};

use crate::entry::LaneEnd;
use audit_model::{Addr, Event, Key, Pair, Policy, Rule, Side, SightId, Sighting};
use audit_sightings::Intake;

/// Whether the key isn't greater than that of the event before it.
fn is_not_after(last: Option<Key>, key: Key) -> bool
    ensures { result ≡ is_late last key }
{
    match last {
        None => false,
        Some(last) => key <= last,
    }
}

/// Whether the datagram is to or from a listen address, but not between the lane's client and its
/// listen address.
fn is_of_other(policy: &Policy, pair: Option<Pair>, side: Side, sighting: &Sighting) -> bool
    ensures { result ≡ is_of_another policy.now pair side sighting.now }
{
    let Some(pair) = pair else {
        return false;
    };
    match side {
        Side::Arrives => {
            policy.listens(sighting.to) && !is_pair(pair, sighting.from, sighting.to)
        }
        Side::Leaves => {
            policy.listens(sighting.from) && !is_pair(pair, sighting.to, sighting.from)
        }
    }
}

fn is_pair(pair: Pair, client: Addr, listen: Addr) -> bool
    ensures { result ≡ same_pair pair.client pair.listen client listen }
{
    pair.client == client && pair.listen == listen
}

/// The first rule that an arrival or a departure breaks at its place. `placed` is whether an
/// earlier entry places the same sighting.
fn placing_rule(
    intake: &Intake,
    end: LaneEnd,
    placed: bool,
    side: Side,
    sight: SightId,
    key: Key,
) -> Option<(Rule, SightId)>
    ensures exact { result ≡ first_broken (placing_checks (taken intake.now) placed end.pair end.last side sight key) }
    ensures named { IfNone result (IsThere (taken intake.now) side sight) }
{
    if placed {
        return Some((Rule::PlacedTwice, sight));
    }
    let Some(sighting) = intake.sighting(sight) else {
        return Some((Rule::Stranger, sight));
    };
    if key.moment < sighting.lo || key.moment > sighting.hi {
        return Some((Rule::OutOfWindow, sight));
    }
    if is_not_after(end.last, key) {
        return Some((Rule::LaneOrder, sight));
    }
    if sighting.side != side {
        return Some((Rule::WrongSide, sight));
    }
    if is_of_other(intake.policy(), end.pair, side, sighting) {
        return Some((Rule::OtherEndpoint, sight));
    }
    None
}

/// The first rule of placement that an act breaks, and the sighting that its breach names.
fn act_rule(
    intake: &Intake,
    last: Option<Key>,
    sight: SightId,
    gives: SightId,
    key: Key,
) -> Option<(Rule, SightId)>
    ensures exact { result ≡ first_broken (act_checks (taken intake.now) last sight gives key) }
    ensures named { IfNone result (NamesWhatIsThere (taken intake.now) (Event.Act sight gives key)) }
{
    let Some(arrival) = intake.sighting(sight) else {
        return Some((Rule::Stranger, sight));
    };
    let Some(departure) = intake.sighting(gives) else {
        return Some((Rule::Stranger, gives));
    };
    if is_not_after(last, key) {
        return Some((Rule::LaneOrder, sight));
    }
    if arrival.side != Side::Arrives || departure.side != Side::Leaves {
        return Some((Rule::WrongSide, sight));
    }
    None
}

/// The first rule of placement that an event breaks after the end of its lane, and the sighting
/// that its breach names. `placed` is whether an earlier entry places the same sighting.
pub fn event_rule(
    intake: &Intake,
    end: LaneEnd,
    event: Event,
    placed: bool,
) -> Option<(Rule, SightId)>
    ensures exact { result ≡ first_broken (event_checks (taken intake.now) placed end.pair end.last event) }
    ensures named { IfNone result (NamesWhatIsThere (taken intake.now) event) }
{
    match event {
        Event::In { sight, key } => placing_rule(intake, end, placed, Side::Arrives, sight, key),
        Event::Out { sight, key } => placing_rule(intake, end, placed, Side::Leaves, sight, key),
        Event::Act { sight, gives, key } => act_rule(intake, end.last, sight, gives, key),
    }
}

/// Whether the event breaks no rule of placement after the end of its lane, whatever else places
/// its sighting.
pub fn breaks_no_rule(intake: &Intake, end: LaneEnd, event: Event) -> bool
    ensures { OnTrue result (first_broken (event_checks (taken intake.now) false end.pair end.last event) ≡ None) }
{
    event_rule(intake, end, event, false).is_none()
}
