//! The explanation of a verdict.

ghost use Rattle.std.specs.Prelude.{IfOk, IfSome, List};
ghost use Rattle.audit_faults.specs.declared.fault.ShownFault.{ShownFault};
ghost use Rattle.audit_faults.specs.Shown.{AreFaults};
ghost use Rattle.audit_keys.specs.KeyFor.{key_for};
ghost use Rattle.audit_sightings.specs.Intake.{taken};
ghost use Rattle.explain_story.specs.EveryOrder.{Says, SaysOne};

use crate::case::{Case, Lanes, lanes_of};
use crate::causes::{cause_line, cause_of_act, cause_of_departure};
use crate::content::add_content;
use crate::deletion::add_deletion;
use crate::expected::{expected_of_act, expected_of_rule};
use crate::held_twice::add_clash;
use crate::leases::{add_leases, add_margin, needs_leases};
use crate::line::{Account, ClientOf, Line, Story};
use crate::nearest::add_nearest;
use crate::order::{add_held, add_held_out, add_owner, add_twice};
use crate::others::{Shown, add_rest};
use crate::placement::add_placement;
use crate::scene::Scene;
use audit_faults::Fault;
use audit_lane::{LaneEvent, LaneInput};
use audit_model::{Breach, Rule, SightId, Sighting};
use explain_clients::Owners;
use explain_state::{LaneAt, lane_before};
use explain_text::cause;
use std::alloc::{AllocError, Global};

/// The last known user that a lane named before an event; if it named none before, the last one of
/// the whole lane.
fn account_of(alloc: Global, lane: &LaneAt<'_>) -> Result<Option<Account>, AllocError> {
    let last = lane.input().users().last();
    let Some((user, realm)) = lane.user().or(last.map(|row| (row.user, row.realm))) else {
        return Ok(None);
    };
    Ok(Some(Account {
        user: Vec::from_slice(alloc, user)?,
        realm: Vec::from_slice(alloc, realm)?,
    }))
}

/// Adds the client of a lane.
fn add_client(lane: &LaneAt<'_>, story: &mut Story) -> Result<(), AllocError> {
    let input = lane.input();
    let client = ClientOf {
        lane: input.number(),
        client: input.client(),
        listen: input.listen(),
        account: account_of(story.alloc(), lane)?,
    };
    story.add(Line::Client(client))?;
    story.put("")
}

/// Adds an act that violates a rule.
fn explain_act(
    scene: &Scene<'_>,
    place: u32,
    rule: Rule,
    story: &mut Story,
) -> Result<(), AllocError> {
    story.show(scene.arrives.id)?;
    story.show(scene.leaves.id)?;
    story.put("")?;
    story.due(expected_of_act(story.alloc(), scene, rule)?)?;
    add_content(scene, rule, story)?;
    if needs_leases(rule) {
        add_leases(scene, rule, story)?;
        add_margin(scene, rule, story)?;
    }
    if rule == Rule::NoAllocation {
        add_deletion(scene, story)?;
    }
    let input = scene.lane.input();
    match rule {
        Rule::ActedTwice => add_twice(scene, place, story),
        Rule::HeldTooLong => add_held(scene.case, input, scene.arrives.id, scene.moment, story),
        _ => Ok(()),
    }
}

/// Adds a departure that may not leave, and returns the usual causes.
fn explain_departure(
    case: Case<'_>,
    input: &LaneInput<'_>,
    sighting: &Sighting,
    breach: &Breach,
    story: &mut Story,
) -> Result<&'static str, AllocError> {
    story.show(sighting.id)?;
    story.put("")?;
    story.due(expected_of_rule(story.alloc(), breach.rule)?)?;
    match breach.rule {
        Rule::LeftWithoutAct => {
            story.put(
                "  it stands in this lane for want of another, and need not be of this client",
            )?;
            let owners = Owners::of(story.alloc(), case.intake)?;
            add_owner(case, sighting, story)?;
            add_nearest(case, &owners, sighting, story)?;
            return Ok(cause_of_departure(case, &owners, sighting, breach.rule));
        }
        Rule::HeldTooLong => add_held_out(case, input, sighting.id, breach.at.key.moment, story)?,
        _ => {}
    }
    Ok(cause(breach.rule))
}

/// The departure of an event; `None` for an arrival.
fn departure_of(event: &LaneEvent<'_>) -> Option<SightId> {
    match event {
        LaneEvent::In { .. } => None,
        LaneEvent::Act { leaves, .. } => Some(leaves.id),
        LaneEvent::Out { sighting, .. } => Some(sighting.id),
    }
}

/// Adds the event of a lane that violates a rule, and returns the usual causes.
fn explain_event(
    case: Case<'_>,
    lane: &LaneAt<'_>,
    event: &LaneEvent<'_>,
    breach: &Breach,
    story: &mut Story,
) -> Result<&'static str, AllocError> {
    match event {
        LaneEvent::In { sighting, .. } => {
            story.show(sighting.id)?;
            Ok(cause(breach.rule))
        }
        LaneEvent::Act {
            arrives,
            leaves,
            key,
        } => {
            let scene = Scene {
                case,
                lane,
                arrives,
                leaves,
                moment: key.moment,
            };
            explain_act(&scene, breach.at.place, breach.rule, story)?;
            Ok(cause_of_act(&scene, breach.at.place, breach.rule))
        }
        LaneEvent::Out { sighting, .. } => {
            explain_departure(case, lane.input(), sighting, breach, story)
        }
    }
}

/// Adds a breach of a lane with the departure that shows it, and returns the usual causes.
fn explain_lane(
    case: Case<'_>,
    lanes: &Lanes<'_>,
    breach: &Breach,
    shown: &Shown,
    story: &mut Story,
) -> Result<&'static str, AllocError> {
    if breach.at.lane >= lanes.job.len() {
        return Ok(cause(breach.rule));
    }
    let input = &**lanes.job.input(breach.at.lane);
    let Some(lane) = lane_before(story.alloc(), input, breach.at.place)? else {
        return Ok(cause(breach.rule));
    };
    add_client(&lane, story)?;
    let Some(event) = input.events().get(breach.at.place as usize) else {
        return Ok(cause(breach.rule));
    };
    let causes = explain_event(case, &lane, event, breach, story)?;
    if breach.phase == 3 {
        add_clash(lanes, breach, story)?;
    }
    story.put("")?;
    if let Some(sight) = departure_of(event) {
        story.departure = Some(sight);
        add_rest(lanes, input, breach.at.place, sight, shown, story)?;
    }
    Ok(causes)
}

/// Adds a breach of placement with the departure that shows it, and returns the usual causes.
fn explain_place(
    case: Case<'_>,
    breach: &Breach,
    story: &mut Story,
) -> Result<&'static str, AllocError> {
    story.departure = Some(breach.sight);
    story.put("")?;
    story.show(breach.sight)?;
    story.put("")?;
    story.due(expected_of_rule(story.alloc(), breach.rule)?)?;
    let causes = add_placement(case, breach, story)?;
    story.put("")?;
    Ok(causes)
}

/// Adds the rule and its usual causes, if these are known before frames are looked up.
fn add_rule(rule: Rule, causes: &str, story: &mut Story) -> Result<(), AllocError> {
    story.add(Line::Rule(rule))?;
    if causes.is_empty() {
        return Ok(());
    }
    let line = cause_line(story.alloc(), rule, causes)?;
    story.say(line)
}

/// The faults that are shown in every order.
#[derive(Clone, Copy)]
pub enum InEveryOrder {
    /// A fault of the breach's departure.
    Here {
        fault: Fault,
        /// The number of departures that show it.
        count: usize,
        /// The captures began too late for its relayed address.
        too_late: bool,
    },
    /// No fault of that departure, but this number of other departures that each show one.
    Elsewhere {
        count: usize,
    },
}

/// The explanation of a breach, except its head and its last lines, and the faults that the
/// captures show in every order.
pub fn story_of(
    alloc: Global,
    case: Case<'_>,
    breach: &Breach,
) -> Result<(Story, Option<InEveryOrder>), AllocError>
    ensures { IfOk result (λ story. (faults : List ShownFault) × AreFaults (taken case.entry.intake.now) (key_for case.entry.users.now) faults × Says faults story.1) }
{
    let mut story = Story::new(alloc, breach.at.key.moment);
    let shown = Shown::of(alloc, case)?;
    let causes = match lanes_of(alloc, case)? {
        Some(lanes) => explain_lane(case, &lanes, breach, &shown, &mut story)?,
        None => explain_place(case, breach, &mut story)?,
    };
    add_rule(breach.rule, causes, &mut story)?;
    let departure = story.departure;
    Ok((story, in_every_order(&shown, departure)))
}

/// The fault that a departure shows, and how many departures show the same one.
fn of_departure(shown: &Shown, departure: Option<SightId>) -> Option<InEveryOrder>
    ensures { IfSome result (SaysOne shown.now.faults.items) }
{
    let found = shown.find(departure?)?;
    Some(InEveryOrder::Here {
        fault: found.fault,
        count: shown.count(found.fault),
        too_late: found.may_predate,
    })
}

/// The faults of all departures, this one first; `None` if no departure shows a fault.
fn in_every_order(shown: &Shown, departure: Option<SightId>) -> Option<InEveryOrder>
    ensures { Says shown.now.faults.items result }
{
    if let Some(here) = of_departure(shown, departure) {
        return Some(here);
    }
    let count = shown.number();
    if count == 0 {
        return None;
    }
    Some(InEveryOrder::Elsewhere { count })
}
