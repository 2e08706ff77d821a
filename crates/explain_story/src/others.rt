//! The last lines: how many more such faults a lane has, and the outcome of the other clients.

ghost use Rattle.std.specs.Prelude.{◌≡◌, Any, IfOk, IfSome, length};
ghost use Rattle.audit_faults.specs.Shown.{AreFaults};
ghost use Rattle.audit_keys.specs.KeyFor.{key_for};
ghost use Rattle.audit_sightings.specs.Intake.{taken};

use crate::case::{Case, Lanes};
use crate::line::{Line, Story};
use audit_faults::{Fault, ShownFault, shown_faults};
use audit_lane::{LaneEvent, LaneInput, Outcome};
use audit_model::SightId;
use std::alloc::{AllocError, Global};
use std::collections::BTreeMap;

/// The faults in every order, each with the departure that shows it.
#[derive(Drop)]
pub struct Shown {
    /// In the order of the departures.
    faults: Vec<ShownFault>,
    by_sight: BTreeMap<SightId, Fault>,
}

/// Whether two faults are the same.
fn is_same(one: Fault, other: Fault) -> bool {
    one == other
}

impl Shown {
    /// All faults that the captures show. It takes n log n in the sightings.
    pub fn of(alloc: Global, case: Case<'_>) -> Result<Shown, AllocError>
        ensures { IfOk result (λ shown. AreFaults (taken case.entry.intake.now) (key_for case.entry.users.now) shown.faults.items) }
    {
        let faults = shown_faults(alloc, case.intake, case.users)?;
        let mut by_sight = BTreeMap::new(alloc);
        for shown in &faults {
            by_sight.insert(shown.sight, shown.fault)?;
        }
        Ok(Shown { faults, by_sight })
    }

    /// The fault that a departure shows. It takes log n in the faults.
    pub fn fault(&self, sight: SightId) -> Option<Fault> {
        self.by_sight.get(&sight).copied()
    }

    /// The fault that a departure shows, with all its facts. It takes n in the faults.
    pub fn find(&self, sight: SightId) -> Option<ShownFault>
        ensures { IfSome result (λ found. (found.sight ≡ sight) × Any (λ shown. shown ≡ found) self.now.faults.items) }
    {
        for shown in &self.faults {
            if shown.sight == sight {
                return Some(*shown);
            }
        }
        None
    }

    /// The number of departures that show a fault.
    pub fn number(&self) -> usize
        ensures { result ≡ length self.now.faults.items }
    {
        self.faults.len()
    }

    /// The number of departures that show this fault.
    pub fn count(&self, fault: Fault) -> usize {
        let mut count = 0usize;
        for (_, other) in &self.by_sight {
            if is_same(*other, fault) {
                count = count.saturating_add(1);
            }
        }
        count
    }
}

/// Departures of a lane after an index that show a fault.
#[derive(Clone, Copy)]
struct Later {
    count: u64,
    last: Option<SightId>,
}

/// The departures that acts after an index sent and that show a fault.
fn behind(input: &LaneInput<'_>, place: u32, shown: &Shown, fault: Fault) -> Later {
    let mut count = 0u64;
    let mut last = None;
    let start = (place as usize).saturating_add(1);
    for event in input.events().get(start..).unwrap_or(&[]) {
        if let LaneEvent::Act { leaves, .. } = event {
            if shown.fault(leaves.id) == Some(fault) {
                count = count.saturating_add(1);
                last = Some(leaves.id);
            }
        }
    }
    Later { count, last }
}

/// The number of lanes except this one that violate a rule.
fn broken_others(lanes: &Lanes<'_>, lane: u32) -> u64 {
    let mut count = 0u64;
    for finding in &lanes.findings {
        if finding.input().number() != lane {
            if let Outcome::Broken(_) = finding.outcome() {
                count = count.saturating_add(1);
            }
        }
    }
    count
}

/// The outcome of the other clients.
fn others(alloc: Global, lanes: &Lanes<'_>, lane: u32) -> Result<String, AllocError> {
    if lanes.findings.len() <= 1 {
        return String::from_str(alloc, "there is no other client");
    }
    let broken = broken_others(lanes, lane);
    if broken == 0 {
        return String::from_str(alloc, "the other clients pass");
    }
    if broken == 1 {
        return String::from_str(
            alloc,
            "another client breaks a rule too (turnexplain lanes --broken)",
        );
    }
    format!(in alloc; "{broken} other clients break a rule too (turnexplain lanes --broken)")
}

/// Adds how many more departures of the lane show the same fault, and the outcome of the other
/// clients.
pub fn add_rest(
    lanes: &Lanes<'_>,
    input: &LaneInput<'_>,
    place: u32,
    departure: SightId,
    shown: &Shown,
    story: &mut Story,
) -> Result<(), AllocError> {
    let alloc = story.alloc();
    let others = others(alloc, lanes, input.number())?;
    let Some(fault) = shown.fault(departure) else {
        return story.say(others);
    };
    let rest = behind(input, place, shown, fault);
    let Some(sight) = rest.last else {
        return story.say(others);
    };
    let count = rest.count;
    story.add(Line::UpTo {
        words: format!(in alloc; "{count} more datagrams of this lane show the same, to ")?,
        sight,
        behind: format!(in alloc; "; {others}")?,
    })
}
