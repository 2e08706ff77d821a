//! Checks that an extension is between the horizons of its turn.

ghost use Rattle.std.specs.Prelude.{◌≡◌, ◌≤◌, ◌<◌, ◌↔◌, All, IfSome, IsTrue, None};
ghost use Rattle.audit_model.specs.Event.{key_of};
ghost use Rattle.audit_prefix.specs.Advance.{IsInTurn};

use audit_model::{CertDrop, Event, Extension};

/// Whether the horizon is at the last one or before it.
pub fn is_not_later(last: Option<u64>, horizon: u64) -> bool
    ensures { IsTrue result ↔ (IfSome last (λ before. horizon ≤ before) × ((last ≡ None) → ⊥)) }
{
    match last {
        Some(before) => horizon <= before,
        None => false,
    }
}

/// Whether the moment is past the last horizon, and not past the new one.
fn is_between(last: Option<u64>, horizon: u64, moment: u64) -> bool
    ensures { IsTrue result ↔ (IfSome last (λ before. before < moment) × (moment ≤ horizon)) }
{
    match last {
        Some(before) => before < moment && moment <= horizon,
        None => moment <= horizon,
    }
}

fn are_between(last: Option<u64>, horizon: u64, events: &[(u32, Event)]) -> bool
    ensures { IsTrue result ↔ All (λ event. IfSome last (λ before. before < (key_of event.1).moment) × ((key_of event.1).moment ≤ horizon)) events.now }
{
    events
        .iter()
        .all(|(_, event)| is_between(last, horizon, event.key().moment))
}

fn are_drops_between(last: Option<u64>, horizon: u64, drops: &[CertDrop]) -> bool
    ensures { IsTrue result ↔ All (λ dropped. IfSome last (λ before. before < dropped.key.moment) × (dropped.key.moment ≤ horizon)) drops.now }
{
    drops
        .iter()
        .all(|dropped| is_between(last, horizon, dropped.key.moment))
}

/// Whether all events and drops are past the last horizon, and none past the new one.
pub fn is_in_turn(last: Option<u64>, horizon: u64, extension: &Extension) -> bool
    ensures { IsTrue result ↔ IsInTurn last horizon extension.now }
{
    are_between(last, horizon, extension.events.as_slice())
        && are_drops_between(last, horizon, extension.drops.as_slice())
}
