//! How long a tenancy keeps its address.

ghost use Rattle.std.specs.Prelude.{◌≡◌, ◌↔◌, IsTrue, false};
ghost use Rattle.audit_model.specs.Clash.{act_cmp, StillHeld};
ghost use Rattle.audit_tenancy.specs.Hold.{Outlasts, stop_within};
ghost use Rattle.audit_tenancy.specs.Kept.{tenancy_cmp};

use audit_model::{At, Key, Tenancy};
use std::cmp::Ordering;

/// The order of the acts of all lanes: by key, then by lane.
pub(crate) fn act_order(key: Key, lane: u32, other_key: Key, other_lane: u32) -> Ordering
    ensures { result ≡ act_cmp key lane other_key other_lane }
{
    key.cmp(&other_key).then(lane.cmp(&other_lane))
}

/// By relayed address, then by birth.
pub(crate) fn order(one: &Tenancy, other: &Tenancy) -> Ordering
    ensures { result ≡ tenancy_cmp one.now other.now }
{
    let born = act_order(one.born.key, one.born.lane, other.born.key, other.born.lane);
    one.relayed.cmp(&other.relayed).then(born)
}

/// Whether it still has its address at the act.
pub(crate) fn still_held(held: &Tenancy, at: At) -> bool
    ensures { IsTrue result ↔ StillHeld held.now at.key at.lane }
{
    if at.key.moment > held.last {
        return false;
    }
    match held.stopped {
        Some(stop) => act_order(stop, held.born.lane, at.key, at.lane) != Ordering::Less,
        None => true,
    }
}

/// Whether it keeps its address for at least as long as the other one.
pub(crate) fn outlasts(one: &Tenancy, other: &Tenancy) -> bool
    ensures longer { IsTrue result → Outlasts one.now other.now }
    ensures shorter { result ≡ false → Outlasts other.now one.now }
{
    match (stop_of(one), stop_of(other)) {
        (None, None) => one.last >= other.last,
        (None, Some(stop)) => one.last >= stop.moment,
        (Some(stop), None) => stop.moment > other.last,
        (Some(stop), Some(other_stop)) => {
            act_order(stop, one.born.lane, other_stop, other.born.lane) != Ordering::Less
        }
    }
}

/// The key at which it is stopped, if that is no later than its last moment.
fn stop_of(tenancy: &Tenancy) -> Option<Key>
    ensures { result ≡ stop_within tenancy.now.stopped tenancy.now.last }
{
    match tenancy.stopped {
        Some(stop) if stop.moment <= tenancy.last => Some(stop),
        _ => None,
    }
}
