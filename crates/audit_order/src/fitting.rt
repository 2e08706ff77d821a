//! Checks that an extension fits a certificate.

ghost use Rattle.std.specs.Prelude.{◌≡◌, ◌<◌, ◌↔◌, ◌||◌, ◌++◌, List, All, IfOk, OnOk, IsTrue, length, map};
ghost use Rattle.std.specs.List.{IsDistinct};
ghost use Rattle.audit_model.specs.declared.certificate.CertLane.{CertLane as Lane};
ghost use Rattle.audit_model.specs.LanePairs.{has};
ghost use Rattle.audit_model.specs.Lanes.{same_lane};
ghost use Rattle.audit_order.specs.Grown.{empty_lane};
ghost use Rattle.audit_order.specs.Kept.{AreOfLanes};

use audit_model::{Addr, Event, LanePairs};
use std::alloc::{AllocError, Global};

/// Whether the number of each event is less than `lanes`.
pub fn are_of_lanes(events: &[(u32, Event)], lanes: usize) -> bool
    ensures { IsTrue result ↔ All (λ event. event.0 < lanes) events.now }
{
    events.iter().all(|(number, _)| (*number as usize) < lanes)
}

fn is_known(pairs: &LanePairs, seen: &LanePairs, client: Addr, listen: Addr) -> bool
    ensures { result ≡ (has pairs.now client listen || has seen.now client listen) }
{
    pairs.contains(client, listen) || seen.contains(client, listen)
}

/// Whether the pairs are new, and all different.
pub fn are_apart(alloc: Global, pairs: &LanePairs, new: &[(Addr, Addr)]) -> Result<bool, AllocError>
    ensures { (lanes : List Lane) → AreOfLanes pairs.now lanes → IsDistinct same_lane lanes →
        IfOk result (λ apart. IsTrue apart ↔ IsDistinct same_lane (lanes ++ map empty_lane new.now)) }
{
    let mut seen = LanePairs::new(alloc);
    'new: for (client, listen) in new {
        if is_known(pairs, &seen, *client, *listen) {
            return Ok(false);
        }
        seen.insert(*client, *listen)?;
    }
    Ok(true)
}

/// Adds the pairs of new lanes.
pub fn add_pairs(pairs: &mut LanePairs, new: &[(Addr, Addr)]) -> Result<(), AllocError>
    ensures { (lanes : List Lane) → AreOfLanes pairs.old lanes → OnOk result (AreOfLanes pairs.new (lanes ++ map empty_lane new.now)) }
{
    'new: for (client, listen) in new {
        pairs.insert(*client, *listen)?;
    }
    Ok(())
}
