//! The lane that holds each relayed address.

ghost use Rattle.std.specs.Prelude.{◌≡◌, OnOk, ◌↔◌, IsTrue, true};
ghost use Rattle.audit_live.specs.Holding.{Notes, held_in, is_before as came_before};

use crate::lane::LiveLane;
use audit_model::{Addr, Tenancy};
use std::alloc::{AllocError, Global};
use std::cmp::Ordering;
use std::collections::BTreeMap;

/// The lane to which each relayed address was last granted.
#[derive(Drop)]
pub struct Holders {
    pub lanes: BTreeMap<Addr, u32>,
}

/// Whether the first tenancy was born before the second.
fn is_before(one: &Tenancy, other: &Tenancy) -> bool
    ensures { result ≡ came_before one.now other.now }
{
    let order = one
        .born
        .key
        .cmp(&other.born.key)
        .then(one.born.lane.cmp(&other.born.lane));
    order == Ordering::Less
}

impl Holders {
    /// No address was granted yet. Allocates no memory.
    pub fn new(alloc: Global) -> Self {
        Holders {
            lanes: BTreeMap::new(alloc),
        }
    }

    /// The current tenancy of the lane to which the address was last granted.
    pub fn running(&self, lanes: &[LiveLane], relayed: Addr) -> Option<Tenancy>
        ensures { result ≡ held_in lanes.now self.now relayed }
    {
        let number = self.lanes.get(&relayed)?;
        lanes.get(*number as usize)?.running()
    }

    /// Notes the lane of a current tenancy, unless its address was granted to another lane later.
    pub fn note(&mut self, lanes: &[LiveLane], tenancy: &Tenancy) -> Result<(), AllocError>
        ensures { OnOk result (Notes lanes.now self.old tenancy.now self.new) }
    {
        if let Some(holder) = self.running(lanes, tenancy.relayed) {
            if holder.relayed == tenancy.relayed && is_before(tenancy, &holder) {
                return Ok(());
            }
        }
        self.lanes.insert(tenancy.relayed, tenancy.born.lane)?;
        Ok(())
    }
}
