//! A set of the client and the listen address of each lane.

ghost use Rattle.std.specs.Prelude.{◌≡◌, ◌||◌, false, OnOk, OnErr};
ghost use Rattle.audit_model.specs.declared.address.Addr.{Addr as Address};
ghost use Rattle.audit_model.specs.Lanes.{same_pair};
ghost use Rattle.audit_model.specs.LanePairs.{has};

use crate::address::Addr;
use std::alloc::{AllocFailed, Global};
use std::collections::BTreeSet;

/// A set of pairs of addresses: a client and a listen address each.
#[derive(Drop)]
pub struct LanePairs {
    set: BTreeSet<(Addr, Addr)>,
}

impl LanePairs {
    /// The empty set. Allocates no memory.
    pub fn new(alloc: Global) -> LanePairs
        ensures { (client listen : Address) → has result client listen ≡ false }
    {
        LanePairs {
            set: BTreeSet::new(alloc),
        }
    }

    /// Whether the set has this client at this listen address. It takes logarithmic time in the
    /// number of pairs.
    pub fn contains(&self, client: Addr, listen: Addr) -> bool
        ensures { result ≡ has self.now client listen }
    {
        self.set.contains(&(client, listen))
    }

    /// Adds a pair. It takes logarithmic time in the number of pairs.
    pub fn insert(&mut self, client: Addr, listen: Addr) -> Result<(), AllocFailed<(Addr, Addr)>>
        ensures ok { OnOk result ((c l : Address) → has self.new c l ≡ (same_pair client listen c l || has self.old c l)) }
        ensures err { OnErr result (self.new ≡ self.old) }
    {
        self.set.insert((client, listen))?;
        Ok(())
    }
}
