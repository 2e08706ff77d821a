//! The client that each relayed address was granted to last.

ghost use Rattle.std.specs.Prelude.{◌≡◌, Some, None, OnOk};
ghost use Rattle.audit_model.specs.declared.address.Addr.{Addr as Address};
ghost use Rattle.audit_model.specs.Lanes.{same_addr};
ghost use Rattle.audit_server.specs.State.{put};
ghost use Rattle.audit_machine.specs.Holders.{holder_of};

use audit_model::{Addr, Pair};
use std::alloc::{AllocError, Global};
use std::collections::BTreeMap;

/// The client that each relayed address was granted to last.
#[derive(Drop)]
pub struct Holders {
    holders: BTreeMap<Addr, Pair>,
}

impl Holders {
    /// No addresses. Allocates no memory.
    pub fn new(alloc: Global) -> Holders
        ensures { (relayed : Address) → holder_of result relayed ≡ None }
    {
        Holders {
            holders: BTreeMap::new(alloc),
        }
    }

    /// The client that the address was granted to last.
    pub fn get(&self, relayed: Addr) -> Option<Pair>
        ensures { result ≡ holder_of self.now relayed }
    {
        self.holders.get(&relayed).copied()
    }

    /// Notes that the address is granted to a client.
    pub fn put(&mut self, relayed: Addr, pair: Pair) -> Result<(), AllocError>
        ensures { OnOk result ((q : Address) → holder_of self.new q ≡ put same_addr (holder_of self.old) relayed (Some pair) q) }
    {
        self.holders.insert(relayed, pair)?;
        Ok(())
    }
}
