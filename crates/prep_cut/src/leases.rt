//! Which leases captures show.

ghost use Rattle.std.specs.Prelude.{◌≡◌, ◌⊎◌, [], Contains, OnOk};
ghost use Rattle.audit_model.specs.declared.address.Addr.{Addr as AnyAddr};
ghost use Rattle.prep_cut.specs.declared.lease.Event.{Event as AnyEvent};
ghost use Rattle.prep_cut.specs.Leases.{IsEventIn};
ghost use Rattle.prep_cut.specs.Noted.{events_at};
ghost use Rattle.prep_cut.specs.declared.lease.Act.{Act as AnyAct};
ghost use Rattle.prep_cut.specs.Held.{HasEvent, HasGrant};

use crate::events::Events;
use crate::lease::{Act, Event, event_in};
use audit_model::{Addr, Policy};
use prep_blocks::Block;
use std::alloc::{AllocError, Global};

/// The success responses about allocations.
#[derive(Debug, Drop)]
pub struct Leases {
    /// By client and listen address.
    pub(crate) clients: Events,
    /// Grants, by relayed address.
    pub(crate) addresses: Events,
}

impl Leases {
    /// No packets. It takes no memory.
    pub(crate) fn new(alloc: Global) -> Self
        ensures { (client listen : AnyAddr) → events_at result.clients client listen ≡ [] }
    {
        Leases {
            clients: Events::new(alloc),
            addresses: Events::new(alloc),
        }
    }

    /// Records the event that a block shows. The cost is the logarithm of the number of clients and
    /// addresses.
    pub(crate) fn note(&mut self, policy: &Policy, block: &Block) -> Result<(), AllocError>
        ensures shown { OnOk result ((event : AnyEvent) → IsEventIn policy.now event block.now → HasEvent self.new event) }
        ensures kept { OnOk result ((event : AnyEvent) → HasEvent self.old event → HasEvent self.new event) }
        ensures only { OnOk result ((event : AnyEvent) (client listen : AnyAddr) → Contains (events_at self.new.clients client listen) event →
            Contains (events_at self.old.clients client listen) event ⊎ IsEventIn policy.now event block.now) }
    {
        if let Some(event) = event_in(policy, block) {
            self.add(event)?;
        }
        Ok(())
    }

    fn add(&mut self, event: Event) -> Result<(), AllocError>
        ensures shown { OnOk result (HasEvent self.new event) }
        ensures kept { OnOk result ((other : AnyEvent) → HasEvent self.old other → HasEvent self.new other) }
        ensures only { OnOk result ((other : AnyEvent) (client listen : AnyAddr) → Contains (events_at self.new.clients client listen) other →
            Contains (events_at self.old.clients client listen) other ⊎ (other ≡ event)) }
    {
        self.clients.add(event.client, event.listen, event)?;
        self.add_grant(event)?;
        Ok(())
    }

    fn add_grant(&mut self, event: Event) -> Result<(), AllocError>
        ensures shown { OnOk result (HasGrant self.new event event.said.act) }
        ensures kept { OnOk result ((other : AnyEvent) (act : AnyAct) → HasGrant self.old other act → HasGrant self.new other act) }
        ensures clients { self.new.clients ≡ self.old.clients }
    {
        if let Act::Grants { relayed, .. } = event.said.act {
            self.addresses.add(relayed, relayed, event)?;
        }
        Ok(())
    }
}
