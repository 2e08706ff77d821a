//! Events by two addresses.

ghost use Rattle.std.specs.Prelude.{◌≡◌, ◌⊎◌, [], Contains, OnOk};
ghost use Rattle.prep_cut.specs.declared.lease.Event.{Event as AnyEvent};
ghost use Rattle.audit_model.specs.declared.address.Addr.{Addr as AnyAddr};
ghost use Rattle.prep_cut.specs.Noted.{events_at};

use crate::lease::Event;
use audit_model::Addr;
use std::alloc::{AllocError, Global};
use std::collections::BTreeMap;

/// Events, each of which is recorded for two addresses.
#[derive(Debug, Drop)]
pub struct Events {
    by_ends: BTreeMap<(Addr, Addr), Vec<Event>>,
    alloc: Global,
}

impl Events {
    /// No event. It takes no memory.
    pub(crate) fn new(alloc: Global) -> Self
        ensures { (one other : AnyAddr) → events_at result one other ≡ [] }
    {
        Events {
            by_ends: BTreeMap::new(alloc),
            alloc,
        }
    }

    /// The events of two addresses, in the order in which they were recorded. The cost is the
    /// logarithm of the number of addresses.
    pub(crate) fn at(&self, one: Addr, other: Addr) -> &[Event]
        ensures { result.now ≡ events_at self.now one other }
    {
        match self.by_ends.get(&(one, other)) {
            Some(events) => events.as_slice(),
            None => &[],
        }
    }

    /// Records an event for two addresses.
    pub(crate) fn add(&mut self, one: Addr, other: Addr, event: Event) -> Result<(), AllocError>
        ensures added { OnOk result (Contains (events_at self.new one other) event) }
        ensures kept { OnOk result ((first second : AnyAddr) (earlier : AnyEvent) → Contains (events_at self.old first second) earlier →
            Contains (events_at self.new first second) earlier) }
        ensures only { OnOk result ((first second : AnyAddr) (any : AnyEvent) → Contains (events_at self.new first second) any →
            Contains (events_at self.old first second) any ⊎ (any ≡ event)) }
    {
        let mut events = match self.by_ends.remove(&(one, other)) {
            Some(events) => events,
            None => Vec::new(self.alloc),
        };
        events.push(event)?;
        self.by_ends.insert((one, other), events)?;
        Ok(())
    }
}
