//! Which leases have not expired at a moment, by what captures show.

ghost use Rattle.std.specs.Prelude.{◌≡◌};
ghost use Rattle.prep_cut.specs.Lasting.{covers, ends, ends_it, equals, grants_this, has_begun, is_asked_by, is_ended, is_its, is_leased, is_of_client, is_renewed, is_since, is_tenant, is_within, lasts, renews, renews_it, was_granted};

use crate::allocations::Allocations;
use crate::lease::{Act, Event};
use crate::transaction::Transaction;
use audit_model::{Addr, Pair};

/// The nanoseconds of a second.
const SECOND: u64 = 1_000_000_000;

impl Event {
    /// Whether a moment is within the lifetime of the response.
    fn is_within(&self, stamp: u64) -> bool
        ensures { result ≡ is_within stamp self.now }
    {
        let longest = u64::from(self.said.seconds) * SECOND;
        self.moment <= stamp && stamp - self.moment <= longest
    }

    /// Whether an event is of the same client, after the grant and up to a moment.
    fn is_since(&self, grant: &Event, stamp: u64) -> bool
        ensures { result ≡ is_since grant.now stamp self.now }
    {
        let is_its = self.client == grant.client && self.listen == grant.listen;
        is_its && grant.moment <= self.moment && self.moment <= stamp
    }

    /// Whether it deletes the granted allocation, up to a moment.
    fn ends(&self, grant: &Event, stamp: u64) -> bool
        ensures { result ≡ ends grant.now stamp self.now }
    {
        match self.said.act {
            Act::Ends => self.is_since(grant, stamp),
            Act::Grants { .. } | Act::Renews => false,
        }
    }

    /// Whether it refreshes the granted allocation, so that it has not expired at a moment.
    fn renews(&self, grant: &Event, stamp: u64) -> bool
        ensures { result ≡ renews grant.now stamp self.now }
    {
        match self.said.act {
            Act::Renews => self.is_since(grant, stamp) && self.is_within(stamp),
            Act::Grants { .. } | Act::Ends => false,
        }
    }

    /// Whether it grants this address.
    fn grants(&self, relayed: Addr) -> bool
        ensures { result ≡ grants_this relayed self.now.said.act }
    {
        match self.said.act {
            Act::Grants {
                relayed: granted,
                ..
            } => granted == relayed,
            Act::Renews | Act::Ends => false,
        }
    }
}

impl Allocations {
    /// Whether an event is a grant up to a moment, and its request is recorded.
    fn has_begun(&self, event: &Event, stamp: u64) -> bool
        ensures { result ≡ has_begun self.now stamp event.now }
    {
        match event.said.act {
            Act::Grants { tid, .. } => {
                let transaction = Transaction {
                    client: event.client,
                    listen: event.listen,
                    tid,
                };
                self.asked.contains(&transaction) && event.moment <= stamp
            }
            Act::Renews | Act::Ends => false,
        }
    }

    fn is_renewed(&self, grant: &Event, stamp: u64) -> bool
        ensures { result ≡ is_renewed self.now stamp grant.now }
    {
        let events = self.leases.clients.at(grant.client, grant.listen);
        events.iter().any(|event| event.renews(grant, stamp))
    }

    fn lasts(&self, grant: &Event, stamp: u64) -> bool
        ensures { result ≡ lasts self.now stamp grant.now }
    {
        grant.is_within(stamp) || self.is_renewed(grant, stamp)
    }

    fn is_ended(&self, grant: &Event, stamp: u64) -> bool
        ensures { result ≡ is_ended self.now stamp grant.now }
    {
        let events = self.leases.clients.at(grant.client, grant.listen);
        events.iter().any(|event| event.ends(grant, stamp))
    }

    /// Whether a client's granted allocation is there at a moment.
    fn covers(&self, grant: &Event, stamp: u64) -> bool
        ensures { result ≡ covers self.now stamp grant.now }
    {
        self.has_begun(grant, stamp) && self.lasts(grant, stamp) && !self.is_ended(grant, stamp)
    }

    /// Whether a client has a lease of an address at a moment. The cost is the number of its
    /// leases, times that of the client's responses.
    pub fn is_leased(&self, relayed: Addr, stamp: u64) -> bool
        ensures { result ≡ is_leased self.now relayed stamp }
    {
        let grants = self.leases.addresses.at(relayed, relayed);
        grants.iter().any(|grant| self.covers(grant, stamp))
    }

    /// Whether a client was granted an allocation up to a moment. The cost is the number of its
    /// responses.
    pub fn is_tenant(&self, client: Addr, listen: Addr, stamp: u64) -> bool
        ensures { result ≡ is_tenant self.now client listen stamp }
    {
        let events = self.leases.clients.at(client, listen);
        events.iter().any(|event| self.has_begun(event, stamp))
    }

    fn was_granted(&self, pair: &Pair, relayed: Addr, moment: u64) -> bool
        ensures { result ≡ was_granted self.now pair.now relayed moment }
    {
        let events = self.leases.clients.at(pair.client, pair.listen);
        events.iter().any(|event| self.has_begun(event, moment) && event.grants(relayed))
    }

    /// Whether an address was granted to a client up to a moment, or the client is from before the
    /// captures.
    pub fn is_its(&self, pair: &Pair, relayed: Addr, moment: u64) -> bool
        ensures { result ≡ is_its self.now pair.now relayed moment }
    {
        !self.is_tenant(pair.client, pair.listen, moment) || self.was_granted(pair, relayed, moment)
    }
}
