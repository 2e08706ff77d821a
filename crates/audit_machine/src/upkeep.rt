//! What a machine will be able to forget, in the order of time. Its memory is that of the clients
//! with an allocation or an act in the last 300 seconds, and of the arrivals within the hold.

ghost use Rattle.std.specs.Prelude.{◌≡◌, [], Bool};
ghost use Rattle.audit_model.specs.declared.sighting.SightId.{SightId as SightName};
ghost use Rattle.audit_rules.specs.Keys.{KeyFor};
ghost use Rattle.audit_segments.specs.Segment.{View, IsSegment};
ghost use Rattle.audit_machine.specs.Machine.{cut_of, IsConsistent};

use crate::machine::Machine;
use crate::moves::Action;
use audit_cuts::{Came, Carried};
use audit_model::{Addr, Pair, SightId};
use std::alloc::{AllocError, Global};
use std::collections::{BTreeSet, VecDeque};

/// How often a client's expired permissions and channel bindings are looked for, in nanoseconds:
/// the lifetime of a permission (RFC 8656, section 9).
const INTERVAL: u64 = 300_000_000_000;

/// A client, and when its leases are looked at next.
#[derive(Clone, Copy, Drop)]
struct Due {
    pair: Pair,
    moment: u64,
}

/// The arrivals and clients of a machine, in the order in which it can forget them. No guarantee
/// depends on it: a machine forgets only what no later move depends on.
#[derive(Drop)]
pub struct Upkeep {
    arrivals: VecDeque<Came>,
    clients: VecDeque<Due>,
    /// The clients in `clients`.
    known: BTreeSet<(Addr, Addr)>,
}

impl Upkeep {
    /// Nothing to forget. Allocates no memory.
    pub fn new(alloc: Global) -> Upkeep {
        Upkeep {
            arrivals: VecDeque::new(alloc),
            clients: VecDeque::new(alloc),
            known: BTreeSet::new(alloc),
        }
    }

    /// What a machine will be able to forget that goes on from what was carried over a cut. It
    /// takes n log n time.
    pub fn resume(alloc: Global, carried: &Carried) -> Result<Upkeep, AllocError> {
        let mut upkeep = Upkeep::new(alloc);
        let mut waiting = Vec::from_slice(alloc, &carried.waiting)?;
        waiting.sort_unstable_by_key(|came| came.moment);
        for came in waiting {
            upkeep.arrivals.push_back(came)?;
        }
        for client in &carried.clients {
            let Pair {
                client: address,
                listen,
            } = client.pair;
            if upkeep.known.insert((address, listen))? {
                upkeep.look_later(client.pair, carried.moment)?;
            }
        }
        Ok(upkeep)
    }

    /// Notes a move that the machine made. Moves come in the order of time. It takes logarithmic
    /// time in the number of clients.
    pub fn note(&mut self, action: Action) -> Result<(), AllocError> {
        match action {
            Action::Arrive { sight, moment } => {
                self.arrivals.push_back(Came { sight, moment })?;
            }
            Action::Act { pair, moment, .. } => {
                if self.known.insert((pair.client, pair.listen))? {
                    self.look_later(pair, moment)?;
                }
            }
            Action::Leave { .. } => {}
        }
        Ok(())
    }

    /// Has the client's leases looked at an interval after the moment.
    fn look_later(&mut self, pair: Pair, moment: u64) -> Result<(), AllocError> {
        let moment = moment.saturating_add(INTERVAL);
        self.clients.push_back(Due { pair, moment })?;
        Ok(())
    }

    /// Takes the first arrival, if it is older than the hold at the moment.
    fn take_arrival(&mut self, hold: u64, moment: u64) -> Option<SightId> {
        let first = *self.arrivals.front()?;
        if first.moment.saturating_add(hold) >= moment {
            return None;
        }
        self.arrivals.pop_front();
        Some(first.sight)
    }

    /// Takes the first client, if its leases are to be looked at by the moment.
    fn take_client(&mut self, moment: u64) -> Option<Pair> {
        let first = *self.clients.front()?;
        if first.moment > moment {
            return None;
        }
        self.clients.pop_front();
        Some(first.pair)
    }
}

impl Machine {
    /// Forgets the arrivals that are older than the hold.
    fn forget_arrivals(&mut self, upkeep: &mut Upkeep)
        requires consistent { IsConsistent self.old }
        ensures segment { (key_for : KeyFor) (view : View) (excluded : SightName → Bool) →
            IsSegment self.old.policy key_for view (cut_of self.old excluded) [] (cut_of self.new excluded) }
        ensures consistent { IsConsistent self.new }
        ensures policy { self.new.policy ≡ self.old.policy }
    {
        'arrivals: for _ in 0..upkeep.arrivals.len() {
            let Some(sight) = upkeep.take_arrival(self.policy.hold, self.last) else {
                return;
            };
            self.forget_arrival(sight);
        }
    }

    /// Forgets what is past the grace of a client; returns whether it still has a table.
    fn forget_ended(&mut self, pair: Pair) -> bool
        requires consistent { IsConsistent self.old }
        ensures segment { (key_for : KeyFor) (view : View) (excluded : SightName → Bool) →
            IsSegment self.old.policy key_for view (cut_of self.old excluded) [] (cut_of self.new excluded) }
        ensures consistent { IsConsistent self.new }
        ensures policy { self.new.policy ≡ self.old.policy }
    {
        self.purge_client(pair);
        self.forget_client(pair);
        self.tables.get(pair).is_some()
    }

    /// Forgets what is past the grace of the clients that are due.
    fn forget_clients(&mut self, upkeep: &mut Upkeep) -> Result<(), AllocError>
        requires consistent { IsConsistent self.old }
        ensures segment { (key_for : KeyFor) (view : View) (excluded : SightName → Bool) →
            IsSegment self.old.policy key_for view (cut_of self.old excluded) [] (cut_of self.new excluded) }
        ensures consistent { IsConsistent self.new }
        ensures policy { self.new.policy ≡ self.old.policy }
    {
        'clients: for _ in 0..upkeep.clients.len() {
            let Some(pair) = upkeep.take_client(self.last) else {
                return Ok(());
            };
            if self.forget_ended(pair) {
                upkeep.look_later(pair, self.last)?;
            } else {
                upkeep.known.remove(&(pair.client, pair.listen));
            }
        }
        Ok(())
    }

    /// Forgets the arrivals that are older than the hold, and the allocations, permissions and
    /// channel bindings that are past the grace. Each arrival costs constant time, and each client
    /// every 300 seconds the number of its permissions and channels. After an error the machine is
    /// as good as before, and forgets less. Not proved: that it forgets all of them.
    pub fn forget(&mut self, upkeep: &mut Upkeep) -> Result<(), AllocError>
        requires consistent { IsConsistent self.old }
        ensures segment { (key_for : KeyFor) (view : View) (excluded : SightName → Bool) →
            IsSegment self.old.policy key_for view (cut_of self.old excluded) [] (cut_of self.new excluded) }
        ensures consistent { IsConsistent self.new }
        ensures policy { self.new.policy ≡ self.old.policy }
    {
        self.forget_arrivals(upkeep);
        self.forget_clients(upkeep)
    }
}
