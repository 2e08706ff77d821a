//! A machine is carried over a cut as data, and goes on from it.

ghost use Rattle.std.specs.Prelude.{◌≡◌, Bool, None, IfOk, IfErr, OnOk};
ghost use Rattle.audit_model.specs.declared.pair.Pair.{Pair as Holder};
ghost use Rattle.audit_model.specs.declared.sighting.SightId.{SightId as SightName};
ghost use Rattle.audit_cuts.specs.Carried.{allocation_in, cut_in};
ghost use Rattle.audit_cuts.specs.Rebasing.{bases_of};
ghost use Rattle.audit_machine.specs.Machine.{cut_of, IsConsistent};
ghost use Rattle.audit_machine.specs.Carrying.{or_client, AreOneCut, LacksBase, CanNotAdd, CanNotAddAll, CanNotResume, CanNotBeRebased};
ghost use Rattle.audit_machine.specs.Tables.{allocation_of};

use crate::carry_error::CarryError;
use crate::clients::table_of;
use crate::counts::Counts;
use crate::machine::Machine;
use crate::refusal::Refusal;
use crate::times::Times;
use audit_cuts::{Carried, Client};
use audit_model::Policy;
use std::alloc::Global;

impl Machine {
    /// What no later move can do without. The ids of sightings count from these bases, one for each
    /// interface. It takes time and memory in proportion to what the machine keeps.
    pub fn carried(&self, alloc: Global, bases: &[u64]) -> Result<Carried, CarryError>
        ensures cut { IfOk result (λ carried. (excluded : SightName → Bool) → cut_in carried excluded ≡ cut_of self.now excluded) }
        ensures bases { IfOk result (λ carried. bases_of carried.interfaces.items ≡ bases.now) }
        ensures why { IfErr result (LacksBase self.now.placed bases.now) }
    {
        Ok(Carried {
            moment: self.last,
            clients: self.tables.to_vec(alloc)?,
            waiting: self.waiting.to_vec(alloc)?,
            owed: self.owed.to_vec(alloc)?,
            interfaces: self.placed.interfaces(alloc, bases)?,
        })
    }

    /// Adds the allocation of a client, unless it has one. If another client has its relayed
    /// address, it is refused.
    fn add_client(&mut self, alloc: Global, client: &Client) -> Result<(), CarryError>
        requires consistent { IsConsistent self.old }
        ensures consistent { OnOk result (IsConsistent self.new) }
        ensures tables { OnOk result ((c : Holder) → allocation_of self.new.tables c ≡ or_client (allocation_of self.old.tables c) client.now c) }
        ensures rest { OnOk result (self.new ≡ record self.old { tables = self.new.tables; holders = self.new.holders }) }
        ensures why { IfErr result (CanNotAdd self.old.policy.grace self.old.last (allocation_of self.old.tables) client.now) }
    {
        if self.tables.has_allocation(client.pair) {
            return Ok(());
        }
        let table = table_of(alloc, client)?;
        match self.claim(client.pair, &table, self.last) {
            Ok(()) => {}
            Err(Refusal::Held) => return Err(CarryError::Held),
            Err(_) => return Err(CarryError::Memory),
        }
        self.tables.put_in(client.pair, table)?;
        Ok(())
    }

    /// Adds the allocations of clients; of each client the first one counts.
    fn add_clients(&mut self, alloc: Global, clients: &[Client]) -> Result<(), CarryError>
        requires consistent { IsConsistent self.old }
        requires empty { (c : Holder) → allocation_of self.old.tables c ≡ None }
        ensures consistent { OnOk result (IsConsistent self.new) }
        ensures tables { OnOk result ((c : Holder) → allocation_of self.new.tables c ≡ allocation_in clients.now c) }
        ensures rest { OnOk result (self.new ≡ record self.old { tables = self.new.tables; holders = self.new.holders }) }
        ensures why { IfErr result (CanNotAddAll self.old.policy.grace self.old.last clients.now) }
    {
        for client in clients {
            self.add_client(alloc, client)?;
        }
        Ok(())
    }

    /// A machine that goes on from what was carried over a cut. It is refused if two clients have
    /// usable allocations with one relayed address. It takes n log n time.
    pub fn resume(alloc: Global, policy: Policy, carried: &Carried) -> Result<Machine, CarryError>
        ensures cut { IfOk result (λ machine. (excluded : SightName → Bool) → cut_of machine excluded ≡ cut_in carried.now excluded) }
        ensures consistent { IfOk result IsConsistent }
        ensures policy { IfOk result (λ machine. machine.policy ≡ policy) }
        ensures why { IfErr result (CanNotResume policy.grace carried.now) }
    {
        let mut machine = Machine::new(alloc, policy);
        machine.last = carried.moment;
        machine.add_clients(alloc, &carried.clients)?;
        machine.waiting = Times::resume(alloc, &carried.waiting)?;
        machine.owed = Times::resume(alloc, &carried.owed)?;
        machine.placed = Counts::resume(alloc, &carried.interfaces)?;
        Ok(machine)
    }

    /// A machine in the same state, whose ids of sightings count from other bases, as they do if
    /// the captures are read again from a later place. The cut by ids among all captured sightings
    /// is the same. It fails if an index comes before its other base, or is 2^32 or more above it.
    pub fn rebased(
        &self,
        alloc: Global,
        policy: Policy,
        bases: &[u64],
        others: &[u64],
    ) -> Result<Machine, CarryError>
        ensures cut { IfOk result (λ machine. (excluded : SightName → Bool) → AreOneCut bases.now self.now others.now machine excluded) }
        ensures consistent { IfOk result IsConsistent }
        ensures policy { IfOk result (λ machine. machine.policy ≡ policy) }
        ensures why { IfErr result (CanNotBeRebased policy.grace self.now bases.now others.now) }
    {
        let mut carried = self.carried(alloc, bases)?;
        carried.rebase(alloc, others)?;
        Machine::resume(alloc, policy, &carried)
    }
}
