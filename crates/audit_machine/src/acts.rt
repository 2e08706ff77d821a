//! One server's state, changed move by move: acts.

ghost use Rattle.std.specs.Prelude.{◌≡◌, ◌≤◌, Bool, false, Some, None, OnOk, OnErr, IfOk, IfErr, IfSome, IsSomeAnd, IsTrue, ◌↔◌};
ghost use Rattle.audit_model.specs.declared.pair.Pair.{Pair as Client};
ghost use Rattle.audit_model.specs.declared.sighting.SightId.{SightId as SightName};
ghost use Rattle.audit_model.specs.Sames.{same_client};
ghost use Rattle.audit_model.specs.Window.{later};
ghost use Rattle.audit_rules.specs.Allocation.{applied};
ghost use Rattle.audit_rules.specs.Answer.{MayAnswer};
ghost use Rattle.audit_rules.specs.Effect.{standing};
ghost use Rattle.audit_rules.specs.Keys.{KeyFor};
ghost use Rattle.audit_rules.specs.Said.{change_in};
ghost use Rattle.audit_rules.specs.Seen.{key_in, situation_of};
ghost use Rattle.audit_server.specs.Run.{HasAddress};
ghost use Rattle.audit_server.specs.State.{put};
ghost use Rattle.audit_server.specs.Step.{Act};
ghost use Rattle.audit_segments.specs.Segment.{View, IsSegment};
ghost use Rattle.audit_machine.specs.declared.refusal.Refusal.TheVariants.{Held};
ghost use Rattle.audit_machine.specs.Carrying.{IsHeldBeside, IsHeldFor};
ghost use Rattle.audit_machine.specs.Counts.{count_of};
ghost use Rattle.audit_machine.specs.Holders.{holder_of};
ghost use Rattle.audit_machine.specs.Keys.{AgreeInRequest};
ghost use Rattle.audit_machine.specs.Machine.{cut_of, IsConsistent, AreHeld, AreOthersHeld, IfUsable, IsFreeFor, one_step, IsFatal, IsUnmovedUnlessFatal, IsJudged, IsTableOf};
ghost use Rattle.audit_machine.specs.Tables.{allocation_of, table_of, AreOwn};
ghost use Rattle.audit_machine.specs.Times.{time_of};

use crate::machine::{Machine, is_in_time};
use crate::refusal::Refusal;
use audit_model::{Addr, At, Key, Pair, Policy, SightId, Sighting};
use audit_rules::{ActFault, CredRow, LaneTable, act};
use std::alloc::Global;

impl Machine {
    /// Whether a client has a usable allocation with this relayed address.
    fn has_address(&self, pair: Pair, relayed: Addr, moment: u64) -> bool
        ensures { IsTrue result ↔ HasAddress self.now.policy.grace moment relayed (allocation_of self.now.tables pair) }
    {
        let Some(table) = self.tables.get(pair) else {
            return false;
        };
        let Some(allocation) = table.allocation() else {
            return false;
        };
        if allocation.relayed != relayed {
            return false;
        }
        allocation.lease.usable(moment, self.policy.grace)
    }

    /// Whether no other client has a usable allocation with this relayed address.
    fn is_free(&self, pair: Pair, relayed: Addr, moment: u64) -> bool
        requires held { AreHeld self.now.tables self.now.holders self.now.policy.grace self.now.last }
        requires order { self.now.last ≤ moment }
        ensures free { IsTrue result → IsFreeFor self.now.tables self.now.policy.grace moment pair relayed }
        ensures held { result ≡ false → IsHeldBeside self.now.policy.grace moment (allocation_of self.now.tables) pair relayed }
    {
        let Some(holder) = self.holders.get(relayed) else {
            return true;
        };
        if holder == pair {
            return true;
        }
        !self.has_address(holder, relayed, moment)
    }

    /// Notes that a client has the relayed address of its table, unless another client has it.
    pub(crate) fn claim(
        &mut self,
        pair: Pair,
        table: &LaneTable,
        moment: u64,
    ) -> Result<(), Refusal>
        requires held { AreHeld self.old.tables self.old.holders self.old.policy.grace self.old.last }
        requires order { self.old.last ≤ moment }
        ensures free { OnOk result (IfUsable self.old.policy.grace moment (standing table.now).allocation (λ a. IsFreeFor self.old.tables self.old.policy.grace moment pair a.relayed)) }
        ensures noted { OnOk result (IfUsable self.old.policy.grace moment (standing table.now).allocation (λ a. holder_of self.new.holders a.relayed ≡ Some pair)) }
        ensures others { OnOk result (AreOthersHeld pair self.old.tables self.new.holders self.old.policy.grace moment) }
        ensures refused { IfErr result (λ refusal. (IsFatal refusal → ⊥) → self.new ≡ self.old) }
        ensures why { IfErr result (λ refusal. refusal ≡ Held → IsHeldFor self.old.policy.grace moment (allocation_of self.old.tables) pair (standing table.now).allocation) }
        ensures rest { self.new ≡ record self.old { holders = self.new.holders } }
    {
        let Some(allocation) = table.allocation() else {
            return Ok(());
        };
        if !allocation.lease.usable(moment, self.policy.grace) {
            return Ok(());
        }
        let relayed = allocation.relayed;
        if !self.is_free(pair, relayed, moment) {
            return Err(Refusal::Held);
        }
        self.holders.put(relayed, pair)?;
        Ok(())
    }

    /// The moment at which the arrival came, if an act may use it and send the departure.
    fn answerable(&self, arrives: SightId, leaves: SightId, moment: u64) -> Result<u64, Refusal>
        ensures came { IfOk result (λ came. time_of self.now.waiting arrives ≡ Some came) }
        ensures in_time { IfOk result (λ came. moment ≤ later came self.now.policy.hold) }
        ensures not_owed { OnOk result (time_of self.now.owed leaves ≡ None) }
        ensures not_placed { OnOk result (count_of self.now.placed leaves.iface ≤ leaves.index) }
    {
        let Some(came) = self.waiting.get(arrives) else {
            return Err(Refusal::NotWaiting);
        };
        if !is_in_time(self.policy.hold, came, moment) {
            return Err(Refusal::NotWaiting);
        }
        if self.owed.get(leaves).is_some() || leaves.index < self.placed.get(leaves.iface) {
            return Err(Refusal::Sent);
        }
        Ok(came)
    }
}

/// Judges an act by the client's table, and changes the table.
fn judge(
    alloc: Global,
    policy: &Policy,
    table: &mut LaneTable,
    users: &[CredRow<'_>],
    arrives: &Sighting,
    leaves: &Sighting,
    moment: u64,
) -> Result<(), Refusal>
    ensures may { OnOk result (let x = situation_of table.old users.now policy.now arrives.now leaves.now moment in MayAnswer x (change_in x)) }
    ensures after { OnOk result ((standing table.new).allocation ≡ applied (change_in (situation_of table.old users.now policy.now arrives.now leaves.now moment)) (standing table.old).allocation) }
    ensures client { OnOk result ((standing table.new).client ≡ (standing table.old).client) }
    ensures listen { OnOk result ((standing table.new).listen ≡ (standing table.old).listen) }
    ensures err { OnErr result (standing table.new ≡ standing table.old) }
{
    let at = At {
        key: Key { moment, tie: 0 },
        lane: 0,
        place: 0,
    };
    match act(alloc, table, users, policy, arrives, leaves, at) {
        Ok(_) => Ok(()),
        Err(ActFault::Broken(rule)) => Err(Refusal::Broken(rule)),
        Err(ActFault::Memory) => Err(Refusal::Memory),
    }
}

impl Machine {
    /// Puts the table of a client back, and returns the refusal.
    fn put_back(&mut self, pair: Pair, table: LaneTable, refusal: Refusal) -> Refusal
        ensures back { (IsFatal result → ⊥) → (c : Client) → table_of self.new.tables c ≡ put same_client (table_of self.old.tables) pair (Some table) c }
        ensures rest { self.new ≡ record self.old { tables = self.new.tables } }
    {
        match self.tables.put_in(pair, table) {
            Ok(()) => refusal,
            Err(_) => Refusal::Memory,
        }
    }

    /// Takes the client's table out, judges an act by it, and returns the table after the act. If
    /// the act breaks a rule, it puts the table back.
    fn table_after(
        &mut self,
        alloc: Global,
        pair: Pair,
        users: &[CredRow<'_>],
        arrives: &Sighting,
        leaves: &Sighting,
        moment: u64,
    ) -> Result<LaneTable, Refusal>
        requires consistent { IsConsistent self.old }
        ensures before { IfOk result (λ table. IsJudged self.old pair users.now arrives.now leaves.now moment table) }
        ensures removed { OnOk result ((c : Client) → table_of self.new.tables c ≡ put same_client (table_of self.old.tables) pair None c) }
        ensures rest { OnOk result (self.new ≡ record self.old { tables = self.new.tables }) }
        ensures policy { self.new.policy ≡ self.old.policy }
        ensures refused { IfErr result (IsUnmovedUnlessFatal self.old self.new) }
    {
        let mut table = self.tables.take_out(pair);
        match judge(
            alloc,
            &self.policy,
            &mut table,
            users,
            arrives,
            leaves,
            moment,
        ) {
            Ok(()) => Ok(table),
            Err(refusal) => Err(self.put_back(pair, table, refusal)),
        }
    }

    /// A copy of the client's table, if the departure may be an Allocate success response (RFC
    /// 8656, section 7.2).
    fn copy_for(
        &self,
        alloc: Global,
        pair: Pair,
        leaves: &Sighting,
    ) -> Result<Option<LaneTable>, Refusal>
        requires own { AreOwn self.now.tables }
        ensures { IfOk result (λ copy. IfSome copy (λ table. IsTableOf self.now.tables pair table)) }
    {
        if !leaves.payload.as_slice().starts_with(&[1, 3]) {
            return Ok(None);
        }
        let Some(table) = self.tables.get(pair) else {
            return Ok(Some(LaneTable::new(0, pair.client, pair.listen)));
        };
        match table.copied(alloc) {
            Ok(copy) => Ok(Some(copy)),
            Err(_) => Err(Refusal::Memory),
        }
    }

    /// Puts the copy of a client's table back, if there is one.
    fn restore(&mut self, pair: Pair, before: Option<LaneTable>, refusal: Refusal) -> Refusal
        ensures back { (IsFatal result → ⊥) → IsSomeAnd before (λ table. (c : Client) → table_of self.new.tables c ≡ put same_client (table_of self.old.tables) pair (Some table) c) }
        ensures rest { self.new ≡ record self.old { tables = self.new.tables } }
    {
        match before {
            Some(table) => self.put_back(pair, table, refusal),
            None => Refusal::TableLost,
        }
    }

    /// Notes that a client has the relayed address of its table. If another client has it, it
    /// restores the table before the act.
    fn claim_or_restore(
        &mut self,
        pair: Pair,
        table: &LaneTable,
        before: Option<LaneTable>,
        moment: u64,
    ) -> Result<(), Refusal>
        requires held { AreHeld self.old.tables self.old.holders self.old.policy.grace self.old.last }
        requires order { self.old.last ≤ moment }
        ensures free { OnOk result (IfUsable self.old.policy.grace moment (standing table.now).allocation (λ a. IsFreeFor self.old.tables self.old.policy.grace moment pair a.relayed)) }
        ensures noted { OnOk result (IfUsable self.old.policy.grace moment (standing table.now).allocation (λ a. holder_of self.new.holders a.relayed ≡ Some pair)) }
        ensures others { OnOk result (AreOthersHeld pair self.old.tables self.new.holders self.old.policy.grace moment) }
        ensures rest { OnOk result (self.new ≡ record self.old { holders = self.new.holders }) }
        ensures policy { self.new.policy ≡ self.old.policy }
        ensures refused { IfErr result (λ refusal. (IsFatal refusal → ⊥) → (self.new ≡ record self.old { tables = self.new.tables })
            × IsSomeAnd before (λ had. (c : Client) → table_of self.new.tables c ≡ put same_client (table_of self.old.tables) pair (Some had) c)) }
    {
        match self.claim(pair, table, moment) {
            Ok(()) => Ok(()),
            Err(Refusal::Held) => Err(self.restore(pair, before, Refusal::Held)),
            Err(_) => Err(Refusal::Memory),
        }
    }

    /// Applies an act: the server acts on an arrival, for a client, and sends a departure. `users`
    /// is the user that the arrival names, if the credentials have it.
    pub fn act(
        &mut self,
        alloc: Global,
        pair: Pair,
        users: &[CredRow<'_>],
        arrives: &Sighting,
        leaves: &Sighting,
        moment: u64,
    ) -> Result<(), Refusal>
        requires consistent { IsConsistent self.old }
        ensures segment { OnOk result ((key_for : KeyFor) (view : View) (excluded : SightName → Bool) → AgreeInRequest (key_in users.now) key_for arrives.now.payload →
            view arrives.now.id ≡ Some arrives.now → view leaves.now.id ≡ Some leaves.now → excluded arrives.now.id ≡ false → excluded leaves.now.id ≡ false →
            IsSegment self.old.policy key_for view (cut_of self.old excluded) (one_step moment (Act pair arrives.now.id leaves.now.id)) (cut_of self.new excluded)) }
        ensures consistent { OnOk result (IsConsistent self.new) }
        ensures refused { IfErr result (IsUnmovedUnlessFatal self.old self.new) }
        ensures policy { self.new.policy ≡ self.old.policy }
    {
        if moment < self.last {
            return Err(Refusal::Order);
        }
        let came = self.answerable(arrives.id, leaves.id, moment)?;
        let before = self.copy_for(alloc, pair, leaves)?;
        let table = self.table_after(alloc, pair, users, arrives, leaves, moment)?;
        self.claim_or_restore(pair, &table, before, moment)?;
        self.tables.put_in(pair, table)?;
        self.waiting.remove(arrives.id);
        self.owed.put(leaves.id, came)?;
        self.last = moment;
        Ok(())
    }
}
