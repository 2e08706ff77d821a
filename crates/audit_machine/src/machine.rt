//! One server's state, changed move by move: arrivals and departures.

ghost use Rattle.std.specs.Prelude.{◌≡◌, ◌≤◌, ◌+◌, ◌<◌, ℕ, Bool, false, true, Some, None, OnOk, IfErr, IsSomeAnd, IsTrue, ◌↔◌, [], nat_eq};
ghost use Rattle.audit_model.specs.declared.sighting.SightId.{SightId as SightName};
ghost use Rattle.audit_model.specs.declared.sighting.Side.{Side as Way};
ghost use Rattle.audit_model.specs.Window.{later};
ghost use Rattle.audit_rules.specs.Keys.{KeyFor};
ghost use Rattle.audit_server.specs.State.{put};
ghost use Rattle.audit_server.specs.Step.{In, Out};
ghost use Rattle.audit_segments.specs.Cut.{empty_cut};
ghost use Rattle.audit_segments.specs.Segment.{View, IsSegment};
ghost use Rattle.audit_machine.specs.Counts.{count_of};
ghost use Rattle.audit_machine.specs.Machine.{cut_of, IsConsistent, one_step, IsFatal, IsUnmovedUnlessFatal};
ghost use Rattle.audit_machine.specs.Times.{time_of};

use crate::counts::Counts;
use crate::holders::Holders;
use crate::refusal::Refusal;
use crate::tables::Tables;
use crate::times::Times;
use audit_model::{Policy, Side, SightId, Sighting};
use std::alloc::Global;

/// One server's state, without the parts that no later move depends on.
#[derive(Drop)]
pub struct Machine {
    pub(crate) policy: Policy,
    pub(crate) tables: Tables,
    pub(crate) holders: Holders,
    /// Arrivals that no act has used, with the moments at which they came.
    pub(crate) waiting: Times,
    /// Departures that were sent and have not left, with the moments at which their arrivals came.
    pub(crate) owed: Times,
    /// The number of placed sightings of each interface.
    pub(crate) placed: Counts,
    /// The moment of the last move.
    pub(crate) last: u64,
}

/// Whether the sighting has that direction, and the moment is in its window.
fn is_seen(sighting: &Sighting, side: Side, moment: u64) -> bool
    ensures { IsTrue result → (sighting.now.side ≡ side) × (sighting.now.lo ≤ moment) × (moment ≤ sighting.now.hi) }
{
    if sighting.side != side {
        return false;
    }
    if moment < sighting.lo {
        return false;
    }
    moment <= sighting.hi
}

/// Whether a moment is at most the hold after the moment at which an arrival came.
pub(crate) fn is_in_time(hold: u64, came: u64, moment: u64) -> bool
    ensures { IsTrue result ↔ (moment ≤ later came hold) }
{
    moment <= came.saturating_add(hold)
}

impl Machine {
    /// A server with an empty table, before the first move. Allocates no memory.
    pub fn new(alloc: Global, policy: Policy) -> Machine
        ensures policy { result.policy ≡ policy }
        ensures start { cut_of result (λ _. false) ≡ empty_cut }
        ensures consistent { IsConsistent result }
    {
        Machine {
            policy,
            tables: Tables::new(alloc),
            holders: Holders::new(alloc),
            waiting: Times::new(alloc),
            owed: Times::new(alloc),
            placed: Counts::new(alloc),
            last: 0,
        }
    }

    /// Skips the next sighting of its interface, which is excluded.
    pub fn skip(&mut self, sight: SightId) -> Result<(), Refusal>
        requires consistent { IsConsistent self.old }
        ensures segment { OnOk result ((key_for : KeyFor) (view : View) (excluded : SightName → Bool) → excluded sight ≡ true →
            IsSegment self.old.policy key_for view (cut_of self.old excluded) [] (cut_of self.new excluded)) }
        ensures placed { OnOk result (count_of self.new.placed sight.iface ≡ sight.index + 1) }
        ensures consistent { OnOk result (IsConsistent self.new) }
        ensures policy { self.new.policy ≡ self.old.policy }
    {
        self.place(sight)
    }

    /// Notes that the next sighting of its interface is placed, if it is the next one.
    pub(crate) fn place(&mut self, sight: SightId) -> Result<(), Refusal>
        ensures next { OnOk result (sight.index ≡ count_of self.old.placed sight.iface) }
        ensures placed { OnOk result ((iface : ℕ) → count_of self.new.placed iface ≡ put nat_eq (count_of self.old.placed) sight.iface (sight.index + 1) iface) }
        ensures rest { self.new ≡ record self.old { placed = self.new.placed } }
        ensures refused { IfErr result (λ refusal. (IsFatal refusal → ⊥) → self.new ≡ self.old) }
    {
        if sight.index != self.placed.get(sight.iface) || sight.index == u32::MAX {
            return Err(Refusal::Next);
        }
        let next = sight.index + 1;
        self.placed.put(sight.iface, next)?;
        Ok(())
    }

    /// Applies an arrival at a moment.
    pub fn arrive(&mut self, sighting: &Sighting, moment: u64) -> Result<(), Refusal>
        requires consistent { IsConsistent self.old }
        ensures segment { OnOk result ((key_for : KeyFor) (view : View) (excluded : SightName → Bool) → view sighting.now.id ≡ Some sighting.now → excluded sighting.now.id ≡ false →
            IsSegment self.old.policy key_for view (cut_of self.old excluded) (one_step moment (In sighting.now.id)) (cut_of self.new excluded)) }
        ensures consistent { OnOk result (IsConsistent self.new) }
        ensures refused { IfErr result (IsUnmovedUnlessFatal self.old self.new) }
        ensures policy { self.new.policy ≡ self.old.policy }
    {
        if moment < self.last {
            return Err(Refusal::Order);
        }
        if !is_seen(sighting, Side::Arrives, moment) {
            return Err(Refusal::Window);
        }
        self.place(sighting.id)?;
        self.waiting.put(sighting.id, moment)?;
        self.last = moment;
        Ok(())
    }

    /// Checks that the departure is owed and may leave at the moment.
    fn owed_in_time(&self, sight: SightId, moment: u64) -> Result<(), Refusal>
        ensures { OnOk result (IsSomeAnd (time_of self.now.owed sight) (λ came. moment ≤ later came self.now.policy.hold)) }
    {
        let Some(came) = self.owed.get(sight) else {
            return Err(Refusal::NotOwed);
        };
        if is_in_time(self.policy.hold, came, moment) {
            Ok(())
        } else {
            Err(Refusal::NotOwed)
        }
    }

    /// Applies a departure at a moment.
    pub fn leave(&mut self, sighting: &Sighting, moment: u64) -> Result<(), Refusal>
        requires consistent { IsConsistent self.old }
        ensures segment { OnOk result ((key_for : KeyFor) (view : View) (excluded : SightName → Bool) → view sighting.now.id ≡ Some sighting.now → excluded sighting.now.id ≡ false →
            IsSegment self.old.policy key_for view (cut_of self.old excluded) (one_step moment (Out sighting.now.id)) (cut_of self.new excluded)) }
        ensures consistent { OnOk result (IsConsistent self.new) }
        ensures refused { IfErr result (IsUnmovedUnlessFatal self.old self.new) }
        ensures policy { self.new.policy ≡ self.old.policy }
    {
        if moment < self.last {
            return Err(Refusal::Order);
        }
        if !is_seen(sighting, Side::Leaves, moment) {
            return Err(Refusal::Window);
        }
        self.owed_in_time(sighting.id, moment)?;
        self.place(sighting.id)?;
        self.owed.remove(sighting.id);
        self.last = moment;
        Ok(())
    }
}
