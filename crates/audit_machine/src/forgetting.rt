//! What a machine forgets. No later move depends on it.

ghost use Rattle.std.specs.Prelude.{◌≡◌, ◌<◌, ◌↔◌, [], Bool, None, IsTrue, IsSomeAnd};
ghost use Rattle.audit_model.specs.declared.sighting.SightId.{SightId as SightName};
ghost use Rattle.audit_model.specs.Window.{later};
ghost use Rattle.audit_rules.specs.Keys.{KeyFor};
ghost use Rattle.audit_segments.specs.PastGrace.{HasNoAllocation};
ghost use Rattle.audit_segments.specs.Segment.{View, IsSegment};
ghost use Rattle.audit_machine.specs.Machine.{cut_of, IsConsistent};
ghost use Rattle.audit_machine.specs.Tables.{allocation_of, table_of, AreTablesPurged};
ghost use Rattle.audit_machine.specs.Times.{time_of};

use crate::machine::Machine;
use audit_model::{Pair, SightId};

impl Machine {
    /// Whether the arrival waits and is older than the hold, so that no act may use it.
    fn is_too_old(&self, sight: SightId) -> bool
        ensures { IsTrue result ↔ IsSomeAnd (time_of self.now.waiting sight) (λ came. later came self.now.policy.hold < self.now.last) }
    {
        let Some(came) = self.waiting.get(sight) else {
            return false;
        };
        came.saturating_add(self.policy.hold) < self.last
    }

    /// Forgets an arrival that waits, if it is older than the hold.
    pub fn forget_arrival(&mut self, sight: SightId)
        requires consistent { IsConsistent self.old }
        ensures segment { (key_for : KeyFor) (view : View) (excluded : SightName → Bool) →
            IsSegment self.old.policy key_for view (cut_of self.old excluded) [] (cut_of self.new excluded) }
        ensures consistent { IsConsistent self.new }
        ensures forgotten { IsSomeAnd (time_of self.old.waiting sight) (λ came. later came self.old.policy.hold < self.old.last) → time_of self.new.waiting sight ≡ None }
        ensures policy { self.new.policy ≡ self.old.policy }
    {
        if self.is_too_old(sight) {
            self.waiting.remove(sight);
        }
    }

    /// Whether a client has no allocation, or one that is past the grace.
    fn has_no_allocation(&self, pair: Pair) -> bool
        ensures { IsTrue result ↔ HasNoAllocation self.now.policy.grace self.now.last (allocation_of self.now.tables pair) }
    {
        let Some(table) = self.tables.get(pair) else {
            return true;
        };
        let Some(allocation) = table.allocation() else {
            return true;
        };
        if allocation.lease.usable(self.last, self.policy.grace) {
            return false;
        }
        allocation.lease.gone(self.last)
    }

    /// Forgets a client that has no allocation, or one that is past the grace.
    pub fn forget_client(&mut self, pair: Pair)
        requires consistent { IsConsistent self.old }
        ensures segment { (key_for : KeyFor) (view : View) (excluded : SightName → Bool) →
            IsSegment self.old.policy key_for view (cut_of self.old excluded) [] (cut_of self.new excluded) }
        ensures consistent { IsConsistent self.new }
        ensures forgotten { HasNoAllocation self.old.policy.grace self.old.last (allocation_of self.old.tables pair) → table_of self.new.tables pair ≡ None }
        ensures policy { self.new.policy ≡ self.old.policy }
    {
        if self.has_no_allocation(pair) {
            self.tables.drop_table(pair);
        }
    }

    /// Forgets the permissions and channel bindings of a client that are past the grace. It takes
    /// time in proportion to their number.
    pub fn purge_client(&mut self, pair: Pair)
        requires consistent { IsConsistent self.old }
        ensures segment { (key_for : KeyFor) (view : View) (excluded : SightName → Bool) →
            IsSegment self.old.policy key_for view (cut_of self.old excluded) [] (cut_of self.new excluded) }
        ensures consistent { IsConsistent self.new }
        ensures purged { AreTablesPurged self.old.last self.old.policy.grace (table_of self.old.tables pair) (table_of self.new.tables pair) }
        ensures policy { self.new.policy ≡ self.old.policy }
    {
        self.tables.purge(pair, self.last, self.policy.grace);
    }
}
