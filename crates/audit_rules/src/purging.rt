//! What a table may forget: permissions and channel bindings that have expired.

ghost use Rattle.audit_rules.specs.Effect.{standing, tenancy_of};
ghost use Rattle.audit_rules.specs.Purging.{IsPurged, IsPurgedTable};
ghost use Rattle.audit_rules.specs.Seen.{seen};
ghost use Rattle.std.specs.Prelude.{◌≡◌, None};

use crate::table::{Allocation, LaneTable};

impl Allocation {
    // Removes the permissions and channel bindings that are past the grace at the moment.
    fn purge(&mut self, moment: u64, grace: u64)
        ensures purged { IsPurged moment grace (seen self.old) (seen self.new) }
        ensures tenancy { tenancy_of None self.new ≡ tenancy_of None self.old }
    {
        self.permissions.retain(|lease| lease.lasts(moment, grace));
        self.channels
            .retain(|channel| channel.lease.lasts(moment, grace));
    }
}

impl LaneTable {
    /// Removes permissions and channel bindings that are past the grace at the moment (RFC 8656,
    /// sections 9 and 12). No rule depends on them at this moment or a later one. It takes time in
    /// proportion to their number, and allocates no memory.
    pub fn purge(&mut self, moment: u64, grace: u64)
        ensures { IsPurgedTable moment grace (standing self.old) (standing self.new) }
    {
        if let Some(allocation) = &mut self.allocation {
            allocation.purge(moment, grace);
        }
    }
}
