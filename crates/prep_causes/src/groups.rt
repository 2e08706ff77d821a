//! All groups of unread packets.

ghost use Rattle.std.specs.Prelude.{◌≡◌, ◌<◌, ℕ, IfOk, length, get_or};
ghost use Rattle.prep_causes.specs.Groups.{no_group, AreNoGroups, carried_with, group_with_at};

use crate::causes::CauseNumber;
use crate::half::Reach;
use crate::unread::{Group, Unread};
use std::alloc::{AllocError, Global};

/// The packets so far in each group.
#[derive(Debug, Drop)]
pub struct Groups {
    groups: Vec<Group>,
}

impl Groups {
    /// This count of groups, with no packet in any of them.
    pub fn new(alloc: Global, count: usize) -> Result<Self, AllocError>
        ensures { IfOk result (λ groups. AreNoGroups groups.groups.items count) }
    {
        Ok(Groups {
            groups: vec![in alloc; Group::none(); count]?,
        })
    }

    /// Adds a packet to a group; to none if no group has that number.
    pub fn add(&mut self, number: CauseNumber, unread: Unread)
        ensures len { length self.new.groups.items ≡ length self.old.groups.items }
        ensures groups { (other : ℕ) → other < length self.old.groups.items →
            get_or self.new.groups.items other no_group ≡ group_with_at number unread other (get_or self.old.groups.items other no_group) }
    {
        let at = number as usize;
        if at < self.groups.len() {
            self.groups[at] = self.groups[at].with(unread);
        }
    }

    /// The number of departures that the carriers of their group can have carried. The cost is the
    /// number of groups.
    pub fn carried(&self, reach: Reach) -> u64
        ensures { result ≡ carried_with 0 reach self.now.groups.items }
    {
        let mut carried = 0u64;
        for group in &self.groups {
            if group.is_carried(reach) {
                carried = carried.saturating_add(group.departures.count);
            }
        }
        carried
    }
}
