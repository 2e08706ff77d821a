//! The last moments of responses whose leases must expire before a departure.

use super::SearchInput;
use audit_seen::{Content, SeenNumber, Slot};

/// The nanoseconds of a second.
const SECOND: u64 = 1_000_000_000;

/// The lifetime of a permission, in seconds (RFC 8656, section 9).
const PERMISSION: u64 = 300;

/// The lifetime of a channel binding, in seconds (RFC 8656, section 12).
const CHANNEL: u64 = 600;

impl SearchInput<'_> {
    /// The last moment at which a response may be sent so that its lease expires before a
    /// departure.
    pub fn latest_before(&self, answer: SeenNumber, departure: SeenNumber) -> Option<u64> {
        let lease = lease_of(self.content(answer)?)?;
        let grace = self.policy().grace;
        let until = self.at(departure).checked_sub(lease)?;
        until.checked_sub(grace)?.checked_sub(1)
    }

    /// The latest slot, and its moment, at which a response may be sent so that its lease expires
    /// before a departure.
    pub fn slot_before(&self, answer: SeenNumber, departure: SeenNumber) -> Option<(Slot, u64)> {
        let latest = self.latest_before(answer, departure)?;
        let order = self.in_order();
        let count = order.partition_point(|one| self.at(*one) <= latest);
        let last = *order.get(count.checked_sub(1)?)?;
        Some((Slot::after(self.rank(last)), self.at(last)))
    }
}

/// The length of the lease that a response grants, in nanoseconds (RFC 8656, sections 7.2, 9 and
/// 12).
fn lease_of(content: Content) -> Option<u64> {
    let seconds = match content {
        Content::Allocated { seconds, .. } | Content::Refreshed { seconds } => u64::from(seconds),
        Content::Bound => CHANNEL,
        Content::Permitted => PERMISSION,
        _ => return None,
    };
    Some(seconds.saturating_mul(SECOND))
}
