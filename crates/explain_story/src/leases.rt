//! The leases that a client had before an act.

use crate::line::{Line, Story};
use crate::scene::Scene;
use audit_model::Rule;
use audit_stun::message;
use audit_stun::numbers::attribute::LIFETIME;
use explain_state::{GrantAct, LeaseKind, LeaseRow};
use explain_text::Exactly;
use std::alloc::AllocError;

/// How many of the ended allocations are listed: the last ones.
const MOST_ENDED: usize = 4;

/// The lifetime of a permission (RFC 8656, section 9), in nanoseconds.
const PERMISSION: u64 = 300_000_000_000;

/// The lifetime of a channel binding (RFC 8656, section 12), in nanoseconds.
const CHANNEL: u64 = 600_000_000_000;

/// The nanoseconds of a second.
const SECOND: u64 = 1_000_000_000;

/// Whether the client's leases matter to a rule.
pub fn needs_leases(rule: Rule) -> bool {
    matches!(
        rule,
        Rule::OtherUser
            | Rule::NoAllocation
            | Rule::AllocationOver
            | Rule::NoPermission
            | Rule::PermissionOver
            | Rule::NoChannel
            | Rule::ChannelOver
            | Rule::ChannelConflict
            | Rule::PeerDiffers
            | Rule::RelayedAddress
            | Rule::ErrorCondition
            | Rule::AllocationPresent
    )
}

/// The permission for the peer that an act is about.
pub fn permission_of(scene: &Scene<'_>) -> Option<LeaseRow> {
    scene.lane.permission(scene.peer()?.ip)
}

/// The channel that an act is about.
pub fn channel_of(scene: &Scene<'_>) -> Option<LeaseRow> {
    scene.lane.channel(scene.channel()?)
}

/// Adds the allocations that have ended.
fn add_ended(scene: &Scene<'_>, story: &mut Story) -> Result<(), AllocError> {
    let ended = scene.lane.ended();
    let passed_over = ended.len().saturating_sub(MOST_ENDED);
    if passed_over > 0 {
        let alloc = story.alloc();
        story.say(format!(in alloc; "  {passed_over} earlier allocations")?)?;
    }
    for one in ended.get(passed_over..).unwrap_or(&[]) {
        story.add(Line::Ended(*one))?;
    }
    Ok(())
}

/// Adds the channel of the peer that an act is about, if it has another number.
fn add_peers_channel(scene: &Scene<'_>, story: &mut Story) -> Result<(), AllocError> {
    let Some(peer) = scene.peer() else {
        return Ok(());
    };
    let Some(row) = scene.lane.channel_of(story.alloc(), peer)? else {
        return Ok(());
    };
    if let LeaseKind::Channel { number, .. } = row.kind {
        if Some(number) == scene.channel() {
            return Ok(());
        }
    }
    story.add(Line::Lease(row))
}

/// Adds the client's leases before an act.
pub fn add_leases(scene: &Scene<'_>, rule: Rule, story: &mut Story) -> Result<(), AllocError> {
    let allocation = scene.lane.allocation();
    if allocation.is_none() || matches!(rule, Rule::ErrorCondition | Rule::AllocationPresent) {
        add_ended(scene, story)?;
    }
    let is_asked = rule != Rule::RelayedAddress;
    if is_asked && allocation.is_none() && scene.lane.ended().is_empty() {
        story.put("  it had no allocation before in these captures")?;
    }
    story.lease(allocation)?;
    story.lease(channel_of(scene))?;
    if rule == Rule::ChannelConflict {
        add_peers_channel(scene, story)?;
    }
    story.lease(permission_of(scene))
}

/// The lifetime of the lease that an act granted, in nanoseconds.
fn length_of(scene: &Scene<'_>, row: &LeaseRow) -> Option<u64> {
    match row.kind {
        LeaseKind::Permission { .. } => Some(PERMISSION),
        LeaseKind::Channel { .. } => Some(CHANNEL),
        LeaseKind::Allocation { .. } => lifetime_in(scene, &row.last),
    }
}

/// The LIFETIME of an act's response, in nanoseconds.
fn lifetime_in(scene: &Scene<'_>, act: &GrantAct) -> Option<u64> {
    let success = scene.case.intake.sighting(act.leaves)?;
    let told = message(success.payload.as_slice())?;
    let [a, b, c, d] = told.first(LIFETIME)? else {
        return None;
    };
    let seconds = u64::from(u32::from_be_bytes([*a, *b, *c, *d]));
    Some(seconds.saturating_mul(SECOND))
}

/// The least time by which a lease had expired at the arrival, by the stamps of its last act and of
/// the arrival. The act happened no later than its success response may have left.
fn over_by_at_least(scene: &Scene<'_>, row: &LeaseRow) -> Option<u64> {
    let success = scene.case.intake.sighting(row.last.leaves)?;
    let length = length_of(scene, row)?;
    let grace = scene.case.intake.policy().grace;
    let last = success.hi.checked_add(length)?.checked_add(grace)?;
    if scene.arrives.lo <= last {
        return None;
    }
    Some(scene.arrives.lo - last)
}

/// The expired lease that violates a rule.
fn over_by(scene: &Scene<'_>, rule: Rule) -> Option<LeaseRow> {
    match rule {
        Rule::AllocationOver => scene.lane.allocation(),
        Rule::PermissionOver => permission_of(scene),
        Rule::ChannelOver => channel_of(scene),
        _ => None,
    }
}

/// Adds whether other moments could avoid the expiry of a lease.
pub fn add_margin(scene: &Scene<'_>, rule: Rule, story: &mut Story) -> Result<(), AllocError> {
    let Some(row) = over_by(scene, rule) else {
        return Ok(());
    };
    let alloc = story.alloc();
    let renewed = if row.renewals == 0 {
        "never renewed"
    } else {
        "not renewed since"
    };
    match over_by_at_least(scene, &row) {
        Some(nanoseconds) => {
            let over = Exactly { nanoseconds };
            story.say(format!(in alloc;
                "  {renewed}; by no choice of moments within the skew is it less than {over}"
            )?)
        }
        None => story.say(format!(in alloc; "  {renewed}")?),
    }
}
