//! Changes a table.

ghost use Rattle.std.specs.Prelude.{◌≡◌, Some, None, option_map, OnOk, OnErr, IfOk, IfSome, IsSome};
ghost use Rattle.std.specs.Ordering.{nat_cmp};
ghost use Rattle.audit_expiry.specs.Leases.{value_at, Puts, Removes};
ghost use Rattle.audit_model.specs.Window.{later};
ghost use Rattle.audit_rules.specs.Allocation.{with_granted, with_bound, renewed};
ghost use Rattle.audit_rules.specs.Allocating.{seconds_after};
ghost use Rattle.audit_rules.specs.Effect.{standing, tenancy_of, change_of, refreshed};
ghost use Rattle.audit_rules.specs.Tenancies.{stopped_at};
ghost use Rattle.audit_rules.specs.Changes.{IsChanged, Becomes};
ghost use Rattle.audit_rules.specs.declared.effect.Effect.TheVariants as effects;
ghost use Rattle.audit_rules.specs.Seen.{seen};

use crate::allocate::Made;
use crate::channel_bind::Bound;
use crate::effect::Effect;
use crate::table::{Allocation, Channel, LaneTable};
use audit_expiry::{Lease, Leases};
use audit_model::{At, Key, Listed, SightId, Tenancy};
use std::alloc::{AllocError, Global};

const NANOSECONDS: u64 = 1_000_000_000;

/// How long a permission lasts (RFC 8656, section 9).
const PERMISSION_SECONDS: u32 = 300;

/// How long a channel lasts (RFC 8656, section 12).
const CHANNEL_SECONDS: u32 = 600;

/// The place of the act that changes a table.
#[derive(Clone, Copy)]
pub struct ActAt {
    pub at: At,
    /// The act's arrival.
    pub sight: SightId,
    /// The grace of the policy, in nanoseconds.
    pub grace: u64,
}

/// The lease that lasts for this number of seconds from the moment on.
fn lease_for(moment: u64, seconds: u32) -> Lease
    ensures { result ≡ record { until = seconds_after moment seconds } }
{
    Lease::lasting(moment, u64::from(seconds) * NANOSECONDS)
}

/// The tenancy of the current allocation, ended at this key.
fn stopped(table: &LaneTable, key: Key) -> Option<Tenancy>
    ensures { result ≡ option_map (stopped_at key) (standing table.now).tenancy }
{
    let found = table.allocation.as_ref()?;
    Some(Tenancy {
        born: found.born,
        stopped: Some(key),
        last: found.last,
        relayed: found.relayed,
        sight: found.sight,
    })
}

/// Makes a new allocation in place of any other.
fn make(
    alloc: Global,
    table: &mut LaneTable,
    act: ActAt,
    made: Made<'_>,
    id: [u8; 12],
) -> Result<Option<Tenancy>, AllocError>
    ensures ok { IfOk result (λ ended. IsChanged act.grace act.at act.sight (change_of act.at.key.moment (effects.Makes made.entry id)) (standing table.old) (standing table.new) ended) }
    ensures err { OnErr result (table.new ≡ table.old) }
{
    let user = Vec::from_slice(alloc, made.user)?;
    let ended = stopped(table, act.at.key);
    let lease = lease_for(act.at.key.moment, made.seconds);
    table.allocation = Some(Allocation {
        permissions: Leases::new(alloc),
        channels: Leases::new(alloc),
        user: Listed::from(user),
        lease,
        last: lease.until.saturating_add(act.grace),
        born: act.at,
        sight: act.sight,
        relayed: made.relayed,
        id,
    });
    Ok(ended)
}

/// Renews the allocation, or removes it.
fn refresh(table: &mut LaneTable, act: ActAt, seconds: u32) -> Option<Tenancy>
    ensures { IsChanged act.grace act.at act.sight (refreshed act.at.key.moment seconds) (standing table.old) (standing table.new) result }
{
    if seconds == 0 {
        let ended = stopped(table, act.at.key);
        table.allocation = None;
        return ended;
    }
    if let Some(found) = &mut table.allocation {
        let lease = lease_for(act.at.key.moment, seconds);
        found.lease = lease;
        found.last = lease.until.saturating_add(act.grace);
    }
    None
}

/// Grants each of the IPs a permission.
fn grant(found: &mut Allocation, moment: u64, ips: &[u32]) -> Result<(), AllocError>
    ensures ok { OnOk result (Becomes found.old found.new (with_granted ips.now (seconds_after moment 300) (seen found.old))) }
    ensures err { OnErr result (Becomes found.old found.new (seen found.old)) }
{
    found
        .permissions
        .put_all(ips, lease_for(moment, PERMISSION_SECONDS))
}

/// Restores the previous channel of a number.
fn unbind(channels: &mut Leases<u16, Channel>, number: u16, before: Option<Channel>)
    requires there { IsSome (value_at nat_cmp channels.old number) }
    ensures some { IfSome before (λ channel. Puts nat_cmp channels.old channels.new number channel) }
    ensures none { before ≡ None → Removes nat_cmp channels.old channels.new number }
{
    match before {
        Some(channel) => {
            let _never_refused = channels.put(number, channel);
        }
        None => channels.remove(number),
    }
}

/// Binds a channel, and grants its peer's IP a permission; or neither.
#[tactic(auto, using(crate::proofs::Tables::put_there))]
fn bind(found: &mut Allocation, moment: u64, bound: Bound) -> Result<(), AllocError>
    ensures ok { OnOk result (Becomes found.old found.new (with_bound bound.number bound.peer (seconds_after moment 600) (seconds_after moment 300) (seen found.old))) }
    ensures err { OnErr result (Becomes found.old found.new (seen found.old)) }
{
    let before = found.channels.get(bound.number);
    let channel = Channel {
        lease: lease_for(moment, CHANNEL_SECONDS),
        peer: bound.peer,
    };
    found.channels.put(bound.number, channel)?;
    let permission = lease_for(moment, PERMISSION_SECONDS);
    if let Err(refused) = found.permissions.put(bound.peer.ip, permission) {
        unbind(&mut found.channels, bound.number, before);
        return Err(refused);
    }
    Ok(())
}

/// Changes the table by a departure, and returns the tenancy that it ended. If memory is exhausted,
/// nothing changes.
pub fn change(
    alloc: Global,
    table: &mut LaneTable,
    act: ActAt,
    effect: Effect<'_>,
) -> Result<Option<Tenancy>, AllocError>
    ensures ok { IfOk result (λ ended. IsChanged act.grace act.at act.sight (change_of act.at.key.moment effect.entry) (standing table.old) (standing table.new) ended) }
    ensures err { OnErr result (standing table.new ≡ standing table.old) }
{
    let moment = act.at.key.moment;
    match effect {
        Effect::Same => Ok(None),
        Effect::Makes { made, id } => make(alloc, table, act, made, id),
        Effect::Refreshes { seconds } => Ok(refresh(table, act, seconds)),
        Effect::Grants { ips } => {
            if let Some(found) = &mut table.allocation {
                grant(found, moment, ips.as_slice())?;
            }
            Ok(None)
        }
        Effect::Binds { bound } => {
            if let Some(found) = &mut table.allocation {
                bind(found, moment, bound)?;
            }
            Ok(None)
        }
    }
}
