//! Callers at the two kinds of keys, whose contracts follow from those of the tables.

ghost use Rattle.std.specs.Prelude.{◌≡◌, ◌≢◌, ℕ, Some, None, OnOk, OnErr, IsTrue, if◌then◌else◌, true, false, ◌==◌};
ghost use Rattle.std.specs.Ordering.{nat_cmp};
ghost use Rattle.audit_model.specs.Window.{later};
ghost use Rattle.audit_expiry.specs.Leases.{value_at};
ghost use Rattle.tests_parts.specs.declared.tests.leases.usage.Held.{Held};

use audit_expiry::{Lease, Leases};
use std::alloc::AllocError;

#[derive(Clone, Copy)]
pub struct Held {
    pub peer: u32,
    pub lease: Lease,
}

pub fn permit(permissions: &mut Leases<u32>, peer: u32, moment: u64) -> Result<(), AllocError>
    ensures ends { OnOk result (value_at nat_cmp permissions.new peer ≡ Some (record { until = later moment 300 })) }
    ensures others { OnOk result ((other : ℕ) → other ≢ peer → value_at nat_cmp permissions.new other ≡ value_at nat_cmp permissions.old other) }
    ensures err { OnErr result (permissions.new ≡ permissions.old) }
{
    permissions.put(peer, Lease::lasting(moment, 300))
}

pub fn permit_all(
    permissions: &mut Leases<u32>,
    first: u32,
    second: u32,
    lease: Lease,
) -> Result<(), AllocError>
    ensures first { OnOk result (value_at nat_cmp permissions.new first ≡ Some lease) }
    ensures second { OnOk result (value_at nat_cmp permissions.new second ≡ Some lease) }
    ensures others { OnOk result ((other : ℕ) → other ≢ first → other ≢ second → value_at nat_cmp permissions.new other ≡ value_at nat_cmp permissions.old other) }
    ensures err { OnErr result (permissions.new ≡ permissions.old) }
{
    permissions.put_all(&[first, second], lease)
}

pub fn forget(channels: &mut Leases<u16, Held>, number: u16)
    ensures gone { value_at nat_cmp channels.new number ≡ None }
    ensures others { (other : ℕ) → other ≢ number → value_at nat_cmp channels.new other ≡ value_at nat_cmp channels.old other }
{
    channels.remove(number);
}

pub fn is_bound_elsewhere(channels: &Leases<u16, Held>, number: u16, peer: u32) -> bool
    ensures some { IsTrue result → (other : ℕ) × (held : Held) × (value_at nat_cmp channels.now other ≡ Some held) × (other ≢ number) × (held.peer ≡ peer) }
    ensures none { result ≡ false → (other : ℕ) → (held : Held) → value_at nat_cmp channels.now other ≡ Some held → held.peer ≡ peer → other ≡ number }
{
    channels.any(|other, held| other != number && held.peer == peer)
}
