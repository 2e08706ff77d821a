//! Whether a lease that lasted may have been granted.

ghost use Rattle.std.specs.Prelude.{◌≡◌, ◌↔◌, IsTrue};
ghost use Rattle.audit_sightings.specs.Intake.{taken};
ghost use Rattle.audit_faults.specs.declared.fault.Lease.TheVariants as leases;
ghost use Rattle.audit_faults.specs.Grants.{HasGrant};
ghost use Rattle.audit_faults.specs.Index.{IsIndex};
ghost use Rattle.audit_faults.specs.Leased.{AreLeases};

use crate::allocated::has_allocation;
use crate::fault::{Grant, Lease};
use crate::granted::granted_by;
use crate::grants::has_grant_somewhere;
use crate::index::Index;
use crate::lease_keys::{channel_key, permission_key};
use crate::leased::Leases;
use audit_model::{Addr, Sighting};
use audit_sightings::Intake;

/// Whether a permission was granted.
fn has_permission(
    intake: &Intake,
    listed: Leases<'_>,
    ip: u32,
    grant: &Grant,
    arrival: &Sighting,
    departure: &Sighting,
) -> bool
    requires listed { AreLeases (taken intake.now) listed }
    requires lease { grant.now.lease ≡ leases.Permission ip }
    ensures { IsTrue result ↔ HasGrant (taken intake.now) grant.now arrival.now departure.now }
{
    let key = permission_key(grant.client, ip);
    granted_by(intake, listed, key, grant, arrival, departure)
}

/// Whether a channel was bound.
fn has_channel(
    intake: &Intake,
    listed: Leases<'_>,
    number: u16,
    peer: Addr,
    grant: &Grant,
    arrival: &Sighting,
    departure: &Sighting,
) -> bool
    requires listed { AreLeases (taken intake.now) listed }
    requires lease { grant.now.lease ≡ leases.Channel number peer }
    ensures { IsTrue result ↔ HasGrant (taken intake.now) grant.now arrival.now departure.now }
{
    let key = channel_key(grant.client, number, peer);
    granted_by(intake, listed, key, grant, arrival, departure)
}

/// Whether the lease was granted, searched by key.
fn has_grant_by_keys(
    intake: &Intake,
    listed: Leases<'_>,
    grant: &Grant,
    arrival: &Sighting,
    departure: &Sighting,
) -> bool
    requires { AreLeases (taken intake.now) listed }
    ensures { IsTrue result ↔ HasGrant (taken intake.now) grant.now arrival.now departure.now }
{
    match grant.lease {
        Lease::Allocation { relayed } => {
            has_allocation(intake, listed, relayed, grant, arrival, departure)
        }
        Lease::Permission { ip } => has_permission(intake, listed, ip, grant, arrival, departure),
        Lease::Channel { number, peer } => {
            has_channel(intake, listed, number, peer, grant, arrival, departure)
        }
    }
}

/// Whether the lease was granted.
pub fn has_grant(
    intake: &Intake,
    index: &Index<'_>,
    grant: &Grant,
    arrival: &Sighting,
    departure: &Sighting,
) -> bool
    requires { IsIndex (taken intake.now) index.now }
    ensures { IsTrue result ↔ HasGrant (taken intake.now) grant.now arrival.now departure.now }
{
    match index.leases {
        Some(listed) => has_grant_by_keys(intake, listed, grant, arrival, departure),
        None => has_grant_somewhere(intake, grant, arrival, departure),
    }
}
