//! The relayed addresses that Allocate success responses grant over UDP.

use audit_model::{Addr, Side, SightId, Sighting};
use audit_sightings::Intake;
use audit_stun::numbers::attribute::XOR_RELAYED_ADDRESS;
use audit_stun::numbers::method::ALLOCATE;
use audit_stun::{Class, address, message};
use std::alloc::{AllocError, Global};

/// A relayed address that a client was granted.
#[derive(Clone, Copy, Debug)]
pub struct Grant {
    pub relayed: Addr,
    /// The stamp of the success response, in nanoseconds since 1970.
    pub stamp: u64,
    pub client: Addr,
    /// The success response.
    pub sight: SightId,
}

/// All grants of captures.
#[derive(Drop)]
pub struct Grants {
    /// By relayed address, then in the order of their stamps.
    all: Vec<Grant>,
}

/// The relayed address that a departure grants.
fn granted_by(sighting: &Sighting) -> Option<Addr> {
    if sighting.side != Side::Leaves {
        return None;
    }
    let response = message(sighting.payload.as_slice())?;
    if response.class() != Class::Success || response.method() != ALLOCATE {
        return None;
    }
    address(response.first(XOR_RELAYED_ADDRESS)?)
}

impl Grants {
    /// The grants of all captures. It takes n log n in the sightings.
    pub fn of(alloc: Global, intake: &Intake) -> Result<Grants, AllocError> {
        let mut all = Vec::new(alloc);
        for iface in 0..intake.interfaces() {
            for sighting in intake.interface(iface) {
                if let Some(relayed) = granted_by(sighting) {
                    all.push(Grant {
                        relayed,
                        stamp: sighting.stamp,
                        client: sighting.to,
                        sight: sighting.id,
                    })?;
                }
            }
        }
        all.sort_unstable_by_key(|grant| (grant.relayed, grant.stamp, grant.sight));
        Ok(Grants { all })
    }

    /// The first grant of a relayed address. It takes log n in the grants.
    pub fn first_of(&self, relayed: Addr) -> Option<Grant> {
        let place = self.all.partition_point(|grant| grant.relayed < relayed);
        let grant = *self.all.get(place)?;
        if grant.relayed == relayed {
            Some(grant)
        } else {
            None
        }
    }

    /// The last grant of a relayed address up to a moment. It takes log n in the grants.
    pub fn last_before(&self, relayed: Addr, moment: u64) -> Option<Grant> {
        let behind = self
            .all
            .partition_point(|grant| (grant.relayed, grant.stamp) <= (relayed, moment));
        let grant = *self.all.get(behind.checked_sub(1)?)?;
        if grant.relayed == relayed {
            Some(grant)
        } else {
            None
        }
    }
}
