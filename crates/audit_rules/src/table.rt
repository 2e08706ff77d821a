//! The server's state for one client at one listen address.

use audit_expiry::{Lease, Leases};
use audit_model::{Addr, At, Listed, SightId, Tenancy};
use std::alloc::{AllocError, Global};

/// The peer that a channel number is bound to (RFC 8656, section 12).
#[derive(Clone, Copy, Debug, PartialEq, Eq)]
pub struct Channel {
    pub lease: Lease,
    pub peer: Addr,
}

/// The allocation of a client (RFC 8656, section 6). Times are nanoseconds since 1970.
#[derive(Debug, Drop)]
pub struct Allocation {
    pub permissions: Leases<u32>,
    pub channels: Leases<u16, Channel>,
    /// The user whose request made it.
    pub user: Listed<u8>,
    pub lease: Lease,
    /// The end, with the grace of the policy of the act that set it.
    pub last: u64,
    /// The act that made it.
    pub born: At,
    /// The arrival of that act.
    pub sight: SightId,
    pub relayed: Addr,
    /// The transaction id of the request that made it.
    pub id: [u8; 12],
}

impl Allocation {
    ghost use Rattle.std.specs.Prelude.{◌≡◌, None, IfOk};
    ghost use Rattle.audit_rules.specs.Effect.{tenancy_of};
    ghost use Rattle.audit_rules.specs.Seen.{seen};

    /// Copies the allocation.
    fn copied(&self, alloc: Global) -> Result<Allocation, AllocError>
        ensures tenancy { IfOk result (λ same. tenancy_of None same ≡ tenancy_of None self.now) }
        ensures seen { IfOk result (λ same. seen same ≡ seen self.now) }
    {
        Ok(Allocation {
            permissions: self.permissions.copied()?,
            channels: self.channels.copied()?,
            user: Listed::from(Vec::from_slice(alloc, self.user.as_slice())?),
            lease: self.lease,
            last: self.last,
            born: self.born,
            sight: self.sight,
            relayed: self.relayed,
            id: self.id,
        })
    }
}

/// The table of one lane: the server's state for its client at its listen address.
#[derive(Debug, Drop)]
pub struct LaneTable {
    pub(crate) allocation: Option<Allocation>,
    pub(crate) client: Addr,
    pub(crate) listen: Addr,
    /// The lane's number.
    pub(crate) lane: u32,
}

impl LaneTable {
    ghost use Rattle.std.specs.Prelude.{◌≡◌, None, Some, IfOk, option_copied, option_map};
    ghost use Rattle.audit_rules.specs.Effect.{standing, tenancy_of};
    ghost use Rattle.audit_rules.specs.Seen.{seen};

    /// A table with no allocation. Allocates no memory.
    pub fn new(lane: u32, client: Addr, listen: Addr) -> LaneTable
        ensures { standing result ≡ record { client = client; listen = listen; lane = lane; allocation = None; tenancy = None } }
    {
        LaneTable {
            allocation: None,
            client,
            listen,
            lane,
        }
    }

    /// A table with this allocation, as an earlier table had it. Allocates no memory.
    pub fn resume(lane: u32, client: Addr, listen: Addr, allocation: Allocation) -> LaneTable
        ensures { standing result ≡ record { client = client; listen = listen; lane = lane; allocation = Some (seen allocation); tenancy = Some (tenancy_of None allocation) } }
    {
        let mut table = LaneTable::new(lane, client, listen);
        table.allocation = Some(allocation);
        table
    }

    /// Copies the table. It takes time and memory in proportion to its permissions and channels.
    pub fn copied(&self, alloc: Global) -> Result<LaneTable, AllocError>
        ensures { IfOk result (λ same. standing same ≡ standing self.now) }
    {
        let allocation = match &self.allocation {
            Some(found) => Some(found.copied(alloc)?),
            None => None,
        };
        Ok(LaneTable {
            allocation,
            client: self.client,
            listen: self.listen,
            lane: self.lane,
        })
    }

    /// The client's allocation after the acts so far, with its permissions and channels, whether or
    /// not they still last. Allocates no memory.
    pub fn allocation(&self) -> Option<&Allocation>
        ensures exact { option_copied result ≡ self.now.allocation }
        ensures seen { option_map seen (option_copied result) ≡ (standing self.now).allocation }
    {
        self.allocation.as_ref()
    }

    /// The tenancy of the current allocation, from the act that made it. Allocates no memory.
    pub fn running(&self) -> Option<Tenancy>
        ensures { result ≡ (standing self.now).tenancy }
    {
        let found = self.allocation.as_ref()?;
        Some(Tenancy {
            born: found.born,
            stopped: None,
            last: found.last,
            relayed: found.relayed,
            sight: found.sight,
        })
    }
}
