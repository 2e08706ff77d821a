//! What is carried over a cut.

use audit_expiry::Lease;
use audit_model::{Addr, Listed, Pair, SightId};
use audit_rules::Channel;

/// An arrival that waits, or a departure that is owed, and the moment at which the arrival came, in
/// nanoseconds since 1970.
#[derive(Clone, Copy, Debug, PartialEq, Eq)]
pub struct Came {
    pub sight: SightId,
    pub moment: u64,
}

/// An interface: how many of its sightings come before the one that has index 0, and how many are
/// placed from that one on.
#[derive(Clone, Copy, Debug, PartialEq, Eq)]
pub struct Interface {
    pub base: u64,
    pub placed: u32,
}

/// A client at a listen address, and its allocation (RFC 8656, section 6). Of each permission and
/// channel number the first entry counts.
#[derive(Debug, Drop)]
pub struct Client {
    pub pair: Pair,
    pub relayed: Addr,
    /// The user whose request made the allocation.
    pub user: Listed<u8>,
    /// The transaction id of that request.
    pub id: [u8; 12],
    pub lease: Lease,
    pub permissions: Vec<(u32, Lease)>,
    pub channels: Vec<(u16, Channel)>,
}

/// What no later move of a run can do without. Of each client and each sighting the first entry
/// counts. Ids of sightings count from the base of their interface.
#[derive(Debug, Drop)]
pub struct Carried {
    /// The moment of the last move.
    pub moment: u64,
    pub clients: Vec<Client>,
    pub waiting: Vec<Came>,
    pub owed: Vec<Came>,
    /// The interfaces by their numbers.
    pub interfaces: Vec<Interface>,
}
