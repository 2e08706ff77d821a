//! The lines of a checkpoint after the header and the moment.

use audit_cuts::{Came, Interface};
use audit_expiry::Lease;
use audit_model::{Addr, Listed, Pair};
use audit_rules::Channel;

/// The allocation of a client at a listen address (RFC 8656, section 6), without its permissions
/// and channels.
#[derive(Debug, Drop)]
pub struct Holder {
    pub pair: Pair,
    pub relayed: Addr,
    pub user: Listed<u8>,
    pub id: [u8; 12],
    pub lease: Lease,
}

/// What one line says.
#[derive(Debug, Drop)]
pub enum Entry {
    /// The number of an interface, from 0, and its counts.
    Interface(u64, Interface),
    Client(Holder),
    /// The IP address of a permission of the client before (RFC 8656, section 9).
    Permission(u32, Lease),
    /// The number of a channel of the client before (RFC 8656, section 12).
    Channel(u16, Channel),
    /// An arrival that waits.
    Waits(Came),
    /// A departure that is owed.
    Owed(Came),
}
