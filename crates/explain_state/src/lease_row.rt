//! A lease of a client, with its acts.

use crate::history::{GrantAct, Held};
use audit_model::Addr;

/// The kind of a lease.
#[derive(Clone, Copy, Debug)]
pub enum LeaseKind {
    Allocation { relayed: Addr },
    Permission { ip: u32 },
    Channel { number: u16, peer: Addr },
}

/// A lease of a client. Its end is that of the replay's table.
#[derive(Clone, Copy, Debug)]
pub struct LeaseRow {
    pub kind: LeaseKind,
    /// Its end without the grace, in nanoseconds since 1970.
    pub until: u64,
    pub made: GrantAct,
    /// The last act that changed its end.
    pub last: GrantAct,
    /// How many acts renewed it.
    pub renewals: u32,
}

impl LeaseRow {
    /// The lease with its acts.
    pub(crate) fn of(kind: LeaseKind, until: u64, held: Held) -> LeaseRow {
        LeaseRow {
            kind,
            until,
            made: held.made,
            last: held.last,
            renewals: held.renewals,
        }
    }
}
