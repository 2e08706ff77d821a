//! An act, and all that it is judged by.

use crate::credentials::CredRow;
use crate::table::LaneTable;
use audit_model::{Policy, Sighting};

/// An act: a departure that is sent for an arrival.
#[derive(Clone, Copy)]
pub struct Act<'t, 'a> {
    /// The server's state for the client before it.
    pub table: &'t LaneTable,
    /// Of two rows of one user and realm the first counts.
    pub users: &'a [CredRow<'a>],
    pub policy: &'a Policy,
    pub arrives: &'a Sighting,
    pub leaves: &'a Sighting,
    /// In nanoseconds since 1970.
    pub moment: u64,
}
