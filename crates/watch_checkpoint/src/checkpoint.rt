//! The content of a checkpoint.

use audit_cuts::Carried;
use watch_ring::RingFile;

/// The claim that a checkpoint continues.
#[derive(Clone, Copy, Debug, PartialEq, Eq)]
pub struct Header {
    /// The SHA-256 of the policy's text.
    pub policy: [u8; 32],
    /// The SHA-256 of the credentials' text.
    pub users: [u8; 32],
    /// The first moment of the claim, in nanoseconds since 1970.
    pub begin: u64,
    /// The file of the ring from whose beginning the audit goes on. The base of an interface is how
    /// many of its sightings are in files before it.
    pub file: RingFile,
}

/// What an audit needs to go on from the cut at which it was stopped.
#[derive(Debug, Drop)]
pub struct Checkpoint {
    pub header: Header,
    pub carried: Carried,
}
