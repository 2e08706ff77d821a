//! Why a call on a live audit is refused, and why it has no verdict.

use audit_model::Breach;
use audit_sightings::IntakeFault;
use thiserror::Error;

/// Why a call is refused.
#[derive(Clone, Copy, Debug, PartialEq, Eq, Error)]
pub enum LiveFault {
    /// G1: the horizon is not past the last one.
    #[error("G1 horizon")]
    Horizon,
    /// G2: a moment at or before the last horizon, or past the new one.
    #[error("G2 out of turn")]
    OutOfTurn,
    /// G3: with the extension the certificate shows a breach.
    #[error("G3 breach")]
    Breach(Breach),
    /// G4: out of memory.
    #[error("G4 memory")]
    Memory,
    /// G5: an earlier advance or feed failed.
    #[error("G5 ended")]
    Ended,
    /// G6: the number of a lane that doesn't exist, a second lane of one client at one listen
    /// address, or too many lanes or events.
    #[error("G6 lane")]
    Lane,
    /// The capture was refused.
    #[error("{0}")]
    Input(IntakeFault),
}

/// Why there is no verdict.
#[derive(Clone, Copy, Debug, PartialEq, Eq, Error)]
pub enum LiveEnd {
    /// A capture was refused, or ends inside a block, or has no byte.
    #[error("{0}")]
    Input(IntakeFault),
    /// An advance ran out of memory.
    #[error("memory")]
    Memory,
}
