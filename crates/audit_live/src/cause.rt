//! Why an audit ended before its captures did.

use audit_model::Breach;
use audit_sightings::IntakeFault;

/// Why an audit ended before its captures did.
#[derive(Clone, Copy, Debug, PartialEq, Eq)]
pub enum Cause {
    /// An advance showed this breach.
    Broke(Breach),
    /// An advance ran out of memory.
    NoMemory,
    /// The bytes of a capture were refused.
    Refused(IntakeFault),
}
