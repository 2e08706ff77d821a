//! Why a message or a datagram could not be built.

ghost use Rattle.std.specs.Prelude.{◌≡◌};
ghost use Rattle.audit_samples.specs.declared.build_fault.BuildFault.TheVariants.{Memory};

use std::alloc::{AllocError, AllocFailed};
use thiserror::Error;

/// A message or a datagram was not built.
#[derive(Clone, Copy, Debug, PartialEq, Eq, Error)]
pub enum BuildFault {
    /// Out of memory.
    #[error("memory")]
    Memory,
    /// A length doesn't fit its two bytes.
    #[error("too long")]
    TooLong,
}

impl<T: Drop> From<AllocFailed<T>> for BuildFault {
    ghost from_gives = { λ _ fault. fault ≡ Memory };

    fn from(_failed: AllocFailed<T>) -> BuildFault {
        BuildFault::Memory
    }
}

impl From<AllocError> for BuildFault {
    ghost from_gives = { λ _ fault. fault ≡ Memory };

    fn from(_failed: AllocError) -> BuildFault {
        BuildFault::Memory
    }
}
