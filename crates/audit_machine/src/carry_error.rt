//! Why a machine can't be carried over a cut.

ghost use Rattle.std.specs.Prelude.{◌≡◌};

use audit_cuts::RebaseError;
use std::alloc::{AllocError, AllocFailed};

/// Why a machine can't be carried over a cut.
#[derive(Clone, Copy, Debug, PartialEq, Eq)]
pub enum CarryError {
    /// An interface with placed sightings has no base, or there are over 2^32 interfaces.
    Interfaces,
    /// Two clients have usable allocations with one relayed address.
    Held,
    /// Ids can't count from these bases.
    Rebase(RebaseError),
    /// Memory ran out.
    Memory,
}

impl From<AllocError> for CarryError {
    ghost from_gives = { λ _ e. e ≡ Memory };

    ghost use Rattle.audit_machine.specs.declared.carry_error.CarryError.TheVariants.{Memory};

    fn from(_error: AllocError) -> CarryError {
        CarryError::Memory
    }
}

impl<T: Drop> From<AllocFailed<T>> for CarryError {
    ghost from_gives = { λ _ e. e ≡ Memory };

    ghost use Rattle.audit_machine.specs.declared.carry_error.CarryError.TheVariants.{Memory};

    fn from(_failed: AllocFailed<T>) -> CarryError {
        CarryError::Memory
    }
}

impl From<RebaseError> for CarryError {
    ghost from_gives = { λ error e. e ≡ Rebase error };

    ghost use Rattle.audit_machine.specs.declared.carry_error.CarryError.TheVariants.{Rebase};

    fn from(error: RebaseError) -> CarryError {
        CarryError::Rebase(error)
    }
}
