//! Why a watch doesn't advance.

ghost use Rattle.std.specs.Prelude.{◌≡◌};

use audit_machine::{Action, Refusal};
use std::alloc::AllocError;

/// Why a watch doesn't advance.
#[derive(Clone, Copy, Debug)]
pub enum AdvanceError {
    /// The server's state doesn't allow the move. Those before it are made.
    Refused { action: Action, refusal: Refusal },
    /// The intake lacks a placed sighting. The watch can't be used any more.
    Behind,
    /// Memory ran out. The watch can't be used any more.
    Memory,
}

impl From<AllocError> for AdvanceError {
    ghost from_gives = { λ _ e. e ≡ Memory };

    ghost use Rattle.audit_watch.specs.declared.advance_error.AdvanceError.TheVariants.{Memory};

    fn from(_error: AllocError) -> AdvanceError {
        AdvanceError::Memory
    }
}
