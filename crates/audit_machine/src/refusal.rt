//! Why a move is refused.

ghost use Rattle.std.specs.Prelude.{◌≡◌};

use audit_model::Rule;
use std::alloc::AllocError;

/// Why a move is refused.
#[derive(Clone, Copy, Debug, PartialEq, Eq)]
pub enum Refusal {
    /// No sighting has the id.
    Unknown,
    /// The moment is before that of the last move.
    Order,
    /// The sighting has the other direction, or the moment is not in its window.
    Window,
    /// The sighting is not the next one of its interface.
    Next,
    /// No act sent the departure, or its arrival is older than the hold.
    NotOwed,
    /// The arrival doesn't wait for an act, or is older than the hold.
    NotWaiting,
    /// The departure is owed already, or is placed.
    Sent,
    /// Another client has the relayed address of a usable allocation.
    Held,
    /// The first rule that an act breaks.
    Broken(Rule),
    /// Memory ran out.
    Memory,
    /// The client's table was changed, and there was no copy of it.
    TableLost,
}

impl From<AllocError> for Refusal {
    ghost from_gives = { λ _ e. e ≡ Memory };

    ghost use Rattle.audit_machine.specs.declared.refusal.Refusal.TheVariants.{Memory};

    fn from(_error: AllocError) -> Refusal {
        Refusal::Memory
    }
}
