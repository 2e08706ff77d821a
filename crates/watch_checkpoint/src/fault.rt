//! Why a checkpoint was refused.

ghost use Rattle.std.specs.Prelude.{◌≡◌};
ghost use Rattle.watch_checkpoint.specs.Fault.{kind_of_token};
ghost use Rattle.watch_checkpoint.specs.declared.fault.LineKind.TheVariants.{Memory};

use audit_text::{LineFault, TokenFault};
use std::alloc::{AllocError, AllocFailed};
use thiserror::Error;

/// What is wrong with a line of a checkpoint.
#[derive(Clone, Copy, Debug, PartialEq, Eq, Error)]
pub enum LineKind {
    /// Another syntax, another spelling than the one that is written, or no LF.
    #[error("line")]
    Line,
    /// A number with a leading zero or past its greatest value.
    #[error("number")]
    Number,
    /// A line that may not follow the lines before it.
    #[error("order")]
    Order,
    /// A second line of one client at one listen address.
    #[error("client double")]
    ClientDouble,
    /// A usable allocation with the relayed address of another usable allocation.
    #[error("address held")]
    AddressHeld,
    /// An arrival that waits and isn't placed, or a departure that is owed and is placed.
    #[error("placement")]
    Placement,
    /// Memory ran out.
    #[error("memory")]
    Memory,
}

/// Why a checkpoint was refused.
#[derive(Clone, Copy, Debug, PartialEq, Eq, Error)]
pub enum CheckpointFault {
    /// K1: the first line isn't `turnwatch-checkpoint 1`.
    #[error("K1 heading")]
    Heading,
    /// K2: the last line isn't the digest of the bytes before it.
    #[error("K2 digest")]
    Digest,
    /// K3: a line doesn't fit. Lines count from 1.
    #[error("K3 line {0}: {1}")]
    Line(u64, LineKind),
    /// Memory ran out.
    #[error("memory")]
    Memory,
}

impl From<TokenFault> for LineKind {
    ghost from_gives = { λ token kind. kind ≡ kind_of_token token };

    fn from(fault: TokenFault) -> LineKind {
        match fault {
            TokenFault::Shape => LineKind::Line,
            TokenFault::Number => LineKind::Number,
        }
    }
}

impl From<AllocError> for LineKind {
    ghost from_gives = { λ _ kind. kind ≡ Memory };

    fn from(_error: AllocError) -> LineKind {
        LineKind::Memory
    }
}

impl<T: Drop> From<AllocFailed<T>> for LineKind {
    ghost from_gives = { λ _ kind. kind ≡ Memory };

    fn from(_failed: AllocFailed<T>) -> LineKind {
        LineKind::Memory
    }
}
