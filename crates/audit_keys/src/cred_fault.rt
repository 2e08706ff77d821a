//! Why a credentials text was refused.

ghost use Rattle.std.specs.Prelude.{◌≡◌};
ghost use Rattle.audit_keys.specs.declared.cred_fault.CredFaultKind.TheVariants.{Memory};

use audit_text::LineFault;
use std::alloc::{AllocError, AllocFailed};
use thiserror::Error;

/// What is wrong with a line of a credentials text. Of a line's faults Character is reported first,
/// then Line, Limit and Double.
#[derive(Clone, Copy, Debug, PartialEq, Eq, Error)]
pub enum CredFaultKind {
    /// K1: not two TABs, an empty user or realm, or no LF.
    #[error("K1 line")]
    Line,
    /// K2: a byte that is neither printable ASCII nor a TAB.
    #[error("K2 character")]
    Character,
    /// K3: the user and the realm of an earlier line.
    #[error("K3 double")]
    Double,
    /// K4: a field of over 508 bytes, or a line past the 65,536th.
    #[error("K4 limit")]
    Limit,
    /// K5: memory ran out.
    #[error("K5 memory")]
    Memory,
}

impl CredFaultKind {
    ghost use Rattle.audit_keys.specs.CredFault.{cred_code_of};

    /// The number under which users know it.
    pub fn code(self) -> &'static str
        ensures { result.now ≡ cred_code_of self }
    {
        match self {
            CredFaultKind::Line => "K1",
            CredFaultKind::Character => "K2",
            CredFaultKind::Double => "K3",
            CredFaultKind::Limit => "K4",
            CredFaultKind::Memory => "K5",
        }
    }
}

/// Why a credentials text was refused, with the line.
pub type CredFault = LineFault<CredFaultKind>;

impl<T: Drop> From<AllocFailed<T>> for CredFaultKind {
    ghost from_gives = { λ _ fault. fault ≡ Memory };

    fn from(_failed: AllocFailed<T>) -> CredFaultKind {
        CredFaultKind::Memory
    }
}

impl From<AllocError> for CredFaultKind {
    ghost from_gives = { λ _ fault. fault ≡ Memory };

    fn from(_failed: AllocError) -> CredFaultKind {
        CredFaultKind::Memory
    }
}
