//! Why a policy text was refused.

ghost use Rattle.std.specs.Prelude.{◌≡◌};
ghost use Rattle.audit_model.specs.PolicyFault.{policy_fault_of};
ghost use Rattle.audit_model.specs.declared.policy_fault.PolicyFaultKind.TheVariants.{Memory};

use audit_text::{LineFault, TokenFault};
use std::alloc::AllocFailed;
use thiserror::Error;

/// What is wrong with a line of a policy text.
#[derive(Clone, Copy, Debug, PartialEq, Eq, Error)]
pub enum PolicyFaultKind {
    /// P1: another heading, an unknown word, another syntax, a blank line, a setting for the second
    /// time, or no LF.
    #[error("P1 line")]
    Line,
    /// P2: a number with a leading zero or past the greatest u64, an address part or a port out of
    /// its range, or a range whose low port is greater than its high one.
    #[error("P2 number")]
    Number,
    /// P3: a listen address or a relay range that overlaps an earlier one.
    #[error("P3 overlap")]
    Overlap,
    /// P4: no listen line.
    #[error("P4 missing")]
    Missing,
    /// P5: over 64 listen or 64 relay lines, or a tolerance past its greatest value.
    #[error("P5 limit")]
    Limit,
    /// P6: memory ran out.
    #[error("P6 memory")]
    Memory,
}

impl PolicyFaultKind {
    ghost use Rattle.audit_model.specs.PolicyFault.{policy_code_of};

    /// The number under which users know it.
    pub fn code(self) -> &'static str
        ensures { result.now ≡ policy_code_of self }
    {
        match self {
            PolicyFaultKind::Line => "P1",
            PolicyFaultKind::Number => "P2",
            PolicyFaultKind::Overlap => "P3",
            PolicyFaultKind::Missing => "P4",
            PolicyFaultKind::Limit => "P5",
            PolicyFaultKind::Memory => "P6",
        }
    }
}

/// Why a policy text was refused, with the line.
pub type PolicyFault = LineFault<PolicyFaultKind>;

impl From<TokenFault> for PolicyFaultKind {
    ghost from_gives = { λ token fault. fault ≡ policy_fault_of token };

    fn from(fault: TokenFault) -> PolicyFaultKind {
        match fault {
            TokenFault::Shape => PolicyFaultKind::Line,
            TokenFault::Number => PolicyFaultKind::Number,
        }
    }
}

impl<T: Drop> From<AllocFailed<T>> for PolicyFaultKind {
    ghost from_gives = { λ _ fault. fault ≡ Memory };

    fn from(_failed: AllocFailed<T>) -> PolicyFaultKind {
        PolicyFaultKind::Memory
    }
}
