//! Why a certificate text was refused.

ghost use Rattle.std.specs.Prelude.{◌≡◌};
ghost use Rattle.audit_cert.specs.CertFault.{cert_fault_of};
ghost use Rattle.audit_cert.specs.declared.fault.CertFaultKind.TheVariants.{Memory};

use audit_text::{LineFault, TokenFault};
use std::alloc::{AllocError, AllocFailed};
use thiserror::Error;

/// What is wrong with a line of a certificate text.
#[derive(Clone, Copy, Debug, PartialEq, Eq, Error)]
pub enum CertFaultKind {
    /// T1: another heading than `turnaudit-certificate 1` or `turnaudit-certificate 2`.
    #[error("T1 heading")]
    Heading,
    /// T2: another syntax, an event before any lane, a lane or an event after a drop, a skew after
    /// a lane or a drop, none after the second heading, bytes after `end`, or no LF.
    #[error("T2 line")]
    Line,
    /// T3: a number with a leading zero or past its greatest value.
    #[error("T3 number")]
    Number,
    /// T4: a second lane of one client at one listen address.
    #[error("T4 lane double")]
    LaneDouble,
    /// T5: over 65,536 lanes, over 50,331,648 events and drops, or over 1,024 skews.
    #[error("T5 limit")]
    Limit,
    /// T6: the text ends before its `end` line.
    #[error("T6 end missing")]
    EndMissing,
    /// T7: memory ran out.
    #[error("T7 memory")]
    Memory,
    /// T8: a skew whose interface isn't greater than that of the skew before.
    #[error("T8 skew order")]
    SkewOrder,
}

impl CertFaultKind {
    ghost use Rattle.audit_cert.specs.CertFault.{cert_code_of};

    /// The number under which users know it.
    pub fn code(self) -> &'static str
        ensures { result.now ≡ cert_code_of self }
    {
        match self {
            CertFaultKind::Heading => "T1",
            CertFaultKind::Line => "T2",
            CertFaultKind::Number => "T3",
            CertFaultKind::LaneDouble => "T4",
            CertFaultKind::Limit => "T5",
            CertFaultKind::EndMissing => "T6",
            CertFaultKind::Memory => "T7",
            CertFaultKind::SkewOrder => "T8",
        }
    }
}

/// Why a certificate text was refused, with the line.
pub type CertFault = LineFault<CertFaultKind>;

impl From<TokenFault> for CertFaultKind {
    ghost from_gives = { λ token fault. fault ≡ cert_fault_of token };

    fn from(fault: TokenFault) -> CertFaultKind {
        match fault {
            TokenFault::Shape => CertFaultKind::Line,
            TokenFault::Number => CertFaultKind::Number,
        }
    }
}

impl From<AllocError> for CertFaultKind {
    ghost from_gives = { λ _ fault. fault ≡ Memory };

    fn from(_error: AllocError) -> CertFaultKind {
        CertFaultKind::Memory
    }
}

impl<T: Drop> From<AllocFailed<T>> for CertFaultKind {
    ghost from_gives = { λ _ fault. fault ≡ Memory };

    fn from(_failed: AllocFailed<T>) -> CertFaultKind {
        CertFaultKind::Memory
    }
}
