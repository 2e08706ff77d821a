//! Why captures are not cut.

ghost use Rattle.std.specs.Prelude.{◌≡◌};
ghost use Rattle.audit_pcapng.specs.declared.fault.CaptureFault.TheVariants.{Memory};
ghost use Rattle.prep_cut.specs.declared.fault.CutFault.TheVariants.{Capture};

use audit_pcapng::CaptureFault;
use std::alloc::{AllocError, AllocFailed};
use std::fmt;

/// The reason why a capture isn't cut.
#[derive(Clone, Copy, Debug, PartialEq, Eq)]
pub enum CutFault {
    /// The capture has a fault of its own, or there was no memory.
    Capture(CaptureFault),
    /// A section states its length.
    SectionLength,
}

impl From<CaptureFault> for CutFault {
    ghost from_gives = { λ fault e. e ≡ Capture fault };

    fn from(fault: CaptureFault) -> CutFault {
        CutFault::Capture(fault)
    }
}

impl From<AllocError> for CutFault {
    ghost from_gives = { λ _ e. e ≡ Capture Memory };

    fn from(_error: AllocError) -> CutFault {
        CutFault::Capture(CaptureFault::Memory)
    }
}

impl<T: Drop> From<AllocFailed<T>> for CutFault {
    ghost from_gives = { λ _ e. e ≡ Capture Memory };

    fn from(_failed: AllocFailed<T>) -> CutFault {
        CutFault::Capture(CaptureFault::Memory)
    }
}

/// A refused capture, by its number.
#[derive(Clone, Copy, Debug, PartialEq, Eq)]
pub struct CutRefused {
    pub capture: u32,
    pub fault: CutFault,
}

/// The text for standard error.
impl fmt::Display for CutRefused {
    fn fmt<W: fmt::Write>(&self, f: &mut fmt::Formatter<W>) -> fmt::Result {
        let number = self.capture;
        match &self.fault {
            CutFault::Capture(fault) => {
                let code = fault.code();
                write!(f, "{code} in capture {number}")
            }
            CutFault::SectionLength => write!(f, "section length in capture {number}"),
        }
    }
}
