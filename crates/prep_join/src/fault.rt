//! Why captures are not joined.

ghost use Rattle.std.specs.Prelude.{◌≡◌};
ghost use Rattle.audit_pcapng.specs.declared.fault.CaptureFault.TheVariants.{Memory};
ghost use Rattle.prep_join.specs.declared.fault.JoinFault.TheVariants.{Capture};

use audit_pcapng::CaptureFault;
use std::alloc::{AllocError, AllocFailed};
use std::fmt;

/// Why a capture isn't joined to those before it.
#[derive(Clone, Copy, Debug, PartialEq, Eq)]
pub enum JoinFault {
    /// The capture has a fault of its own, or there was no memory.
    Capture(CaptureFault),
    /// It has a second section.
    TwoSections,
    /// Its section states a length.
    SectionLength,
    /// Its byte order is not the first capture's.
    Order,
    /// An interface block follows a packet or statistics.
    LateInterface,
    /// Its interface blocks are not the first capture's.
    Interfaces,
    /// Its first packet of an interface is before one of an earlier capture.
    Early { iface: u32 },
}

impl From<CaptureFault> for JoinFault {
    ghost from_gives = { λ fault e. e ≡ Capture fault };

    fn from(fault: CaptureFault) -> JoinFault {
        JoinFault::Capture(fault)
    }
}

impl From<AllocError> for JoinFault {
    ghost from_gives = { λ _ e. e ≡ Capture Memory };

    fn from(_error: AllocError) -> JoinFault {
        JoinFault::Capture(CaptureFault::Memory)
    }
}

impl<T: Drop> From<AllocFailed<T>> for JoinFault {
    ghost from_gives = { λ _ e. e ≡ Capture Memory };

    fn from(_failed: AllocFailed<T>) -> JoinFault {
        JoinFault::Capture(CaptureFault::Memory)
    }
}

/// A refused capture, by its number.
#[derive(Clone, Copy, Debug, PartialEq, Eq)]
pub struct Refused {
    pub capture: u32,
    pub fault: JoinFault,
}

/// The text for standard error.
impl fmt::Display for Refused {
    fn fmt<W: fmt::Write>(&self, f: &mut fmt::Formatter<W>) -> fmt::Result {
        let number = self.capture;
        match &self.fault {
            JoinFault::Capture(fault) => {
                let code = fault.code();
                write!(f, "{code} in capture {number}")
            }
            JoinFault::TwoSections => write!(f, "two sections in capture {number}"),
            JoinFault::SectionLength => write!(f, "section length in capture {number}"),
            JoinFault::Order => write!(f, "byte order of capture {number}"),
            JoinFault::LateInterface => {
                write!(f, "an interface behind a packet in capture {number}")
            }
            JoinFault::Interfaces => write!(f, "interfaces of capture {number}"),
            JoinFault::Early { iface } => {
                let before = number.saturating_sub(1);
                write!(
                    f,
                    "capture {number} begins before capture {before} ends, on interface {iface}"
                )
            }
        }
    }
}
