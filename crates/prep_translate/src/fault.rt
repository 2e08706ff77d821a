//! Why captures are not translated.

ghost use Rattle.std.specs.Prelude.{◌≡◌};
ghost use Rattle.audit_pcapng.specs.declared.fault.CaptureFault.TheVariants.{Memory};
ghost use Rattle.prep_translate.specs.declared.fault.RenamingFault.TheVariants.{Memory as NoMemory};
ghost use Rattle.prep_translate.specs.declared.fault.TranslateFault.TheVariants.{Capture};

use crate::translation::{Ip, Translation};
use audit_model::Addr;
use audit_pcapng::CaptureFault;
use std::alloc::{AllocError, AllocFailed};
use std::fmt;

/// Why translations don't fit the policy on their outer side.
#[derive(Clone, Copy, Debug, PartialEq, Eq)]
pub enum RenamingFault {
    /// One of its addresses is named twice.
    Twice(Translation),
    /// The policy has no relay range of a public address.
    NoRange(u32),
    /// It has a relay range of a private address.
    InnerRange(u32),
    /// A listen address has a private address and a port of the public one's range.
    ListenInside(Addr),
    /// Out of memory.
    Memory,
}

impl<T: Drop> From<AllocFailed<T>> for RenamingFault {
    ghost from_gives = { λ _ e. e ≡ NoMemory };

    fn from(_failed: AllocFailed<T>) -> RenamingFault {
        RenamingFault::Memory
    }
}

/// The text for standard error.
impl fmt::Display for RenamingFault {
    fn fmt<W: fmt::Write>(&self, f: &mut fmt::Formatter<W>) -> fmt::Result {
        match self {
            RenamingFault::Twice(translation) => {
                write!(f, "--external-ip {translation} names an address twice")
            }
            RenamingFault::NoRange(ip) => {
                let ip = Ip(*ip);
                write!(f, "policy has no relay range of {ip}")
            }
            RenamingFault::InnerRange(ip) => {
                let ip = Ip(*ip);
                write!(f, "policy has a relay range of {ip}, which is translated")
            }
            RenamingFault::ListenInside(addr) => {
                write!(f, "listen {addr} is inside the range that is translated")
            }
            RenamingFault::Memory => f.write_str("out of memory"),
        }
    }
}

/// Why a datagram can't be translated.
#[derive(Clone, Copy, Debug, PartialEq, Eq)]
pub enum Untranslatable {
    /// A fragment with a private address has no port.
    Fragment,
    /// A truncated datagram may have a private address.
    Cut,
    /// A public address at a relayed port, in a datagram of which nothing is translated.
    Outside(Addr),
}

/// Why a capture is not translated.
#[derive(Clone, Copy, Debug, PartialEq, Eq)]
pub enum TranslateFault {
    /// The capture has a fault of its own, or there was no memory.
    Capture(CaptureFault),
    /// A datagram can't be translated.
    Datagram(Untranslatable),
}

impl From<CaptureFault> for TranslateFault {
    ghost from_gives = { λ fault e. e ≡ Capture fault };

    fn from(fault: CaptureFault) -> TranslateFault {
        TranslateFault::Capture(fault)
    }
}

impl From<AllocError> for TranslateFault {
    ghost from_gives = { λ _ e. e ≡ Capture Memory };

    fn from(_error: AllocError) -> TranslateFault {
        TranslateFault::Capture(CaptureFault::Memory)
    }
}

impl<T: Drop> From<AllocFailed<T>> for TranslateFault {
    ghost from_gives = { λ _ e. e ≡ Capture Memory };

    fn from(_failed: AllocFailed<T>) -> TranslateFault {
        TranslateFault::Capture(CaptureFault::Memory)
    }
}

/// A refused capture, by its number.
#[derive(Clone, Copy, Debug, PartialEq, Eq)]
pub struct Refused {
    pub capture: u32,
    pub fault: TranslateFault,
}

/// The text for standard error.
impl fmt::Display for Refused {
    fn fmt<W: fmt::Write>(&self, f: &mut fmt::Formatter<W>) -> fmt::Result {
        let number = self.capture;
        match &self.fault {
            TranslateFault::Capture(fault) => {
                let code = fault.code();
                write!(f, "{code} in capture {number}")
            }
            TranslateFault::Datagram(Untranslatable::Fragment) => write!(
                f,
                "fragment in capture {number}: it tells no port, so it can be neither translated nor passed over"
            ),
            TranslateFault::Datagram(Untranslatable::Cut) => {
                write!(f, "cut datagram in capture {number}")
            }
            TranslateFault::Datagram(Untranslatable::Outside(addr)) => write!(
                f,
                "{addr} is on the wire of capture {number}: it is not inside the translation"
            ),
        }
    }
}
