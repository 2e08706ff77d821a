//! Why a capture is not reassembled.

ghost use Rattle.std.specs.Prelude.{◌≡◌};
ghost use Rattle.audit_pcapng.specs.declared.fault.CaptureFault.TheVariants.{Memory};
ghost use Rattle.prep_fragments.specs.declared.fault.ReassembleFault.TheVariants.{Capture};

use audit_pcapng::CaptureFault;
use std::alloc::{AllocError, AllocFailed};
use std::fmt;

/// Why a fragment doesn't continue those before it.
#[derive(Clone, Copy, Debug, PartialEq, Eq)]
pub enum FragmentFault {
    /// It is truncated, or its frame ends before its data or has no data.
    Cut,
    /// It begins before the end of those before it.
    Overlap,
    /// It begins after the end of those before it, or there is none before it.
    Hole,
    /// The datagram has more than 65,535 bytes.
    Long,
    /// It is 30 seconds or more after the first one.
    Late,
    /// It is the first of a datagram, and 1,024 other datagrams have missing fragments.
    Many,
}

/// Why a capture is refused.
#[derive(Clone, Copy, Debug, PartialEq, Eq)]
pub enum ReassembleFault {
    /// The capture has a fault of its own, or there was no memory.
    Capture(CaptureFault),
    /// A fragment doesn't continue those before it.
    Fragment(FragmentFault),
    /// At the end of the capture this number of datagrams have missing fragments.
    Missing { datagrams: usize },
}

impl From<CaptureFault> for ReassembleFault {
    ghost from_gives = { λ fault e. e ≡ Capture fault };

    fn from(fault: CaptureFault) -> ReassembleFault {
        ReassembleFault::Capture(fault)
    }
}

impl From<AllocError> for ReassembleFault {
    ghost from_gives = { λ _ e. e ≡ Capture Memory };

    fn from(_error: AllocError) -> ReassembleFault {
        ReassembleFault::Capture(CaptureFault::Memory)
    }
}

impl<T: Drop> From<AllocFailed<T>> for ReassembleFault {
    ghost from_gives = { λ _ e. e ≡ Capture Memory };

    fn from(_failed: AllocFailed<T>) -> ReassembleFault {
        ReassembleFault::Capture(CaptureFault::Memory)
    }
}

impl From<FragmentFault> for ReassembleFault {
    ghost use Rattle.prep_fragments.specs.declared.fault.ReassembleFault.TheVariants.{Fragment};

    ghost from_gives = { λ fault e. e ≡ Fragment fault };

    fn from(fault: FragmentFault) -> ReassembleFault {
        ReassembleFault::Fragment(fault)
    }
}

/// A refused capture, by its number.
#[derive(Clone, Copy, Debug, PartialEq, Eq)]
pub struct Refused {
    pub capture: u32,
    pub fault: ReassembleFault,
}

/// The fault of a fragment, in words.
impl fmt::Display for FragmentFault {
    fn fmt<W: fmt::Write>(&self, f: &mut fmt::Formatter<W>) -> fmt::Result {
        f.write_str(match self {
            FragmentFault::Cut => "a cut fragment",
            FragmentFault::Overlap => "overlapping fragments",
            FragmentFault::Hole => "a fragment whose earlier ones are missing",
            FragmentFault::Long => "fragments of more than 65535 bytes",
            FragmentFault::Late => "a fragment 30 seconds behind the first one",
            FragmentFault::Many => "fragments of more than 1024 datagrams at a time",
        })
    }
}

/// The text for standard error.
impl fmt::Display for Refused {
    fn fmt<W: fmt::Write>(&self, f: &mut fmt::Formatter<W>) -> fmt::Result {
        let number = self.capture;
        match &self.fault {
            ReassembleFault::Capture(fault) => {
                let code = fault.code();
                write!(f, "{code} in capture {number}")
            }
            ReassembleFault::Fragment(fault) => write!(f, "{fault} in capture {number}"),
            ReassembleFault::Missing { datagrams } => write!(
                f,
                "fragments of {datagrams} datagrams are missing at the end of capture {number}"
            ),
        }
    }
}
