//! Why a capture is refused.

ghost use Rattle.std.specs.Prelude.{◌≡◌};
ghost use Rattle.audit_pcapng.specs.declared.fault.CaptureFault.TheVariants.{Memory};

use std::alloc::{AllocError, AllocFailed};
use thiserror::Error;

/// The first fault of a capture's text. The names `C1` to `C14` are what users see.
#[derive(Clone, Copy, Debug, PartialEq, Eq, Error)]
pub enum CaptureFault {
    /// The capture ends inside a block.
    #[error("the capture ends inside a block")]
    Torn,
    /// A section's byte-order magic is 0x1A2B3C4D in neither order.
    #[error("a section has another byte-order magic than 0x1A2B3C4D")]
    Magic,
    /// A length does not fit: a block's own two lengths, its data, or an option.
    #[error("a length does not fit its block")]
    Length,
    /// A section's major version is not 1.
    #[error("a section has another major version than 1")]
    Version,
    /// A block is before the first section, or the capture has no byte.
    #[error("no section begins the capture")]
    NoSection,
    /// A packet or a statistics block names an interface that its section has not described.
    #[error("a block names an interface that is not described")]
    Interface,
    /// An interface's link type is not 1, Ethernet.
    #[error("an interface is not Ethernet")]
    LinkType,
    /// An interface's resolution is a power of 2, or finer than a nanosecond.
    #[error("an interface has another resolution than 0 to 9 decimal digits")]
    Resolution,
    /// A packet's stamp is before 1970, or its nanoseconds do not fit 64 bits.
    #[error("a packet's stamp is out of range")]
    StampRange,
    /// A packet is in a block without a stamp, or in the obsolete Packet Block.
    #[error("a packet is in a block of type 2 or 3")]
    NoStamp,
    /// A block reports packets that were dropped.
    #[error("packets were dropped")]
    Drops,
    /// A block is longer than 16,777,216 bytes, or the capture describes more than 64 interfaces.
    #[error("a block is too long, or there are too many interfaces")]
    Limit,
    /// No fault of the input: memory ran out.
    #[error("out of memory")]
    Memory,
    /// No fault of the input: an earlier call of this reader had one.
    #[error("the capture was refused before")]
    Failed,
}

impl CaptureFault {
    ghost use Rattle.audit_pcapng.specs.Faults.{code_of};

    /// The fault's name, `C1` to `C14`.
    pub fn code(&self) -> &'static str
        ensures { result.now ≡ code_of self.now }
    {
        match self {
            CaptureFault::Torn => "C1",
            CaptureFault::Magic => "C2",
            CaptureFault::Length => "C3",
            CaptureFault::Version => "C4",
            CaptureFault::NoSection => "C5",
            CaptureFault::Interface => "C6",
            CaptureFault::LinkType => "C7",
            CaptureFault::Resolution => "C8",
            CaptureFault::StampRange => "C9",
            CaptureFault::NoStamp => "C10",
            CaptureFault::Drops => "C11",
            CaptureFault::Limit => "C12",
            CaptureFault::Memory => "C13",
            CaptureFault::Failed => "C14",
        }
    }
}

impl From<AllocError> for CaptureFault {
    ghost from_gives = { λ _ e. e ≡ Memory };

    fn from(_e: AllocError) -> CaptureFault {
        CaptureFault::Memory
    }
}

impl<T: Drop> From<AllocFailed<T>> for CaptureFault {
    ghost from_gives = { λ _ e. e ≡ Memory };

    fn from(_e: AllocFailed<T>) -> CaptureFault {
        CaptureFault::Memory
    }
}
