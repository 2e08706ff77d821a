//! Why a text was not written.

ghost use Rattle.std.specs.Prelude.{◌≡◌};
ghost use Rattle.audit_model.specs.declared.write_fault.WriteFault.TheVariants.{Device, Memory};

use crate::sink::SinkFailed;
use std::alloc::AllocError;
use thiserror::Error;

/// Why a text was not written, or only a prefix of it.
#[derive(Clone, Copy, Debug, PartialEq, Eq, Error)]
pub enum WriteFault {
    /// F1: the sink failed.
    #[error("F1 device")]
    Device,
    /// F2: memory ran out.
    #[error("F2 memory")]
    Memory,
}

impl From<AllocError> for WriteFault {
    ghost from_gives = { λ _ fault. fault ≡ Memory };

    fn from(_error: AllocError) -> WriteFault {
        WriteFault::Memory
    }
}

impl From<SinkFailed> for WriteFault {
    ghost from_gives = { λ _ fault. fault ≡ Device };

    fn from(_failed: SinkFailed) -> WriteFault {
        WriteFault::Device
    }
}
