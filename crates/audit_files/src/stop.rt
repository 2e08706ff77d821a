//! Why a run ends before its answer.

ghost use Rattle.std.specs.Prelude.{◌≡◌};
ghost use Rattle.audit_files.specs.Stops.{status_of_stop, EndsByCertificate, EndsByCredentials, EndsByIntake, EndsByPolicy, EndsByWrite};
ghost use Rattle.audit_files.specs.declared.stop.Stop.TheVariants.{Memory, Read, Write};

use crate::source::ReadFailed;
use audit_cert::{CertFault, CertFaultKind};
use audit_keys::{CredFault, CredFaultKind};
use audit_model::{PolicyFault, PolicyFaultKind, SinkFailed, WriteFault};
use audit_sightings::IntakeFault;
use std::alloc::{AllocError, AllocFailed};
use std::fmt;

/// The input with the fault, and the place in it.
#[derive(Clone, Copy, Debug, PartialEq, Eq)]
pub enum Place {
    Policy { line: u64 },
    Credentials { line: u64 },
    Certificate { line: u64 },
    Capture { file: u32 },
}

/// Why a run ended.
#[derive(Clone, Copy, Debug)]
pub enum Stop {
    /// The input was refused.
    Refused { code: &'static str, place: Place },
    /// Memory ran out.
    Memory,
    /// A file could not be read.
    Read,
    /// The answer could not be written.
    Write,
}

impl Stop {
    /// The exit status.
    pub fn status(&self) -> u8
        ensures { result ≡ status_of_stop self.now }
    {
        match self {
            Stop::Refused { .. } => 2,
            Stop::Memory => 3,
            Stop::Read | Stop::Write => 4,
        }
    }
}

/// The line that goes to standard error, without its end.
impl fmt::Display for Stop {
    fn fmt<W: fmt::Write>(&self, f: &mut fmt::Formatter<W>) -> fmt::Result {
        match self {
            Stop::Refused { code, place } => match place {
                Place::Policy { line } => write!(f, "refused {code} in policy line {line}"),
                Place::Credentials { line } => {
                    write!(f, "refused {code} in credentials line {line}")
                }
                Place::Certificate { line } => {
                    write!(f, "refused {code} in certificate line {line}")
                }
                Place::Capture { file } => write!(f, "refused {code} in capture {file}"),
            },
            Stop::Memory => f.write_str("out of memory"),
            Stop::Read => f.write_str("read failed"),
            Stop::Write => f.write_str("write failed"),
        }
    }
}

impl From<AllocError> for Stop {
    ghost from_gives = { λ _ stop. stop ≡ Memory };

    fn from(_error: AllocError) -> Stop {
        Stop::Memory
    }
}

impl<T: Drop> From<AllocFailed<T>> for Stop {
    ghost from_gives = { λ _ stop. stop ≡ Memory };

    fn from(_failed: AllocFailed<T>) -> Stop {
        Stop::Memory
    }
}

impl From<ReadFailed> for Stop {
    ghost from_gives = { λ _ stop. stop ≡ Read };

    fn from(_failed: ReadFailed) -> Stop {
        Stop::Read
    }
}

impl From<SinkFailed> for Stop {
    ghost from_gives = { λ _ stop. stop ≡ Write };

    fn from(_failed: SinkFailed) -> Stop {
        Stop::Write
    }
}

impl From<WriteFault> for Stop {
    ghost from_gives = { EndsByWrite };

    fn from(fault: WriteFault) -> Stop {
        match fault {
            WriteFault::Device => Stop::Write,
            WriteFault::Memory => Stop::Memory,
        }
    }
}

impl From<PolicyFault> for Stop {
    ghost from_gives = { EndsByPolicy };

    fn from(fault: PolicyFault) -> Stop {
        if fault.kind == PolicyFaultKind::Memory {
            return Stop::Memory;
        }
        Stop::Refused {
            code: fault.kind.code(),
            place: Place::Policy { line: fault.line },
        }
    }
}

impl From<CredFault> for Stop {
    ghost from_gives = { EndsByCredentials };

    fn from(fault: CredFault) -> Stop {
        if fault.kind == CredFaultKind::Memory {
            return Stop::Memory;
        }
        Stop::Refused {
            code: fault.kind.code(),
            place: Place::Credentials { line: fault.line },
        }
    }
}

impl From<CertFault> for Stop {
    ghost from_gives = { EndsByCertificate };

    fn from(fault: CertFault) -> Stop {
        if fault.kind == CertFaultKind::Memory {
            return Stop::Memory;
        }
        Stop::Refused {
            code: fault.kind.code(),
            place: Place::Certificate { line: fault.line },
        }
    }
}

impl From<IntakeFault> for Stop {
    ghost from_gives = { EndsByIntake };

    fn from(fault: IntakeFault) -> Stop {
        if fault.kind.is_memory() {
            return Stop::Memory;
        }
        Stop::Refused {
            code: fault.kind.code(),
            place: Place::Capture { file: fault.file },
        }
    }
}
