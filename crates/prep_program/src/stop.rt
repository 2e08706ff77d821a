//! Why a run ended early.

ghost use Rattle.std.specs.Prelude.{◌≡◌};
ghost use Rattle.prep_program.specs.Stops.{status_of_stop};

use crate::maker::MakeFault;
use crate::reason::Reason;
use crate::ring_name::Gap;
use crate::source::ReadFailed;
use crate::text_fault::TextFault;
use audit_model::{PolicyFault, PolicyFaultKind, SinkFailed};
use audit_pcapng::CaptureFault;
use explain_text::Escaped;
use prep_coturn::ConfFault;
use prep_cut::{CutFault, CutRefused};
use prep_fragments::Refused as ReassembleRefused;
use prep_join::{JoinFault, Refused};
use prep_look::{GuessFault, Restart};
use prep_translate::{Refused as TranslateRefused, RenamingFault};
use prep_users::{ConfiguredFault, UsersFault};
use std::alloc::{AllocError, AllocFailed};
use std::fmt;

/// Why a run ended early.
#[derive(Debug, Drop)]
pub enum Stop {
    /// No policy can be made from a configuration.
    Conf(ConfFault),
    /// A file isn't a configuration.
    Text(TextFault),
    /// The capture of this name can't be read twice.
    ReadOnce(String),
    /// A capture was refused.
    Capture(Refused),
    /// A capture that is to be cut was refused.
    Cut(CutRefused),
    /// A file of a ring is missing.
    Missing(Gap),
    /// The policy was refused.
    Policy(PolicyFault),
    /// Translations don't fit the policy.
    Renaming(RenamingFault),
    /// A capture can't be translated.
    Translate(TranslateRefused),
    /// A capture's fragments can't be reassembled.
    Reassemble(ReassembleRefused),
    /// A configuration names no users.
    Users(UsersFault),
    /// The capture of this number has the name of an earlier one.
    SameName(u32),
    /// No policy can be guessed.
    Guess(GuessFault),
    /// The server was restarted: the operator must state which of the two times is meant.
    Restarted(Restart),
    /// Usage error.
    Words(&'static str),
    /// Out of memory.
    Memory,
    /// A file could not be read.
    Read,
    /// The capture of this number changed between its two readings.
    Changed(u32),
    /// A file couldn't be made, or output couldn't be written.
    Write,
    /// An output file exists already.
    Exists,
}

impl Stop {
    /// The exit status.
    pub fn status(&self) -> u8
        ensures { result ≡ status_of_stop self.now }
    {
        match self {
            Stop::Conf(_) | Stop::Capture(_) | Stop::Missing(_) => 2,
            Stop::Text(_) | Stop::ReadOnce(_) => 2,
            Stop::Policy(_)
            | Stop::Renaming(_)
            | Stop::Translate(_)
            | Stop::SameName(_)
            | Stop::Users(_)
            | Stop::Reassemble(_)
            | Stop::Guess(_)
            | Stop::Restarted(_)
            | Stop::Cut(_) => 2,
            Stop::Words(_) => 5,
            Stop::Memory => 3,
            Stop::Read | Stop::Changed(_) | Stop::Write | Stop::Exists => 4,
        }
    }

    /// The fault of a capture that is to be cut, by its number.
    pub fn of_cut(capture: u32, fault: CutFault) -> Stop {
        match fault {
            CutFault::Capture(CaptureFault::Memory) => Stop::Memory,
            _ => Stop::Cut(CutRefused { capture, fault }),
        }
    }

    /// The fault of a capture, by its number.
    pub fn of_capture(capture: u32, fault: JoinFault) -> Stop {
        match fault {
            JoinFault::Capture(CaptureFault::Memory) => Stop::Memory,
            _ => Stop::Capture(Refused { capture, fault }),
        }
    }
}

/// The line for standard error, without its LF.
impl fmt::Display for Stop {
    fn fmt<W: fmt::Write>(&self, f: &mut fmt::Formatter<W>) -> fmt::Result {
        let reason = Reason { stop: self };
        match self {
            Stop::Conf(fault) => write!(f, "refused {fault}"),
            Stop::Text(fault) => write!(f, "refused {fault}"),
            Stop::ReadOnce(name) => {
                let name = Escaped {
                    bytes: name.as_bytes(),
                };
                write!(
                    f,
                    "refused {name}: it has to be a file that can be read twice"
                )
            }
            Stop::Capture(refused) => write!(f, "refused {refused}{reason}"),
            Stop::Cut(refused) => write!(f, "refused {refused}{reason}"),
            Stop::Missing(gap) => {
                let capture = gap.capture;
                let earlier = capture.saturating_sub(1);
                let before = gap.before;
                let here = gap.here;
                write!(
                    f,
                    "refused capture {earlier} is number {before} of the ring and capture {capture} is number {here}"
                )
            }
            Stop::Policy(fault) => {
                let code = fault.kind.code();
                let line = fault.line;
                write!(f, "refused {code} in policy line {line}{reason}")
            }
            Stop::Renaming(fault) => write!(f, "refused {fault}"),
            Stop::Translate(refused) => write!(f, "refused {refused}{reason}"),
            Stop::Reassemble(refused) => write!(f, "refused {refused}{reason}"),
            Stop::Users(fault) => write!(f, "refused {fault}"),
            Stop::Guess(fault) => write!(f, "refused {fault}"),
            Stop::SameName(capture) => write!(
                f,
                "refused the name of capture {capture}: an earlier one has it"
            ),
            Stop::Restarted(restart) => {
                let until = restart.until;
                let since = restart.since;
                write!(
                    f,
                    "the server was restarted: add --until {until} for the time before, or --since {since} --from-start for the time after"
                )
            }
            Stop::Words(text) => f.write_str(text),
            Stop::Memory => f.write_str("out of memory"),
            Stop::Read => f.write_str("a file can't be read"),
            Stop::Changed(capture) => write!(f, "capture {capture} changed while it was read"),
            Stop::Write => f.write_str("the answer can't be written"),
            Stop::Exists => f.write_str("a file of that name exists"),
        }
    }
}

impl From<AllocError> for Stop {
    fn from(_error: AllocError) -> Stop {
        Stop::Memory
    }
}

impl<T: Drop> From<AllocFailed<T>> for Stop {
    fn from(_failed: AllocFailed<T>) -> Stop {
        Stop::Memory
    }
}

impl From<ReadFailed> for Stop {
    fn from(_failed: ReadFailed) -> Stop {
        Stop::Read
    }
}

impl From<SinkFailed> for Stop {
    fn from(_failed: SinkFailed) -> Stop {
        Stop::Write
    }
}

impl From<MakeFault> for Stop {
    fn from(fault: MakeFault) -> Stop {
        match fault {
            MakeFault::Exists => Stop::Exists,
            MakeFault::Failed => Stop::Write,
            MakeFault::Memory => Stop::Memory,
        }
    }
}

impl From<ConfFault> for Stop {
    fn from(fault: ConfFault) -> Stop {
        match fault {
            ConfFault::Memory => Stop::Memory,
            fault => Stop::Conf(fault),
        }
    }
}

impl From<PolicyFault> for Stop {
    fn from(fault: PolicyFault) -> Stop {
        match fault.kind {
            PolicyFaultKind::Memory => Stop::Memory,
            _ => Stop::Policy(fault),
        }
    }
}

impl From<RenamingFault> for Stop {
    fn from(fault: RenamingFault) -> Stop {
        match fault {
            RenamingFault::Memory => Stop::Memory,
            RenamingFault::Twice(_) => Stop::Words("--external-ip names an address twice"),
            fault => Stop::Renaming(fault),
        }
    }
}

impl From<GuessFault> for Stop {
    fn from(fault: GuessFault) -> Stop {
        match fault {
            GuessFault::Memory => Stop::Memory,
            fault => Stop::Guess(fault),
        }
    }
}

impl From<UsersFault> for Stop {
    fn from(fault: UsersFault) -> Stop {
        match fault {
            UsersFault::Configured(ConfiguredFault::Memory) => Stop::Memory,
            fault => Stop::Users(fault),
        }
    }
}
