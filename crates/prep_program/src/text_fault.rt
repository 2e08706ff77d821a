//! Why a file is neither a coturn configuration nor a secret, whatever its lines contain.

use std::fmt;

/// The options that name the files.
const CONFIGURATION: &str = "turnserver-conf";

const SECRET: &str = "secret-file";

/// The fault of a line that no configuration has, or no file with a secret.
#[derive(Clone, Copy, Debug, PartialEq, Eq)]
pub enum TextFaultKind {
    /// A NUL byte.
    Nul,
    /// More bytes than a line may have.
    LongLine,
    /// The byte after the last that a configuration may have.
    LongText,
    /// More than the one line of a secret, or than a secret's bytes.
    LongSecret,
    /// No byte of a secret.
    NoSecret,
}

/// The first line of a file that has a fault.
#[derive(Clone, Copy, Debug, PartialEq, Eq)]
pub struct TextFault {
    /// From 1.
    pub line: u64,
    pub kind: TextFaultKind,
}

impl fmt::Display for TextFault {
    fn fmt<W: fmt::Write>(&self, f: &mut fmt::Formatter<W>) -> fmt::Result {
        let line = self.line;
        let (file, has) = match self.kind {
            TextFaultKind::Nul => (
                CONFIGURATION,
                "a byte that is zero: this is no configuration",
            ),
            TextFaultKind::LongLine => (
                CONFIGURATION,
                "over 65536 bytes: this is no configuration",
            ),
            TextFaultKind::LongText => {
                (
                    CONFIGURATION,
                    "byte 16777217 of the file, and no more are read",
                )
            }
            TextFaultKind::LongSecret => {
                (
                    SECRET,
                    "more than a secret: that is one line of up to 4096 bytes",
                )
            }
            TextFaultKind::NoSecret => (SECRET, "no secret"),
        };
        write!(f, "{file} line {line} has {has}")
    }
}
