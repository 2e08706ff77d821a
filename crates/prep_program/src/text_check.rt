//! Checks of a text while it is read, so that a wrong file isn't read whole.

use crate::stop::Stop;
use crate::text_fault::{TextFault, TextFaultKind};
use audit_model::PolicyReader;
use std::alloc::Global;

/// The most bytes of a configuration's line.
const LONGEST_LINE: u64 = 65_536;

/// The most bytes of a secret, with a line feed at its end.
const LONGEST_SECRET: u64 = 4096;

/// The most bytes of a configuration.
const LONGEST_TEXT: u64 = 16_777_216;

/// Checks a text piece by piece.
pub trait TextCheck {
    /// Checks the next piece; refused if the text so far has a fault.
    fn take(&mut self, piece: &[u8]) -> Result<(), Stop>;
}

/// Checks a policy: the first line that is no policy line is refused.
#[derive(Drop)]
pub struct PolicyCheck {
    reader: Option<PolicyReader>,
}

impl PolicyCheck {
    /// Nothing was read yet.
    pub fn new(alloc: Global) -> PolicyCheck {
        PolicyCheck {
            reader: Some(PolicyReader::new(alloc)),
        }
    }
}

impl TextCheck for PolicyCheck {
    fn take(&mut self, piece: &[u8]) -> Result<(), Stop> {
        if let Some(reader) = self.reader.take() {
            self.reader = Some(reader.feed(piece)?);
        }
        Ok(())
    }
}

/// Checks the size of a configuration, and that it has no NUL, so that no file fills the memory.
/// The contents of its lines aren't checked here.
#[derive(Drop)]
pub struct ConfCheck {
    /// The number of the line that is read, from 1.
    line: u64,
    /// How many bytes of it were read.
    length: u64,
    /// How many bytes of the file.
    total: u64,
}

impl ConfCheck {
    /// Nothing was read yet.
    pub fn new() -> ConfCheck {
        ConfCheck {
            line: 1,
            length: 0,
            total: 0,
        }
    }

    /// Checks a byte, and returns its fault, if any.
    fn take_byte(&mut self, byte: u8) -> Option<TextFaultKind> {
        self.total = self.total.saturating_add(1);
        if self.total > LONGEST_TEXT {
            return Some(TextFaultKind::LongText);
        }
        if byte == b'\n' {
            self.line = self.line.saturating_add(1);
            self.length = 0;
            return None;
        }
        self.length = self.length.saturating_add(1);
        if byte == 0 {
            return Some(TextFaultKind::Nul);
        }
        if self.length > LONGEST_LINE {
            return Some(TextFaultKind::LongLine);
        }
        None
    }
}

impl TextCheck for ConfCheck {
    fn take(&mut self, piece: &[u8]) -> Result<(), Stop> {
        for byte in piece {
            if let Some(kind) = self.take_byte(*byte) {
                return Err(Stop::Text(TextFault {
                    line: self.line,
                    kind,
                }));
            }
        }
        Ok(())
    }
}

/// Checks that a secret is one line, and not too long.
#[derive(Drop)]
pub struct SecretCheck {
    /// How many bytes were read.
    total: u64,
    /// Whether the last one was a line feed.
    has_ended: bool,
}

impl SecretCheck {
    /// Nothing was read yet.
    pub fn new() -> SecretCheck {
        SecretCheck {
            total: 0,
            has_ended: false,
        }
    }
}

impl TextCheck for SecretCheck {
    fn take(&mut self, piece: &[u8]) -> Result<(), Stop> {
        for byte in piece {
            self.total = self.total.saturating_add(1);
            if self.has_ended || self.total > LONGEST_SECRET {
                return Err(Stop::Text(TextFault {
                    line: if self.has_ended { 2 } else { 1 },
                    kind: TextFaultKind::LongSecret,
                }));
            }
            self.has_ended = *byte == b'\n';
        }
        Ok(())
    }
}
