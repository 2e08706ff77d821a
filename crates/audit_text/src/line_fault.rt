//! A fault of a text, with its line.

use std::fmt;

/// Why a text was refused, with the line.
#[derive(Clone, Copy, Debug, PartialEq, Eq)]
pub struct LineFault<K> {
    pub kind: K,
    /// Counted from 1. It stops at the greatest u64.
    pub line: u64,
}

/// As `P1 line in line 3`.
impl<K: fmt::Display> fmt::Display for LineFault<K> {
    fn fmt<W: fmt::Write>(&self, f: &mut fmt::Formatter<W>) -> fmt::Result {
        let kind = &self.kind;
        let line = self.line;
        write!(f, "{kind} in line {line}")
    }
}
