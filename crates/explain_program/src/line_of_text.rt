//! A line of a file, and its first bytes, read again after a refusal.

use audit_files::Source;
use std::alloc::{AllocError, Global};

/// How many bytes are read at once.
const PIECE: usize = 65_536;

/// At most this number of bytes of a line is kept.
const MOST: usize = 300;

/// At most this number of first bytes of the file is kept.
const FRONT: usize = 24;

/// A line that is longer than this is refused, and not read further.
const LONGEST: u64 = 65_536;

/// A line of a text.
#[derive(Drop)]
pub struct LineOfText {
    /// The first bytes of the file.
    pub front: Vec<u8>,
    /// The line without its LF, or its first 300 bytes.
    pub line: Vec<u8>,
    /// Whether an LF ends it.
    pub is_ended: bool,
    /// The line's number, from 1.
    wanted: u64,
    /// The number of the line that is read.
    at: u64,
    /// How many bytes of the wanted line were read.
    length: u64,
}

impl LineOfText {
    /// No bytes.
    fn new(alloc: Global, wanted: u64) -> LineOfText {
        LineOfText {
            front: Vec::new(alloc),
            line: Vec::new(alloc),
            is_ended: false,
            wanted,
            at: 1,
            length: 0,
        }
    }

    /// Whether the line is longer than the program reads.
    pub fn is_too_long(&self) -> bool {
        self.length > LONGEST
    }

    /// Reads a byte.
    fn take(&mut self, byte: u8) -> Result<(), AllocError> {
        if self.front.len() < FRONT {
            self.front.push(byte)?;
        }
        if self.at == self.wanted && byte != b'\n' && self.line.len() < MOST {
            self.line.push(byte)?;
        }
        if self.at == self.wanted {
            self.length = self.length.saturating_add(1);
        }
        if byte == b'\n' {
            self.is_ended = self.is_ended || self.at == self.wanted;
            self.at = self.at.saturating_add(1);
        }
        Ok(())
    }

    /// Reads a piece, and returns whether no more is needed: the line is complete, or too long.
    fn feed(&mut self, piece: &[u8]) -> Result<bool, AllocError> {
        for byte in piece {
            self.take(*byte)?;
        }
        Ok(self.at > self.wanted || self.is_too_long())
    }
}

/// The line with this number in a file, from 1; its part that was read if the file can't be read so
/// far, or the line is too long.
pub fn line_of_text<S: Source>(
    alloc: Global,
    source: &mut S,
    name: &str,
    wanted: u64,
) -> Result<LineOfText, AllocError> {
    let mut found = LineOfText::new(alloc, wanted);
    let mut piece = vec![in alloc; 0u8; PIECE]?;
    let mut at = 0u64;
    'pieces: for _ in 0..u64::MAX {
        let Ok(read) = source.piece(name, at, &mut piece) else {
            return Ok(found);
        };
        if read == 0 || found.feed(&piece[..read])? {
            return Ok(found);
        }
        at = at.saturating_add(read as u64);
    }
    Ok(found)
}
