//! The shape of a line of users, without bytes that may be a password.

use std::fmt;

/// A line of users: its first word unchanged, and of the rest the TABs, the spaces and the CRs, as
/// `cat -A` prints them. Other bytes after the first word are printed as `*`, because a password
/// may be among them; a line of one word is hidden from its first byte.
#[derive(Clone, Copy)]
pub struct Shape<'a> {
    pub line: &'a [u8],
}

/// Whether a byte separates words.
fn parts(byte: u8) -> bool {
    byte == b'\t' || byte == b' ' || byte == b':' || byte == b'='
}

/// Writes a byte, hidden or not.
fn write_byte<W: fmt::Write>(f: &mut fmt::Formatter<W>, byte: u8, is_hidden: bool) -> fmt::Result {
    match byte {
        b'\t' => f.write_str("^I"),
        b'\r' => f.write_str("^M"),
        b' ' => f.write_str(" "),
        0x21..=0x7E if !is_hidden && byte != b'"' && byte != b'\\' => {
            let c = char::from(byte);
            write!(f, "{c}")
        }
        0x21..=0x7E => f.write_str("*"),
        _ => write!(f, "\\x{byte:02X}"),
    }
}

impl fmt::Display for Shape<'_> {
    fn fmt<W: fmt::Write>(&self, f: &mut fmt::Formatter<W>) -> fmt::Result {
        let mut is_hidden = !self.line.iter().any(|byte| parts(*byte));
        for byte in self.line {
            is_hidden = is_hidden || parts(*byte);
            write_byte(f, *byte, is_hidden)?;
        }
        Ok(())
    }
}
