//! Bytes as characters.

use std::fmt;

/// External bytes, as characters; those that aren't printable, quotes and backslashes as `\x` and
/// two digits.
#[derive(Clone, Copy, Debug)]
pub struct Shown<'a>(pub &'a [u8]);

impl fmt::Display for Shown<'_> {
    fn fmt<W: fmt::Write>(&self, f: &mut fmt::Formatter<W>) -> fmt::Result {
        for byte in self.0 {
            let byte = *byte;
            if 0x20 <= byte && byte <= 0x7E && byte != b'\'' && byte != b'\\' {
                f.write_char(char::from(byte))?;
            } else {
                write!(f, "\\x{byte:02x}")?;
            }
        }
        Ok(())
    }
}
