//! Bytes of captures, files and arguments, escaped so that none controls a terminal.

use std::fmt;

/// At most this number of bytes is written.
const MOST: usize = 200;

/// Bytes as text, without quotes around it. A control character, a mark that turns or hides text, a
/// quote, a backslash and a byte that isn't UTF-8 are written as `\xHH`, byte by byte. Backslashes
/// are escaped, too, so the bytes can be recovered.
#[derive(Clone, Copy, Debug)]
pub struct Escaped<'a> {
    pub bytes: &'a [u8],
}

/// The same of the first 200 bytes; if there are more, `..` follows.
#[derive(Clone, Copy, Debug)]
pub struct Quoted<'a> {
    pub bytes: &'a [u8],
}

/// Whether a character is written unescaped.
fn is_plain(c: char) -> bool {
    let code = c as u32;
    if c.is_control() || c == '"' || c == '\\' {
        return false;
    }
    // Marks of direction and width, joiners, line and paragraph ends, tags and specials.
    !(code == 0xAD
        || code == 0x61C
        || code == 0x180E
        || (0x2000 <= code && code <= 0x200F)
        || (0x2028 <= code && code <= 0x202F)
        || (0x205F <= code && code <= 0x206F)
        || code == 0x3000
        || code == 0xFEFF
        || (0xFFF0 <= code && code <= 0xFFFF)
        || 0xE0000 <= code)
}

/// Writes bytes one by one.
fn write_bytes<W: fmt::Write>(f: &mut fmt::Formatter<W>, bytes: &[u8]) -> fmt::Result {
    for byte in bytes {
        let byte = *byte;
        write!(f, "\\x{byte:02X}")?;
    }
    Ok(())
}

/// Writes a character.
fn write_char<W: fmt::Write>(f: &mut fmt::Formatter<W>, c: char) -> fmt::Result {
    if is_plain(c) {
        return write!(f, "{c}");
    }
    let mut room = [0u8; 4];
    let text = c.encode_utf8(&mut room);
    write_bytes(f, text.as_bytes())
}

/// Writes a text.
fn write_text<W: fmt::Write>(f: &mut fmt::Formatter<W>, text: &str) -> fmt::Result {
    for c in text.chars() {
        write_char(f, c)?;
    }
    Ok(())
}

impl fmt::Display for Escaped<'_> {
    fn fmt<W: fmt::Write>(&self, f: &mut fmt::Formatter<W>) -> fmt::Result {
        for chunk in self.bytes.utf8_chunks() {
            write_text(f, chunk.valid())?;
            write_bytes(f, chunk.invalid())?;
        }
        Ok(())
    }
}

impl fmt::Display for Quoted<'_> {
    fn fmt<W: fmt::Write>(&self, f: &mut fmt::Formatter<W>) -> fmt::Result {
        let told = Escaped {
            bytes: self.bytes.get(..MOST).unwrap_or(self.bytes),
        };
        write!(f, "{told}")?;
        if told.bytes.len() < self.bytes.len() {
            return f.write_str("..");
        }
        Ok(())
    }
}
