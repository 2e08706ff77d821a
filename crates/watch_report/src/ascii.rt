//! Bytes of strangers as printable ASCII.

ghost use Rattle.std.specs.Prelude.{◌≡◌, ◌++◌, true, IfOk, OnOk, string_bytes};
ghost use Rattle.watch_report.specs.Ascii.{ascii_byte, ascii_bytes, hex_escape, is_printable, is_printable_byte};

use std::alloc::{AllocError, Global};

/// Adds a byte as `\xHH`.
fn add_hex(text: &mut String, byte: u8) -> Result<(), AllocError>
    ensures { OnOk result (string_bytes text.new ≡ string_bytes text.old ++ hex_escape byte) }
{
    write!(text, "\\x{byte:02X}")
}

/// Adds a printable byte, or `\xHH` for another one, a quote and a backslash.
fn add_byte(text: &mut String, byte: u8) -> Result<(), AllocError>
    ensures { OnOk result (string_bytes text.new ≡ string_bytes text.old ++ ascii_byte byte) }
{
    if byte < 32 || 126 < byte || byte == b'"' || byte == b'\\' {
        return add_hex(text, byte);
    }
    text.push(char::from(byte))
}

/// The bytes as printable ASCII. They can be recovered: each backslash begins a byte as `\xHH`.
pub fn ascii_text(alloc: Global, bytes: &[u8]) -> Result<String, AllocError>
    ensures text { IfOk result (λ text. string_bytes text ≡ ascii_bytes bytes.now) }
    ensures printable { IfOk result (λ text. is_printable (string_bytes text) ≡ true) }
{
    let mut text = String::new(alloc);
    'bytes: for byte in bytes {
        add_byte(&mut text, *byte)?;
    }
    Ok(text)
}
