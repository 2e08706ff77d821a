//! A word of a command line.

ghost use Rattle.std.specs.Prelude.{◌≡◌, ◌++◌, OnOk};
ghost use Rattle.std.specs.List.{list_all};
ghost use Rattle.prep_steps.specs.Shell.{is_plain, is_plain_byte, quoted, quoted_byte, quoted_bytes, word_text};

use std::alloc::AllocError;

/// Whether a shell reads a byte literally, also without quotes.
fn is_plain_byte(byte: u8) -> bool
    ensures { result ≡ is_plain_byte byte }
{
    byte.is_ascii_alphanumeric() || b"%+,-./:=@_".contains(&byte)
}

/// Whether a shell reads all bytes literally.
fn are_plain(word: &[u8]) -> bool
    ensures { result ≡ list_all is_plain_byte word.now }
{
    word.iter().all(|byte| is_plain_byte(*byte))
}

/// Whether a shell reads a word literally, also without quotes.
fn is_plain(word: &[u8]) -> bool
    ensures { result ≡ is_plain word.now }
{
    !word.is_empty() && are_plain(word)
}

/// Appends a byte as it is written between single quotes.
fn push_byte(text: &mut Vec<u8>, byte: u8) -> Result<(), AllocError>
    ensures { OnOk result (text.new.items ≡ text.old.items ++ quoted_byte byte) }
{
    if byte == b'\'' {
        text.extend_from_slice(b"'\\''")
    } else {
        text.extend_from_slice(&[byte])
    }
}

/// Appends the bytes of a word as they are written between single quotes.
fn push_bytes(text: &mut Vec<u8>, word: &[u8]) -> Result<(), AllocError>
    ensures { OnOk result (text.new.items ≡ text.old.items ++ quoted_bytes word.now) }
{
    for byte in word {
        push_byte(text, *byte)?;
    }
    Ok(())
}

/// Appends a word between single quotes.
fn push_quoted(text: &mut Vec<u8>, word: &[u8]) -> Result<(), AllocError>
    ensures { OnOk result (text.new.items ≡ text.old.items ++ quoted word.now) }
{
    text.extend_from_slice(b"'")?;
    push_bytes(text, word)?;
    text.extend_from_slice(b"'")
}

/// Appends a word, between single quotes unless a shell reads it literally without them.
pub fn push_word(text: &mut Vec<u8>, word: &[u8]) -> Result<(), AllocError>
    ensures { OnOk result (text.new.items ≡ text.old.items ++ word_text word.now) }
{
    if is_plain(word) {
        text.extend_from_slice(word)
    } else {
        push_quoted(text, word)
    }
}
