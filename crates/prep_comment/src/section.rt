//! The bytes of a section header with a comment.

ghost use Rattle.std.specs.Prelude.{◌≡◌, ◌≤◌, ◌-◌, IfOk, length};
ghost use Rattle.audit_pcapng.specs.Numbers.{padded};
ghost use Rattle.prep_comment.specs.Sections.{section_of};

use std::alloc::{AllocError, Global};

/// The most bytes of a comment that are written.
const MOST: usize = 4_096;

/// The section's length without the comment.
const BARE: usize = 36;

/// The type of a section header.
const TYPE: [u8; 4] = [0x0A, 0x0D, 0x0D, 0x0A];

/// The magic of a little-endian section, version 1.0, a section without a stated length, and the
/// code of a comment.
const HEAD: [u8; 18] = [
    0x4D, 0x3C, 0x2B, 0x1A, 1, 0, 0, 0, 0xFF, 0xFF, 0xFF, 0xFF, 0xFF, 0xFF, 0xFF, 0xFF, 1, 0,
];

/// The end of the options.
const END: [u8; 4] = [0, 0, 0, 0];

/// The number of bytes that pad a length to a multiple of 4.
fn padding(length: usize) -> usize
    requires { length ≤ 4096 }
    ensures { result ≡ padded length - length }
{
    (length + 3) / 4 * 4 - length
}

/// A section header with a comment in ASCII, of which the first 4,096 bytes are written.
pub fn comment_section(alloc: Global, comment: &str) -> Result<Vec<u8>, AllocError>
    ensures { IfOk result (λ section. section.items ≡ section_of comment.now) }
{
    let bytes = comment.as_bytes();
    let text = &bytes[..MOST.min(bytes.len())];
    let filling = padding(text.len());
    let total = ((BARE + text.len() + filling) as u32).to_le_bytes();
    let mut section = Vec::new(alloc);
    section.extend_from_slice(&TYPE)?;
    section.extend_from_slice(&total)?;
    section.extend_from_slice(&HEAD)?;
    section.extend_from_slice(&(text.len() as u16).to_le_bytes())?;
    section.extend_from_slice(text)?;
    section.extend_from_slice(&END[..filling])?;
    section.extend_from_slice(&END)?;
    section.extend_from_slice(&total)?;
    Ok(section)
}
