//! The comment of a capture's section header.

use audit_pcapng::ByteOrder;
use explain_text::Escaped;
use prep_blocks::Block;
use std::alloc::{AllocError, Global};

/// The offset of the options in a section header (pcapng, section 4.1).
const OPTIONS: usize = 24;

/// The bytes after the options: the block's length once more.
const TRAILER: usize = 4;

/// The code of a comment among the options (pcapng, section 3.5).
const COMMENT: u16 = 1;

/// The size of an option's code and length.
const HEAD: usize = 4;

/// At most this number of bytes of a comment is quoted.
const MOST: usize = 4_096;

/// The first comment among options.
fn comment_in<'b>(order: ByteOrder, options: &'b [u8]) -> Option<&'b [u8]> {
    let mut rest = options;
    'options: for _ in 0..options.len() {
        if rest.len() < HEAD {
            return None;
        }
        let code = order.u16_at(rest, 0);
        let length = order.u16_at(rest, 2) as usize;
        let value = rest.get(HEAD..HEAD + length)?;
        if code == COMMENT {
            return Some(value);
        }
        rest = rest.get(HEAD + length.div_ceil(4) * 4..)?;
    }
    None
}

/// The comment of a section header, in plain characters; `None` if it has none.
pub fn comment_of(alloc: Global, block: &Block) -> Result<Option<String>, AllocError> {
    let bytes = block.bytes.as_slice();
    let Some(options) = bytes.get(OPTIONS..bytes.len().saturating_sub(TRAILER)) else {
        return Ok(None);
    };
    let Some(comment) = comment_in(block.order, options) else {
        return Ok(None);
    };
    let escaped = Escaped {
        bytes: &comment[..comment.len().min(MOST)],
    };
    Ok(Some(format!(in alloc; "{escaped}")?))
}
