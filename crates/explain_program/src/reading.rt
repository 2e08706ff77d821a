//! Files that are read again for the page: the facts of captures, and the texts.

use crate::comment::comment_of;
use audit_files::Source;
use audit_pcapng::BlockKind;
use explain_page::{CaptureRow, Digests, Hashing};
use prep_blocks::{Block, BlockSplitter};
use std::alloc::{AllocError, Global};

/// How many bytes are read at once.
const PIECE: usize = 65_536;

/// The digests of a file; `None` if it can't be read.
pub fn digests_of<S: Source>(
    alloc: Global,
    source: &mut S,
    name: &str,
) -> Result<Option<Digests>, AllocError> {
    let mut piece = vec![in alloc; 0u8; PIECE]?;
    let mut hashing = Hashing::new();
    let mut at = 0u64;
    'pieces: for _ in 0..u64::MAX {
        let Ok(read) = source.piece(name, at, &mut piece) else {
            return Ok(None);
        };
        if read == 0 {
            break;
        }
        hashing.feed(&piece[..read]);
        at = at.saturating_add(read as u64);
    }
    Ok(Some(hashing.finish()))
}

/// The bytes of a file, at most this number.
pub fn text_of<S: Source>(
    alloc: Global,
    source: &mut S,
    name: &str,
    most: usize,
) -> Result<Vec<u8>, AllocError> {
    let mut text = Vec::new(alloc);
    let mut piece = vec![in alloc; 0u8; PIECE]?;
    let mut at = 0u64;
    'pieces: for _ in 0..u64::MAX {
        let Ok(read) = source.piece(name, at, &mut piece) else {
            break;
        };
        if read == 0 || text.len() >= most {
            break;
        }
        text.extend_from_slice(&piece[..read])?;
        at = at.saturating_add(read as u64);
    }
    text.truncate(most);
    Ok(text)
}

/// A row before the first block.
fn no_blocks() -> CaptureRow {
    CaptureRow {
        interfaces: 0,
        packets: 0,
        first: None,
        last: None,
        statistics: 0,
    }
}

/// The row with one more block.
fn with_block(row: CaptureRow, block: &Block) -> CaptureRow {
    let mut row = row;
    match block.kind {
        BlockKind::Interface => row.interfaces = row.interfaces.saturating_add(1),
        BlockKind::Statistics => row.statistics = row.statistics.saturating_add(1),
        BlockKind::Packet | BlockKind::Section | BlockKind::NoStamp | BlockKind::Other => {}
    }
    if let Some(head) = block.packet {
        row.packets = row.packets.saturating_add(1);
        row.first = Some(row.first.unwrap_or(head.stamp).min(head.stamp));
        row.last = Some(row.last.unwrap_or(head.stamp).max(head.stamp));
    }
    row
}

/// The facts of a capture, as far as it was read.
#[derive(Drop)]
pub struct CaptureFacts {
    pub row: CaptureRow,
    /// The comment of the last section header that has one, or `None`. The last comment is of the
    /// program that wrote the file last, as `turnprep cut` does.
    pub comment: Option<String>,
}

impl CaptureFacts {
    /// Reads the next block.
    fn take(&mut self, alloc: Global, block: &Block) -> Result<(), AllocError> {
        self.row = with_block(self.row, block);
        if block.kind == BlockKind::Section {
            if let Some(comment) = comment_of(alloc, block)? {
                self.comment = Some(comment);
            }
        }
        Ok(())
    }
}

/// Reads the blocks that a piece completes; returns false if the capture can't be read further.
fn take_piece(
    alloc: Global,
    splitter: &mut BlockSplitter,
    piece: &[u8],
    facts: &mut CaptureFacts,
) -> Result<bool, AllocError> {
    let mut rest = piece;
    'blocks: for _ in 0..piece.len() {
        match splitter.next(rest) {
            Ok(Some((block, next))) => {
                facts.take(alloc, &block)?;
                rest = next;
            }
            Ok(None) => return Ok(true),
            Err(_) => return Ok(false),
        }
    }
    Ok(true)
}

/// Reads a capture again, to its end. If it isn't whole, the blocks before the fault are counted.
pub fn capture_facts<S: Source>(
    alloc: Global,
    source: &mut S,
    name: &str,
) -> Result<CaptureFacts, AllocError> {
    let mut piece = vec![in alloc; 0u8; PIECE]?;
    let mut splitter = BlockSplitter::new(alloc);
    let mut facts = CaptureFacts {
        row: no_blocks(),
        comment: None,
    };
    let mut is_whole = true;
    let mut at = 0u64;
    'pieces: for _ in 0..u64::MAX {
        let Ok(read) = source.piece(name, at, &mut piece) else {
            break;
        };
        if read == 0 {
            break;
        }
        is_whole = is_whole && take_piece(alloc, &mut splitter, &piece[..read], &mut facts)?;
        at = at.saturating_add(read as u64);
    }
    Ok(facts)
}
