//! Reads the lines of a checkpoint. A line has to be the text that is written for its content.

ghost use Rattle.std.specs.Prelude.{◌≡◌, Ok, MatchResult};
ghost use Rattle.audit_text.specs.Reading.{UnlessMemory};
ghost use Rattle.watch_checkpoint.specs.Content.{header_content};
ghost use Rattle.watch_checkpoint.specs.Fault.{is_memory, of_word};
ghost use Rattle.watch_checkpoint.specs.Words.{entry_of, header_of, moment_of};

use crate::checkpoint::Header;
use crate::entry::Entry;
use crate::fault::LineKind;
use crate::spelling::{add_entry, add_header, add_moment};
use crate::words::{parse_entry, parse_header, parse_moment};
use std::alloc::Global;

/// Reads a line after the moment's.
#[tactic(auto, unfolding(crate::specs::Words::entry_of))]
pub fn read_entry(alloc: Global, line: &[u8]) -> Result<Entry, LineKind>
    ensures { MatchResult result (λ entry. entry_of line.now ≡ Ok entry)
        (λ kind. UnlessMemory is_memory kind (entry_of line.now)) }
{
    let entry = parse_entry(alloc, line)?;
    let mut text = Vec::new(alloc);
    add_entry(alloc, &mut text, &entry)?;
    if text.as_slice() != line {
        return Err(LineKind::Line);
    }
    Ok(entry)
}

/// Reads the header.
#[tactic(auto, unfolding(crate::specs::Words::header_of))]
pub fn read_header(alloc: Global, line: &[u8]) -> Result<Header, LineKind>
    ensures { MatchResult result (λ header. header_of line.now ≡ Ok (header_content header))
        (λ kind. UnlessMemory is_memory kind (header_of line.now)) }
{
    let header = parse_header(line)?;
    let mut text = Vec::new(alloc);
    add_header(alloc, &mut text, &header)?;
    if text.as_slice() != line {
        return Err(LineKind::Line);
    }
    Ok(header)
}

/// Reads the moment's line.
#[tactic(auto, unfolding(crate::specs::Words::moment_of))]
pub fn read_moment(alloc: Global, line: &[u8]) -> Result<u64, LineKind>
    ensures { MatchResult result (λ moment. moment_of line.now ≡ Ok moment)
        (λ kind. UnlessMemory is_memory kind (moment_of line.now)) }
{
    let moment = parse_moment(line)?;
    let mut text = Vec::new(alloc);
    add_moment(&mut text, moment)?;
    if text.as_slice() != line {
        return Err(LineKind::Line);
    }
    Ok(moment)
}
