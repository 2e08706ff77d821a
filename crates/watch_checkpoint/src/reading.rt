//! Reads a checkpoint.

ghost use Rattle.std.specs.Prelude.{◌≡◌, ◌≢◌, ◌++◌, List, ℕ, codes, Ok, IfOk, IfErr, IfSome, IfNone, MatchResult};
ghost use Rattle.audit_text.specs.Reading.{UnlessMemory};
ghost use Rattle.watch_checkpoint.specs.Adding.{Progress, Says, begun};
ghost use Rattle.watch_checkpoint.specs.declared.fault.CheckpointFault.TheVariants as faults;
ghost use Rattle.watch_checkpoint.specs.Content.{Content, content_of, header_content};
ghost use Rattle.watch_checkpoint.specs.Fault.{is_memory, fault_of};
ghost use Rattle.watch_checkpoint.specs.Fits.{IsCheckpoint};
ghost use Rattle.watch_checkpoint.specs.Reading.{entries_read, rest_read, IsRead, Refuses, RefusesRest};
ghost use Rattle.watch_checkpoint.specs.Spelling.{signed, text_of};

use crate::checkpoint::{Checkpoint, Header};
use crate::draft::Draft;
use crate::fault::{CheckpointFault, LineKind};
use crate::line_reading::{read_header, read_moment};
use crate::writing::{HEADING_LINE, last_line};
use audit_text::{LineFault, TextReader, halves};
use std::alloc::{AllocError, Global};

/// How many bytes the last line has.
const LAST_LINE: usize = 72;

/// The bytes before the last line, if the last line is their digest.
fn signed_part(alloc: Global, bytes: &[u8]) -> Result<Option<&[u8]>, AllocError>
    ensures some { IfOk result (λ found. IfSome found (λ body. bytes.now ≡ signed body.now)) }
    ensures none { IfOk result (λ found. IfNone found ((body : List ℕ) → bytes.now ≢ signed body)) }
{
    if bytes.len() < LAST_LINE {
        return Ok(None);
    }
    let (body, last) = bytes.split_at(bytes.len() - LAST_LINE);
    let digest = last_line(alloc, body)?;
    if last == digest.as_slice() {
        Ok(Some(body))
    } else {
        Ok(None)
    }
}

/// Reads the lines after the moment's.
fn read_entries(
    alloc: Global,
    grace: u64,
    header: Header,
    moment: u64,
    text: &[u8],
) -> Result<Draft, LineFault<LineKind>>
    ensures { MatchResult result (λ draft. (p : Progress) × (entries_read (begun grace (header_content header) moment) text.now ≡ Ok p) × Says draft p)
        (λ fault. UnlessMemory (λ f. is_memory f.kind) fault (entries_read (begun grace (header_content header) moment) text.now)) }
{
    let reader = TextReader::new(alloc, Draft::new(alloc, grace, header, moment));
    reader.feed(text)?.finish()
}

/// The fault of a line.
fn fault_at(line: u64, kind: LineKind) -> CheckpointFault
    ensures { result ≡ fault_of (record { kind = kind; line = line }) }
{
    match kind {
        LineKind::Memory => CheckpointFault::Memory,
        _ => CheckpointFault::Line(line, kind),
    }
}

/// Reads the lines after the first one, without the digest's.
#[tactic(auto, unfolding(crate::specs::Reading::rest_read))]
fn read_rest(alloc: Global, grace: u64, text: &[u8]) -> Result<Checkpoint, CheckpointFault>
    ensures ok { IfOk result (λ checkpoint. rest_read grace text.now ≡ Ok (content_of checkpoint)) }
    ensures err { IfErr result (RefusesRest grace text.now) }
{
    let Ok((second, rest)) = halves(text, b'\n') else {
        return Err(CheckpointFault::Line(2, LineKind::Line));
    };
    let header = match read_header(alloc, second) {
        Ok(header) => header,
        Err(kind) => return Err(fault_at(2, kind)),
    };
    let Ok((third, rest)) = halves(rest, b'\n') else {
        return Err(CheckpointFault::Line(3, LineKind::Line));
    };
    let moment = match read_moment(alloc, third) {
        Ok(moment) => moment,
        Err(kind) => return Err(fault_at(3, kind)),
    };
    let draft = match read_entries(alloc, grace, header, moment, rest) {
        Ok(draft) => draft,
        Err(fault) => return Err(fault_at(fault.line.saturating_add(3), fault.kind)),
    };
    match draft.checkpoint() {
        Ok(checkpoint) => Ok(checkpoint),
        Err(_) => Err(CheckpointFault::Memory),
    }
}

/// Reads a checkpoint line by line.
fn read_lines(alloc: Global, grace: u64, bytes: &[u8]) -> Result<Checkpoint, CheckpointFault>
    ensures ok { IfOk result (λ checkpoint. IsRead grace bytes.now (content_of checkpoint)) }
    ensures why { IfErr result (Refuses grace bytes.now) }
{
    if !bytes.starts_with(HEADING_LINE) {
        return Err(CheckpointFault::Heading);
    }
    let body = match signed_part(alloc, bytes) {
        Ok(Some(body)) => body,
        Ok(None) => return Err(CheckpointFault::Digest),
        Err(_) => return Err(CheckpointFault::Memory),
    };
    match body.strip_prefix(HEADING_LINE) {
        Some(rest) => read_rest(alloc, grace, rest),
        None => Err(CheckpointFault::Digest),
    }
}

/// The checkpoint of which the bytes are the one text, or the first fault: the first line (K1),
/// the digest of the last line (K2), then the first other line that doesn't fit (K3), from 1.
///
/// No two clients have one 5-tuple, or one relayed transport address while the allocations of both
/// are usable at the moment of the checkpoint (RFC 8656, section 6), with this grace in
/// nanoseconds. Permissions and channels follow their client's line. It reads the text once, and
/// takes n log n time in the clients.
pub fn read(alloc: Global, grace: u64, bytes: &[u8]) -> Result<Checkpoint, CheckpointFault>
    // The bytes are the text of the checkpoint that is read.
    ensures found { IfOk result (λ checkpoint. bytes.now ≡ text_of (content_of checkpoint)) }
    ensures exact { IfOk result (λ checkpoint. IsRead grace bytes.now (content_of checkpoint)) }
    // A checkpoint is read from its text, unless memory runs out.
    ensures only { (content : Content) → IsCheckpoint grace content → bytes.now ≡ text_of content
        → MatchResult result (λ checkpoint. content_of checkpoint ≡ content) (λ fault. fault ≡ faults.Memory) }
    // Which fault it is.
    ensures why { IfErr result (Refuses grace bytes.now) }
{
    read_lines(alloc, grace, bytes)
}
