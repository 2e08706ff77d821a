//! Writes a certificate to a sink, with its lanes' lines formatted by many threads.

ghost use Rattle.std.specs.Prelude.{◌≡◌, ◌≤◌, ◌<◌, ◌++◌, codes, length, IfOk, OnOk, OnErr, IfErr};
ghost use Rattle.std.specs.List.{flat_map};
ghost use Rattle.audit_model.specs.Sink.{followed_by, raised_by, IsFollowedByFront};
ghost use Rattle.audit_model.specs.declared.write_fault.WriteFault.TheVariants as fault;
ghost use Rattle.audit_cert.specs.Spelling.{lane_lines, drop_line, spelling, said_by};
ghost use Rattle.audit_cert.specs.Pieces.{piece_text};
ghost use Rattle.audit_cert.specs.Writing.{Puts};

use crate::piece_texts::{joined, text_of};
use crate::pieces::{Piece, pieces_of};
use crate::writing::{put, put_drops_on, put_front, text_of_end, text_of_front};
use audit_model::{CertLane, Certificate, Sink, WriteFault};
use std::alloc::{AllocError, Global};
use std::thread::Threads;

/// How many events' lines are formatted for each thread before they are written.
const EVENTS: usize = 16384;

/// How many pieces fill the room, or all of them. A piece takes a place for each event, and one
/// more.
fn fitting(pieces: &[Piece<'_>], room: usize) -> usize
    ensures within { result ≤ length pieces.now }
    ensures some { 0 < length pieces.now → 0 < result }
{
    let mut room = room;
    'pieces: for number in 0..pieces.len() {
        let events = pieces[number].events.len();
        if room <= events {
            return number + 1;
        }
        room -= events + 1;
    }
    pieces.len()
}

/// Writes pieces, of which all threads format the lines before any is written.
fn put_block<R: Threads + Sync, W: Sink>(
    rt: &R,
    alloc: Global,
    block: &[Piece<'_>],
    workers: u32,
    out: &mut W,
) -> Result<(), WriteFault>
    ensures { Puts (flat_map piece_text block.now) result (record { taken = W.taken out.old; taken_now = W.taken out.new; failures = W.failures out.old; failures_now = W.failures out.new }) }
{
    let text = text_of(rt, alloc, block, workers)?;
    put(text.as_slice(), out)
}

/// Writes pieces, block by block, so that only one block's lines are in memory.
fn put_pieces<R: Threads + Sync, W: Sink>(
    rt: &R,
    alloc: Global,
    pieces: &[Piece<'_>],
    workers: u32,
    out: &mut W,
) -> Result<(), WriteFault>
    ensures { Puts (flat_map piece_text pieces.now) result (record { taken = W.taken out.old; taken_now = W.taken out.new; failures = W.failures out.old; failures_now = W.failures out.new }) }
{
    let mut done = 0;
    'rounds: while done < pieces.len() {
        let end = done + fitting(&pieces[done..], EVENTS * workers as usize);
        put_block(rt, alloc, &pieces[done..end], workers, out)?;
        done = end;
    }
    Ok(())
}

/// Writes the lanes' lines.
fn put_lanes<R: Threads + Sync, W: Sink>(
    rt: &R,
    alloc: Global,
    lanes: &[CertLane],
    workers: u32,
    out: &mut W,
) -> Result<(), WriteFault>
    ensures { Puts (flat_map lane_lines lanes.now) result (record { taken = W.taken out.old; taken_now = W.taken out.new; failures = W.failures out.old; failures_now = W.failures out.new }) }
{
    let pieces = pieces_of(alloc, lanes)?;
    put_pieces(rt, alloc, pieces.as_slice(), workers, out)
}

/// Writes the lanes' lines, and those after them.
fn put_lanes_on<R: Threads + Sync, W: Sink>(
    rt: &R,
    alloc: Global,
    certificate: &Certificate,
    workers: u32,
    out: &mut W,
) -> Result<(), WriteFault>
    ensures { Puts (flat_map lane_lines certificate.now.lanes ++ (flat_map drop_line certificate.now.drops ++ codes "end\n")) result (record { taken = W.taken out.old; taken_now = W.taken out.new; failures = W.failures out.old; failures_now = W.failures out.new }) }
{
    put_lanes(rt, alloc, certificate.lanes.as_slice(), workers, out)?;
    put_drops_on(alloc, certificate.drops.as_slice(), out)
}

/// Whether a certificate has at most as many lines of events and drops as are formatted at once.
fn has_few_lines(certificate: &Certificate) -> bool {
    let mut lines = certificate.drops.len();
    'lanes: for lane in certificate.lanes.as_slice() {
        lines = lines.saturating_add(lane.events.len());
    }
    lines <= EVENTS
}

/// The lanes' lines.
fn text_of_lanes<R: Threads + Sync>(
    rt: &R,
    alloc: Global,
    lanes: &[CertLane],
    workers: u32,
) -> Result<Vec<u8>, AllocError>
    ensures { IfOk result (λ text. text.items ≡ flat_map lane_lines lanes.now) }
{
    let pieces = pieces_of(alloc, lanes)?;
    text_of(rt, alloc, pieces.as_slice(), workers)
}

/// The certificate's one spelling.
fn text_of_certificate<R: Threads + Sync>(
    rt: &R,
    alloc: Global,
    certificate: &Certificate,
    workers: u32,
) -> Result<Vec<u8>, AllocError>
    ensures { IfOk result (λ text. text.items ≡ spelling (said_by certificate.now)) }
{
    let front = text_of_front(alloc, certificate.skews.as_slice())?;
    let lanes = text_of_lanes(rt, alloc, certificate.lanes.as_slice(), workers)?;
    let end = text_of_end(alloc, certificate.drops.as_slice())?;
    joined(front, joined(lanes, end)?)
}

/// Writes a certificate of few lines, all of which are formatted before any is written.
fn put_together<R: Threads + Sync, W: Sink>(
    rt: &R,
    alloc: Global,
    certificate: &Certificate,
    workers: u32,
    out: &mut W,
) -> Result<(), WriteFault>
    ensures { Puts (spelling (said_by certificate.now)) result (record { taken = W.taken out.old; taken_now = W.taken out.new; failures = W.failures out.old; failures_now = W.failures out.new }) }
{
    let text = text_of_certificate(rt, alloc, certificate, workers)?;
    put(text.as_slice(), out)
}

/// Writes a certificate's lines block by block.
fn put_in_blocks<R: Threads + Sync, W: Sink>(
    rt: &R,
    alloc: Global,
    certificate: &Certificate,
    workers: u32,
    out: &mut W,
) -> Result<(), WriteFault>
    ensures { Puts (spelling (said_by certificate.now)) result (record { taken = W.taken out.old; taken_now = W.taken out.new; failures = W.failures out.old; failures_now = W.failures out.new }) }
{
    put_front(alloc, certificate.skews.as_slice(), out)?;
    put_lanes_on(rt, alloc, certificate, workers, out)
}

/// Writes as `write` does, with the lines of the lanes formatted by at most `workers` threads, and
/// about 16,384 for each of them written at a time, so that a sink needs no buffer. If memory runs
/// out, nothing has been written of a certificate with up to 16,384 events and drops. It holds
/// these lines, and 24 bytes for each lane and for each 1,024 events.
pub fn write_parallel<R: Threads + Sync, W: Sink>(
    rt: &R,
    alloc: Global,
    certificate: &Certificate,
    workers: u32,
    out: &mut W,
) -> Result<(), WriteFault>
    ensures ok { OnOk result (W.taken out.new ≡ followed_by (W.taken out.old) (spelling (said_by certificate.now))) }
    ensures front { OnErr result (IsFollowedByFront (W.taken out.old) (spelling (said_by certificate.now)) (W.taken out.new)) }
    ensures kept { OnOk result (W.failures out.new ≡ W.failures out.old) }
    ensures device { IfErr result (λ f. f ≡ fault.Device → W.failures out.new ≡ raised_by (W.failures out.old) 1) }
    ensures memory { IfErr result (λ f. f ≡ fault.Memory → W.failures out.new ≡ W.failures out.old) }
{
    if has_few_lines(certificate) {
        return put_together(rt, alloc, certificate, workers, out);
    }
    put_in_blocks(rt, alloc, certificate, workers, out)
}
