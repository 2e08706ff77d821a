//! Writes a certificate to a sink, line by line.

ghost use Rattle.std.specs.Prelude.{◌≡◌, ◌++◌, codes, IfOk, OnOk, OnErr, IfErr};
ghost use Rattle.std.specs.List.{flat_map};
ghost use Rattle.audit_model.specs.Sink.{followed_by, raised_by, IsFollowedByFront};
ghost use Rattle.audit_model.specs.declared.write_fault.WriteFault.TheVariants as fault;
ghost use Rattle.audit_cert.specs.Spelling.{lane_line, lane_lines, event_line, drop_line, skew_line, front, spelling, said_by};
ghost use Rattle.audit_cert.specs.Writing.{Puts};

use crate::spelling::{add_drop, add_event, add_skew, text_of_lane};
use audit_model::{CertDrop, CertLane, CertSkew, Certificate, Event, Sink, WriteFault, put_all};
use std::alloc::{AllocError, Global};

const HEADING_LINE: &[u8; 24] = b"turnaudit-certificate 1\n";

const SECOND_HEADING_LINE: &[u8; 24] = b"turnaudit-certificate 2\n";

const END_LINE: &[u8; 4] = b"end\n";

/// How many lines of drops are formatted before they are written.
const LINES: usize = 16_384;

/// Writes all of the bytes if it returns Ok.
pub fn put<W: Sink>(bytes: &[u8], out: &mut W) -> Result<(), WriteFault>
    ensures { Puts bytes.now result (record { taken = W.taken out.old; taken_now = W.taken out.new; failures = W.failures out.old; failures_now = W.failures out.new }) }
{
    put_all(out, bytes)?;
    Ok(())
}

/// Writes an event's line, which is formatted in the memory of the one before.
fn put_event<W: Sink>(line: &mut Vec<u8>, event: &Event, out: &mut W) -> Result<(), WriteFault>
    ensures { Puts (event_line event.now) result (record { taken = W.taken out.old; taken_now = W.taken out.new; failures = W.failures out.old; failures_now = W.failures out.new }) }
{
    line.clear();
    add_event(line, event)?;
    put(line.as_slice(), out)
}

fn put_events<W: Sink>(alloc: Global, events: &[Event], out: &mut W) -> Result<(), WriteFault>
    ensures { Puts (flat_map event_line events.now) result (record { taken = W.taken out.old; taken_now = W.taken out.new; failures = W.failures out.old; failures_now = W.failures out.new }) }
{
    let mut line = Vec::new(alloc);
    for event in events {
        put_event(&mut line, event, out)?;
    }
    Ok(())
}

fn put_lane_line<W: Sink>(alloc: Global, lane: &CertLane, out: &mut W) -> Result<(), WriteFault>
    ensures { Puts (lane_line lane.now) result (record { taken = W.taken out.old; taken_now = W.taken out.new; failures = W.failures out.old; failures_now = W.failures out.new }) }
{
    let line = text_of_lane(alloc, lane)?;
    put(line.as_bytes(), out)
}

/// Writes a lane's line, and then its events'.
fn put_lane<W: Sink>(alloc: Global, lane: &CertLane, out: &mut W) -> Result<(), WriteFault>
    ensures { Puts (lane_lines lane.now) result (record { taken = W.taken out.old; taken_now = W.taken out.new; failures = W.failures out.old; failures_now = W.failures out.new }) }
{
    put_lane_line(alloc, lane, out)?;
    put_events(alloc, lane.events.as_slice(), out)
}

fn put_lanes<W: Sink>(alloc: Global, lanes: &[CertLane], out: &mut W) -> Result<(), WriteFault>
    ensures { Puts (flat_map lane_lines lanes.now) result (record { taken = W.taken out.old; taken_now = W.taken out.new; failures = W.failures out.old; failures_now = W.failures out.new }) }
{
    for lane in lanes {
        put_lane(alloc, lane, out)?;
    }
    Ok(())
}

/// The lines of drops.
fn text_of_drops(alloc: Global, drops: &[CertDrop]) -> Result<Vec<u8>, AllocError>
    ensures { IfOk result (λ text. text.items ≡ flat_map drop_line drops.now) }
{
    let mut text = Vec::new(alloc);
    'drops: for drop in drops {
        add_drop(&mut text, drop)?;
    }
    Ok(text)
}

/// Writes drops' lines, which are formatted before any is written.
fn put_drops_together<W: Sink>(
    alloc: Global,
    drops: &[CertDrop],
    out: &mut W,
) -> Result<(), WriteFault>
    ensures { Puts (flat_map drop_line drops.now) result (record { taken = W.taken out.old; taken_now = W.taken out.new; failures = W.failures out.old; failures_now = W.failures out.new }) }
{
    let text = text_of_drops(alloc, drops)?;
    put(text.as_slice(), out)
}

/// Writes drops' lines, `LINES` at a time, so that a million of them aren't a million calls.
fn put_drops<W: Sink>(alloc: Global, drops: &[CertDrop], out: &mut W) -> Result<(), WriteFault>
    ensures { Puts (flat_map drop_line drops.now) result (record { taken = W.taken out.old; taken_now = W.taken out.new; failures = W.failures out.old; failures_now = W.failures out.new }) }
{
    let mut done = 0;
    'rounds: while done < drops.len() {
        let end = drops.len().min(done.saturating_add(LINES));
        put_drops_together(alloc, &drops[done..end], out)?;
        done = end;
    }
    Ok(())
}

/// The drops' lines and the last line.
pub fn text_of_end(alloc: Global, drops: &[CertDrop]) -> Result<Vec<u8>, AllocError>
    ensures { IfOk result (λ text. text.items ≡ flat_map drop_line drops.now ++ codes "end\n") }
{
    let mut text = text_of_drops(alloc, drops)?;
    text.extend_from_slice(END_LINE)?;
    Ok(text)
}

/// Writes the drops' lines and the last line.
pub fn put_drops_on<W: Sink>(
    alloc: Global,
    drops: &[CertDrop],
    out: &mut W,
) -> Result<(), WriteFault>
    ensures { Puts (flat_map drop_line drops.now ++ codes "end\n") result (record { taken = W.taken out.old; taken_now = W.taken out.new; failures = W.failures out.old; failures_now = W.failures out.new }) }
{
    put_drops(alloc, drops, out)?;
    put(END_LINE, out)
}

/// Writes the lanes' lines, and those after them.
fn put_lanes_on<W: Sink>(
    alloc: Global,
    certificate: &Certificate,
    out: &mut W,
) -> Result<(), WriteFault>
    ensures { Puts (flat_map lane_lines certificate.now.lanes ++ (flat_map drop_line certificate.now.drops ++ codes "end\n")) result (record { taken = W.taken out.old; taken_now = W.taken out.new; failures = W.failures out.old; failures_now = W.failures out.new }) }
{
    put_lanes(alloc, certificate.lanes.as_slice(), out)?;
    put_drops_on(alloc, certificate.drops.as_slice(), out)
}

/// Adds skews' lines.
fn add_skews(text: &mut Vec<u8>, skews: &[CertSkew]) -> Result<(), AllocError>
    ensures { OnOk result (text.new.items ≡ text.old.items ++ flat_map skew_line skews.now) }
{
    'skews: for skew in skews {
        add_skew(text, skew)?;
    }
    Ok(())
}

/// The heading, of version 2 if there are skews, and their lines.
pub fn text_of_front(alloc: Global, skews: &[CertSkew]) -> Result<Vec<u8>, AllocError>
    ensures { IfOk result (λ text. text.items ≡ front skews.now) }
{
    let mut text = Vec::new(alloc);
    if skews.is_empty() {
        text.extend_from_slice(HEADING_LINE)?;
        return Ok(text);
    }
    text.extend_from_slice(SECOND_HEADING_LINE)?;
    add_skews(&mut text, skews)?;
    Ok(text)
}

/// Writes the heading and the skews' lines.
pub fn put_front<W: Sink>(alloc: Global, skews: &[CertSkew], out: &mut W) -> Result<(), WriteFault>
    ensures { Puts (front skews.now) result (record { taken = W.taken out.old; taken_now = W.taken out.new; failures = W.failures out.old; failures_now = W.failures out.new }) }
{
    let text = text_of_front(alloc, skews)?;
    put(text.as_slice(), out)
}

fn put_certificate<W: Sink>(
    alloc: Global,
    certificate: &Certificate,
    out: &mut W,
) -> Result<(), WriteFault>
    ensures { Puts (spelling (said_by certificate.now)) result (record { taken = W.taken out.old; taken_now = W.taken out.new; failures = W.failures out.old; failures_now = W.failures out.new }) }
{
    put_front(alloc, certificate.skews.as_slice(), out)?;
    put_lanes_on(alloc, certificate, out)
}

/// Writes the certificate's one spelling. After an error a prefix of it may have been written:
/// `Device` if the sink failed, `Memory` if memory ran out for a line.
pub fn write<W: Sink>(
    alloc: Global,
    certificate: &Certificate,
    out: &mut W,
) -> Result<(), WriteFault>
    ensures ok { OnOk result (W.taken out.new ≡ followed_by (W.taken out.old) (spelling (said_by certificate.now))) }
    ensures front { OnErr result (IsFollowedByFront (W.taken out.old) (spelling (said_by certificate.now)) (W.taken out.new)) }
    ensures kept { OnOk result (W.failures out.new ≡ W.failures out.old) }
    ensures device { IfErr result (λ f. f ≡ fault.Device → W.failures out.new ≡ raised_by (W.failures out.old) 1) }
    ensures memory { IfErr result (λ f. f ≡ fault.Memory → W.failures out.new ≡ W.failures out.old) }
{
    put_certificate(alloc, certificate, out)
}
