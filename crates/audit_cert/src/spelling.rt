//! Formats the lines of a certificate text.

ghost use Rattle.std.specs.Prelude.{◌≡◌, ◌++◌, codes, decimal, IfOk, OnOk};
ghost use Rattle.std.specs.String.{string_bytes};
ghost use Rattle.audit_cert.specs.Spelling.{lane_line, event_line, drop_line, skew_line, sight_text, placed_text};

use audit_model::{CertDrop, CertLane, CertSkew, Event, Key, SightId};
use itoa::Buffer;
use std::alloc::{AllocError, Global};

/// Adds a number in decimal.
fn add_number(line: &mut Vec<u8>, number: u64) -> Result<(), AllocError>
    ensures { OnOk result (line.new.items ≡ line.old.items ++ decimal number) }
{
    let mut buffer = Buffer::new();
    line.extend_from_slice(buffer.format(number).as_bytes())
}

/// Adds a sighting, as `64.0`.
fn add_sight(line: &mut Vec<u8>, sight: SightId) -> Result<(), AllocError>
    ensures { OnOk result (line.new.items ≡ line.old.items ++ sight_text sight) }
{
    add_number(line, sight.iface as u64)?;
    line.extend_from_slice(b".")?;
    add_number(line, sight.index as u64)
}

/// Adds a sighting, its moment and its tie, and the line's end, as `64.0 1500000 0`.
fn add_placed(line: &mut Vec<u8>, sight: SightId, key: Key) -> Result<(), AllocError>
    ensures { OnOk result (line.new.items ≡ line.old.items ++ placed_text sight key) }
{
    let Key { moment, tie } = key;
    add_sight(line, sight)?;
    line.extend_from_slice(b" ")?;
    add_number(line, moment)?;
    line.extend_from_slice(b" ")?;
    add_number(line, tie as u64)?;
    line.extend_from_slice(b"\n")
}

/// Adds an event's line. An act names the arrival, then the departure.
pub fn add_event(line: &mut Vec<u8>, event: &Event) -> Result<(), AllocError>
    ensures { OnOk result (line.new.items ≡ line.old.items ++ event_line event.now) }
{
    match *event {
        Event::In { sight, key } => {
            line.extend_from_slice(b"in ")?;
            add_placed(line, sight, key)
        }
        Event::Act { sight, gives, key } => {
            line.extend_from_slice(b"act ")?;
            add_sight(line, sight)?;
            line.extend_from_slice(b" ")?;
            add_placed(line, gives, key)
        }
        Event::Out { sight, key } => {
            line.extend_from_slice(b"out ")?;
            add_placed(line, sight, key)
        }
    }
}

/// Adds the line of an arrival that was dropped.
pub fn add_drop(line: &mut Vec<u8>, drop: &CertDrop) -> Result<(), AllocError>
    ensures { OnOk result (line.new.items ≡ line.old.items ++ drop_line drop.now) }
{
    line.extend_from_slice(b"drop ")?;
    add_placed(line, drop.sight, drop.key)
}

/// Adds the line of an interface's skew.
pub fn add_skew(line: &mut Vec<u8>, skew: &CertSkew) -> Result<(), AllocError>
    ensures { OnOk result (line.new.items ≡ line.old.items ++ skew_line skew.now) }
{
    line.extend_from_slice(b"skew ")?;
    add_number(line, skew.iface as u64)?;
    line.extend_from_slice(b" ")?;
    add_number(line, skew.microseconds)?;
    line.extend_from_slice(b"\n")
}

/// A lane's first line.
pub fn text_of_lane(alloc: Global, lane: &CertLane) -> Result<String, AllocError>
    ensures { IfOk result (λ text. string_bytes text ≡ lane_line lane.now) }
{
    let client = lane.client;
    let listen = lane.listen;
    format!(in alloc; "lane {client} {listen}\n")
}
