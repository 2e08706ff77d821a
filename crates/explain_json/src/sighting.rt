//! Datagrams.

use crate::object::Object;
use audit_model::{SightId, Sighting};
use explain_story::Printer;
use std::alloc::{AllocError, Global};

/// The intake's facts of a datagram.
fn write_seen(
    object: &mut Object,
    printer: &Printer<'_>,
    sighting: &Sighting,
) -> Result<(), AllocError> {
    let alloc = object.alloc();
    object.nanoseconds("stamp", sighting.stamp)?;
    let from = sighting.from;
    object.string("from", format!(in alloc; "{from}")?)?;
    let to = sighting.to;
    object.string("to", format!(in alloc; "{to}")?)?;
    object.string("what", printer.what(alloc, sighting)?)?;
    object.number("bytes", sighting.payload.len() as u64)
}

/// Nulls, if the captures have no datagram with the name.
fn write_unseen(object: &mut Object) -> Result<(), AllocError> {
    object.nothing("stamp")?;
    object.nothing("from")?;
    object.nothing("to")?;
    object.nothing("what")?;
    object.nothing("bytes")
}

/// The number of a datagram's frame; null if it isn't known.
fn write_frame(
    object: &mut Object,
    printer: &Printer<'_>,
    sight: SightId,
) -> Result<(), AllocError> {
    match printer.frames.frame(sight) {
        Some(frame) => object.number("frame", frame.number),
        None => object.nothing("frame"),
    }
}

/// The name of a datagram's capture; null if no capture has its number.
fn write_capture(
    object: &mut Object,
    printer: &Printer<'_>,
    sight: SightId,
) -> Result<(), AllocError> {
    match printer.capture_name(sight) {
        Some(name) => object.bytes("capture", name.as_bytes()),
        None => object.nothing("capture"),
    }
}

/// A datagram, by its name in reports.
pub fn sighting_of(
    alloc: Global,
    printer: &Printer<'_>,
    sight: SightId,
) -> Result<Object, AllocError> {
    let mut object = Object::new(alloc);
    object.number("interface", u64::from(sight.iface))?;
    object.number("index", u64::from(sight.index))?;
    write_capture(&mut object, printer, sight)?;
    write_frame(&mut object, printer, sight)?;
    match printer.case.intake.sighting(sight) {
        Some(sighting) => write_seen(&mut object, printer, sighting)?,
        None => write_unseen(&mut object)?,
    }
    Ok(object)
}
