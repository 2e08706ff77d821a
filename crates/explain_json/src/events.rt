//! One client's events.

use crate::object::{List, Object};
use crate::sighting::sighting_of;
use audit_model::SightId;
use explain_story::{Lasting, Printer, Rung, Step, Way};
use std::alloc::{AllocError, Global};

/// A datagram that arrives or leaves.
fn write_datagram(
    object: &mut Object,
    printer: &Printer<'_>,
    what: &str,
    sight: SightId,
) -> Result<(), AllocError> {
    let alloc = object.alloc();
    object.text("step", what)?;
    object.object("datagram", sighting_of(alloc, printer, sight)?)
}

/// Which leases have not expired.
fn lasting_of(alloc: Global, lasting: Lasting) -> Result<Object, AllocError> {
    let mut object = Object::new(alloc);
    object.flag("allocation", lasting.allocation)?;
    object.flag("permission", lasting.permission)?;
    object.flag("channel", lasting.channel)?;
    Ok(object)
}

/// The direction of an act.
fn way_word(way: Way) -> &'static str {
    match way {
        Way::Response => "response",
        Way::Up => "to peer",
        Way::Down => "to client",
    }
}

/// What happens at an event.
fn write_step(object: &mut Object, printer: &Printer<'_>, step: Step) -> Result<(), AllocError> {
    let alloc = object.alloc();
    match step {
        Step::Arrives(sight) => write_datagram(object, printer, "arrives", sight),
        Step::Leaves(sight) => write_datagram(object, printer, "leaves", sight),
        Step::Act {
            arrives,
            leaves,
            way,
            lasting,
        } => {
            object.text("step", "act")?;
            object.text("way", way_word(way))?;
            object.object("arrival", sighting_of(alloc, printer, arrives)?)?;
            object.object("departure", sighting_of(alloc, printer, leaves)?)?;
            object.object("lasts", lasting_of(alloc, lasting)?)
        }
    }
}

/// An event.
fn event_of(alloc: Global, printer: &Printer<'_>, rung: &Rung) -> Result<Object, AllocError> {
    let mut object = Object::new(alloc);
    object.number("event", u64::from(rung.place))?;
    object.nanoseconds("moment", rung.moment)?;
    object.flag("is_breach", rung.is_breach)?;
    write_step(&mut object, printer, rung.step)?;
    Ok(object)
}

/// Adds the events of a lane.
pub fn write_events(
    alloc: Global,
    printer: &Printer<'_>,
    rungs: &[Rung],
    answer: &mut Object,
) -> Result<(), AllocError> {
    let mut events = List::new(alloc);
    for rung in rungs {
        events.object(event_of(alloc, printer, rung)?)?;
    }
    answer.list("events", events)
}
