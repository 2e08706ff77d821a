//! A client's events as lines: the ladder.

use crate::ladder::{Lasting, Rung, Step};
use crate::place::Printer;
use crate::scene::Way;
use audit_model::{Side, SightId};
use std::alloc::{AllocError, Global};

/// The arrow of a datagram.
fn arrow(is_clients: bool, side: Side) -> &'static str {
    match (is_clients, side) {
        (true, Side::Arrives) => "C ---------> S             ",
        (true, Side::Leaves) => "C <--------- S             ",
        (false, Side::Arrives) => "             S <--------- P",
        (false, Side::Leaves) => "             S ---------> P",
    }
}

/// The arrow of an act.
fn arrow_of_act(way: Way) -> &'static str {
    match way {
        Way::Response => "C <========> S             ",
        Way::Up => "C =========> S =========> P",
        Way::Down => "C <========= S <========= P",
    }
}

/// The letter of a lease that has not expired, else a point.
fn mark(lasts: bool, letter: char) -> char {
    if lasts { letter } else { '.' }
}

/// The description of a datagram.
fn what(alloc: Global, printer: &Printer<'_>, sight: SightId) -> Result<String, AllocError> {
    match printer.case.intake.sighting(sight) {
        Some(sighting) => printer.what(alloc, sighting),
        None => String::from_str(alloc, "?"),
    }
}

/// The description of a datagram that arrives or leaves, with its frame.
fn datagram(
    alloc: Global,
    printer: &Printer<'_>,
    sight: SightId,
    side: Side,
) -> Result<String, AllocError> {
    let is_clients = match printer.case.intake.sighting(sight) {
        Some(sighting) => printer.is_clients(sighting),
        None => false,
    };
    let arrow = arrow(is_clients, side);
    let what = what(alloc, printer, sight)?;
    let place = printer.place(alloc, sight)?;
    format!(in alloc; "...  {arrow}  {what:<40}  {place}")
}

/// The description of an act, with its frames.
fn act(
    alloc: Global,
    printer: &Printer<'_>,
    arrives: SightId,
    leaves: SightId,
    way: Way,
    lasting: Lasting,
) -> Result<String, AllocError> {
    let a = mark(lasting.allocation, 'A');
    let p = mark(lasting.permission, 'P');
    let c = mark(lasting.channel, 'C');
    let arrow = arrow_of_act(way);
    let came = what(alloc, printer, arrives)?;
    let went = what(alloc, printer, leaves)?;
    let arrives = printer.number(arrives);
    let leaves = printer.number(leaves);
    format!(in alloc; "{a}{p}{c}  {arrow}  {came} => {went}, frames {arrives} > {leaves}")
}

/// The line of an event.
fn rung_line(alloc: Global, printer: &Printer<'_>, rung: &Rung) -> Result<String, AllocError> {
    let told = match rung.step {
        Step::Arrives(sight) => datagram(alloc, printer, sight, Side::Arrives)?,
        Step::Leaves(sight) => datagram(alloc, printer, sight, Side::Leaves)?,
        Step::Act {
            arrives,
            leaves,
            way,
            lasting,
        } => act(alloc, printer, arrives, leaves, way, lasting)?,
    };
    let mark = if rung.is_breach { "=>" } else { "  " };
    let place = rung.place;
    let time = printer.since(rung.stamp);
    format!(in alloc; "{mark}{place:>7}  {time}  {told}\n")
}

/// The ladder of a lane's events.
pub fn ladder_lines(
    alloc: Global,
    printer: &Printer<'_>,
    rungs: &[Rung],
) -> Result<String, AllocError> {
    let mut text = String::new(alloc);
    for rung in rungs {
        text.push_str(rung_line(alloc, printer, rung)?.as_str())?;
        if rung.is_breach {
            text.push_str(
                "           first breach of this lane; the leases below are those of here\n",
            )?;
        }
    }
    Ok(text)
}
