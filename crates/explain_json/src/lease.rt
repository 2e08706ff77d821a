//! Leases, and the acts that granted them.

use crate::object::Object;
use crate::sighting::sighting_of;
use explain_state::{Ended, GrantAct, LeaseKind, LeaseRow};
use explain_story::Printer;
use explain_text::{Ip, MethodWord};
use std::alloc::{AllocError, Global};

/// A request and its success response.
fn act_of(alloc: Global, printer: &Printer<'_>, act: &GrantAct) -> Result<Object, AllocError> {
    let mut object = Object::new(alloc);
    let method = MethodWord { method: act.method };
    object.string("method", format!(in alloc; "{method}")?)?;
    object.object("request", sighting_of(alloc, printer, act.arrives)?)?;
    object.object("success", sighting_of(alloc, printer, act.leaves)?)?;
    Ok(object)
}

/// Adds the kind of a lease.
fn write_kind(object: &mut Object, kind: LeaseKind) -> Result<(), AllocError> {
    let alloc = object.alloc();
    match kind {
        LeaseKind::Allocation { relayed } => {
            object.text("of", "allocation")?;
            object.string("relayed", format!(in alloc; "{relayed}")?)
        }
        LeaseKind::Permission { ip } => {
            let ip = Ip { ip };
            object.text("of", "permission")?;
            object.string("ip", format!(in alloc; "{ip}")?)
        }
        LeaseKind::Channel { number, peer } => {
            object.text("of", "channel")?;
            object.number("channel", u64::from(number))?;
            object.string("peer", format!(in alloc; "{peer}")?)
        }
    }
}

/// The state of a lease at a moment, as in the text form.
fn state_at(until: u64, last: u64, moment: u64) -> &'static str {
    if moment <= until {
        "lasts"
    } else if moment <= last {
        "in its grace"
    } else {
        "over"
    }
}

/// A lease, with its state at a moment.
pub fn lease_of(
    alloc: Global,
    printer: &Printer<'_>,
    row: &LeaseRow,
    moment: u64,
) -> Result<Object, AllocError> {
    let mut object = Object::new(alloc);
    object.text("line", "lease")?;
    write_kind(&mut object, row.kind)?;
    let last = row.until.saturating_add(printer.case.intake.policy().grace);
    object.nanoseconds("until", row.until)?;
    object.nanoseconds("until_with_grace", last)?;
    object.text("state", state_at(row.until, last, moment))?;
    object.nanoseconds("over_by", moment.saturating_sub(last))?;
    object.object("made", act_of(alloc, printer, &row.made)?)?;
    object.object("last", act_of(alloc, printer, &row.last)?)?;
    object.number("renewals", u64::from(row.renewals))?;
    Ok(object)
}

/// An allocation that has ended.
pub fn ended_of(alloc: Global, printer: &Printer<'_>, ended: &Ended) -> Result<Object, AllocError> {
    let mut object = Object::new(alloc);
    object.text("line", "ended")?;
    let relayed = ended.relayed;
    object.string("relayed", format!(in alloc; "{relayed}")?)?;
    object.nanoseconds("until", ended.until)?;
    object.object("made", act_of(alloc, printer, &ended.made)?)?;
    object.object("ended", act_of(alloc, printer, &ended.ending)?)?;
    Ok(object)
}
