//! All clients.

use crate::object::{List, Object};
use crate::sighting::sighting_of;
use audit_lane::Finding;
use audit_model::Breach;
use audit_report::rule_text;
use explain_state::{LaneRow, Traffic, lane_row};
use explain_story::{Lanes, Printer, Sums, allocations, is_broken};
use std::alloc::{AllocError, Global};

/// Datagrams and bytes.
fn traffic_of(alloc: Global, traffic: Traffic) -> Result<Object, AllocError> {
    let mut object = Object::new(alloc);
    object.number("datagrams", traffic.datagrams)?;
    object.number("bytes", traffic.bytes)?;
    Ok(object)
}

/// The first breach of a lane.
fn breach_of(alloc: Global, printer: &Printer<'_>, breach: Breach) -> Result<Object, AllocError> {
    let mut object = Object::new(alloc);
    object.text("rule", rule_text(breach.rule))?;
    object.number("event", u64::from(breach.at.place))?;
    object.nanoseconds("moment", breach.at.key.moment)?;
    object.object("datagram", sighting_of(alloc, printer, breach.sight)?)?;
    Ok(object)
}

/// Adds the lane's number, client and listen address.
fn write_ends(object: &mut Object, row: &LaneRow<'_>) -> Result<(), AllocError> {
    let alloc = object.alloc();
    let client = row.client;
    let listen = row.listen;
    object.number("lane", u64::from(row.number))?;
    object.string("client", format!(in alloc; "{client}")?)?;
    object.string("listen", format!(in alloc; "{listen}")?)?;
    match row.user {
        Some(user) => object.bytes("user", user),
        None => object.nothing("user"),
    }
}

/// A lane.
fn lane_of(
    alloc: Global,
    printer: &Printer<'_>,
    finding: &Finding<'_>,
) -> Result<Object, AllocError> {
    let row = lane_row(finding);
    let mut object = Object::new(alloc);
    write_ends(&mut object, &row)?;
    object.number("allocations", allocations(alloc, finding)? as u64)?;
    object.object("up", traffic_of(alloc, row.up)?)?;
    object.object("down", traffic_of(alloc, row.down)?)?;
    match row.breach {
        Some(breach) => object.object("breach", breach_of(alloc, printer, breach)?)?,
        None => object.nothing("breach")?,
    }
    Ok(object)
}

/// The sums over all lanes.
fn sums_of(alloc: Global, sums: Sums) -> Result<Object, AllocError> {
    let mut object = Object::new(alloc);
    object.number("clients", sums.clients as u64)?;
    object.number("broken", sums.broken as u64)?;
    object.number("dropped", sums.dropped as u64)?;
    match sums.clash {
        Some(lane) => object.number("clash", u64::from(lane))?,
        None => object.nothing("clash")?,
    }
    Ok(object)
}

/// Adds the lanes, all of them or only those that violate a rule, and their sums.
pub fn write_lanes(
    alloc: Global,
    printer: &Printer<'_>,
    lanes: &Lanes<'_>,
    only_broken: bool,
    sums: Sums,
    answer: &mut Object,
) -> Result<(), AllocError> {
    let mut list = List::new(alloc);
    for finding in &lanes.findings {
        if !only_broken || is_broken(finding) {
            list.object(lane_of(alloc, printer, finding)?)?;
        }
    }
    answer.list("lanes", list)?;
    answer.object("sums", sums_of(alloc, sums)?)
}

/// Adds that no lane is judged.
pub fn write_no_lanes(answer: &mut Object) -> Result<(), AllocError> {
    answer.nothing("lanes")?;
    answer.nothing("sums")
}

/// Adds a lane; null if there is none.
pub fn write_lane(
    alloc: Global,
    printer: &Printer<'_>,
    finding: Option<&Finding<'_>>,
    answer: &mut Object,
) -> Result<(), AllocError> {
    match finding {
        Some(finding) => answer.object("client", lane_of(alloc, printer, finding)?),
        None => answer.nothing("client"),
    }
}
