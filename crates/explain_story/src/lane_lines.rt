//! A line for each client.

use crate::case::{Case, Lanes};
use crate::place::Printer;
use audit_lane::{Finding, Outcome};
use audit_model::{Breach, Rule};
use audit_report::rule_text;
use explain_frames::Frames;
use explain_state::{LaneRow, Traffic, lane_before, lane_row};
use explain_text::Quoted;
use std::alloc::{AllocError, Global};

/// Requests the frame of each lane's first breach.
pub fn request_breaches(lanes: &Lanes<'_>, frames: &mut Frames) -> Result<(), AllocError> {
    for finding in &lanes.findings {
        if let Outcome::Broken(breach) = finding.outcome() {
            frames.request(breach.sight)?;
        }
    }
    Ok(())
}

/// The number of a lane's allocations, up to its first breach.
pub fn allocations(alloc: Global, finding: &Finding<'_>) -> Result<usize, AllocError> {
    match finding.outcome() {
        Outcome::Passed(tenancies) => Ok(tenancies.len()),
        Outcome::Broken(breach) => {
            let Some(lane) = lane_before(alloc, finding.input(), breach.at.place)? else {
                return Ok(0);
            };
            let running = if lane.running().is_some() { 1 } else { 0 };
            Ok(lane.tenancies().len().saturating_add(running))
        }
    }
}

/// The outcome of a lane.
fn outcome(
    alloc: Global,
    printer: &Printer<'_>,
    breach: Option<Breach>,
) -> Result<String, AllocError> {
    let Some(breach) = breach else {
        return String::from_str(alloc, "passes");
    };
    let rule = rule_text(breach.rule);
    let event = breach.at.place;
    let place = printer.place(alloc, breach.sight)?;
    format!(in alloc; "{rule}, event {event}, {place}")
}

/// The quoted name of a lane's user.
fn user_of(alloc: Global, row: &LaneRow<'_>) -> Result<String, AllocError> {
    match row.user {
        Some(name) => {
            let name = Quoted { bytes: name };
            format!(in alloc; "\"{name}\"")
        }
        None => String::from_str(alloc, "-"),
    }
}

/// The client and the listen address of a lane.
fn ends_of(alloc: Global, row: &LaneRow<'_>) -> Result<String, AllocError> {
    let client = row.client;
    let listen = row.listen;
    format!(in alloc; "{client} at {listen}")
}

/// The numbers of datagrams and bytes.
fn traffic(alloc: Global, way: &str, traffic: Traffic) -> Result<String, AllocError> {
    let datagrams = traffic.datagrams;
    let bytes = traffic.bytes;
    format!(in alloc; "{way} {datagrams} datagrams {bytes} bytes")
}

/// The line of a lane.
pub fn lane_line(
    alloc: Global,
    printer: &Printer<'_>,
    finding: &Finding<'_>,
) -> Result<String, AllocError> {
    let row = lane_row(finding);
    let number = row.number;
    let ends = ends_of(alloc, &row)?;
    let user = user_of(alloc, &row)?;
    let count = allocations(alloc, finding)?;
    let up = traffic(alloc, "up", row.up)?;
    let down = traffic(alloc, "down", row.down)?;
    let outcome = outcome(alloc, printer, row.breach)?;
    format!(in alloc;
        "lane {number:<5} {ends:<46} {user:<12} allocations {count:<3} {up:<34} {down:<34} {outcome}\n"
    )
}

/// Whether a lane violates a rule.
pub fn is_broken(finding: &Finding<'_>) -> bool {
    match finding.outcome() {
        Outcome::Passed(_) => false,
        Outcome::Broken(_) => true,
    }
}

/// The sums over all lanes.
#[derive(Clone, Copy, Debug)]
pub struct Sums {
    pub clients: usize,
    /// The number of clients that violate a rule.
    pub broken: usize,
    /// The number of datagrams that are in no lane.
    pub dropped: usize,
    /// The lane that was granted an address which another client had.
    pub clash: Option<u32>,
}

/// The lane of a verdict's breach, if the breach is an address which another client had.
fn clash_of(breach: Option<Breach>) -> Option<u32> {
    let breach = breach?;
    if breach.rule == Rule::AddressHeld {
        Some(breach.at.lane)
    } else {
        None
    }
}

/// The sums over all lanes, for a verdict with this breach.
pub fn sums_of(case: Case<'_>, lanes: &Lanes<'_>, breach: Option<Breach>) -> Sums {
    Sums {
        clients: lanes.findings.len(),
        broken: lanes
            .findings
            .iter()
            .filter(|finding| is_broken(finding))
            .count(),
        dropped: case.certificate.drops.len(),
        clash: clash_of(breach),
    }
}

/// The lines after those of the lanes.
pub fn sum_lines(alloc: Global, sums: Sums) -> Result<String, AllocError> {
    let Sums {
        clients,
        broken,
        dropped,
        clash,
    } = sums;
    let mut text = format!(in alloc;
        "{clients} clients, {broken} of them break a rule; {dropped} datagrams stand in no lane, since the server never answered them\n"
    )?;
    if let Some(lane) = clash {
        text.push_str(format!(in alloc;
            "lane {lane} was given an address that another client held (R22)\n"
        )?.as_str())?;
    }
    if broken > 0 {
        text.push_str(
            "Each lane is judged alone, and to its first breach: later ones may follow from it.\n",
        )?;
    }
    Ok(text)
}
