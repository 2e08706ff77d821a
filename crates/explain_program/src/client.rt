//! The command `client`.

use crate::last_lines::behind_head;
use crate::run_error::RunError;
use audit_files::{Source, Stop};
use audit_lane::{Finding, Outcome};
use explain_frames::Frames;
use explain_lookup::look_up;
use explain_story::{Case, Printer, ladder_lines, lanes_of, request_span, rungs_of, span_of};
use std::alloc::{AllocError, Global};

/// The index of a lane's first breach.
fn breach_of(finding: &Finding<'_>) -> Option<u32> {
    match finding.outcome() {
        Outcome::Passed(_) => None,
        Outcome::Broken(breach) => Some(breach.at.place),
    }
}

/// The lines above a ladder.
fn title(alloc: Global, finding: &Finding<'_>, breach: Option<u32>) -> Result<String, AllocError> {
    let input = finding.input();
    let lane = input.number();
    let client = input.client();
    let listen = input.listen();
    let events = input.events().len();
    let outcome = match breach {
        Some(place) => format!(in alloc; "it breaks a rule at event {place}")?,
        None => String::from_str(alloc, "it passes")?,
    };
    format!(in alloc;
        "lane {lane}: client C {client}, server S {listen}, peers P; {events} events, from 0; {outcome}\nA: its allocation lasts; P: the permission for this peer; C: this channel\n"
    )
}

/// The ladder of a judged lane.
fn ladder_of<S: Source>(
    alloc: Global,
    source: &mut S,
    case: Case<'_>,
    finding: &Finding<'_>,
    around: u32,
    length: usize,
) -> Result<String, Stop> {
    let input = finding.input();
    let breach = breach_of(finding);
    let span = span_of(input, breach, around);
    let mut frames = Frames::new(alloc);
    request_span(input, span, &mut frames)?;
    look_up(
        alloc,
        source,
        case.intake.policy(),
        case.captures,
        &mut frames,
    )?;
    let printer = Printer {
        case,
        frames: &frames,
    };
    let mut rest = behind_head(alloc, &printer, length)?;
    rest.push_str(title(alloc, finding, breach)?.as_str())?;
    let rungs = rungs_of(alloc, case, input, span, breach)?;
    rest.push_str(ladder_lines(alloc, &printer, &rungs)?.as_str())?;
    Ok(rest)
}

/// The text after a head of this length in bytes.
pub fn rest_of_client<S: Source>(
    alloc: Global,
    source: &mut S,
    case: Case<'_>,
    lane: u32,
    around: u32,
    length: usize,
) -> Result<String, RunError> {
    let Some(lanes) = lanes_of(alloc, case)? else {
        return Ok(String::from_str(
            alloc,
            "\nNo lane is judged, since the certificate's placement breaks a rule: turnexplain verdict tells it.\n",
        )?);
    };
    match lanes.findings.get(lane as usize) {
        Some(finding) => Ok(ladder_of(alloc, source, case, finding, around, length)?),
        None => Err(RunError::NoLane {
            lane,
            lanes: lanes.findings.len(),
        }),
    }
}
