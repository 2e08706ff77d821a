//! The requested part of a verdict, as JSON.

use crate::command_line::Subject;
use crate::lanes::breach_of;
use crate::last_lines::{fault_name, interfaces};
use crate::run_error::RunError;
use crate::verdict::story_in;
use audit_faults::Fault;
use audit_files::{Source, Stop};
use audit_lane::{Finding, Outcome};
use audit_model::{Breach, Verdict};
use explain_frames::Frames;
use explain_json::{
    Captured, Object, write_account, write_captured, write_events, write_lane, write_lanes,
    write_no_lanes,
};
use explain_lookup::look_up;
use explain_story::{
    Case, InEveryOrder, Lanes, Printer, Rung, lanes_of, request_breaches, request_span, rungs_of,
    span_of, sums_of,
};
use std::alloc::{AllocError, Global};

/// Looks up the frames that are needed, and that of the verdict's breach.
fn look_up_all<S: Source>(
    alloc: Global,
    source: &mut S,
    case: Case<'_>,
    verdict: &Verdict,
    frames: &mut Frames,
) -> Result<(), Stop> {
    if let Some(breach) = breach_of(verdict) {
        frames.request(breach.sight)?;
    }
    look_up(alloc, source, case.intake.policy(), case.captures, frames)
}

/// Adds the members that every answer has.
fn write_head(
    alloc: Global,
    printer: &Printer<'_>,
    verdict: &Verdict,
    answer: &mut Object,
) -> Result<(), AllocError> {
    let captured = Captured {
        interfaces: interfaces(printer),
        first: printer.frames.first(),
    };
    write_captured(alloc, printer, verdict, captured, answer)
}

/// The fault that the breach's departure shows.
fn object_of_fault(
    alloc: Global,
    fault: Fault,
    count: usize,
    too_late: bool,
) -> Result<Object, AllocError> {
    let mut object = Object::new(alloc);
    object.text("fault", fault_name(fault))?;
    object.number("datagrams", count as u64)?;
    object.flag("capture_began_too_late", too_late)?;
    Ok(object)
}

/// Adds which fault the breach's departure shows in every order; if it shows none, how many other
/// departures show one.
fn write_shown(
    alloc: Global,
    shown: Option<InEveryOrder>,
    answer: &mut Object,
) -> Result<(), AllocError> {
    match shown {
        Some(
            InEveryOrder::Here {
                fault,
                count,
                too_late,
            },
        ) => {
            answer.object("shown", object_of_fault(alloc, fault, count, too_late)?)?;
            answer.number("shown_elsewhere", 0)
        }
        Some(InEveryOrder::Elsewhere { count }) => {
            answer.nothing("shown")?;
            answer.number("shown_elsewhere", count as u64)
        }
        None => {
            answer.nothing("shown")?;
            answer.number("shown_elsewhere", 0)
        }
    }
}

/// The answer of the command `verdict`.
fn write_verdict<S: Source>(
    alloc: Global,
    source: &mut S,
    case: Case<'_>,
    verdict: &Verdict,
    answer: &mut Object,
) -> Result<(), Stop> {
    let (story, shown) = story_in(alloc, case, verdict)?;
    let mut frames = Frames::new(alloc);
    story.request_frames(&mut frames)?;
    look_up_all(alloc, source, case, verdict, &mut frames)?;
    let printer = Printer {
        case,
        frames: &frames,
    };
    write_head(alloc, &printer, verdict, answer)?;
    write_account(alloc, &printer, &story, answer)?;
    write_shown(alloc, shown, answer)?;
    Ok(())
}

/// The answer of the command `lanes`.
fn write_all_lanes<S: Source>(
    alloc: Global,
    source: &mut S,
    case: Case<'_>,
    verdict: &Verdict,
    only_broken: bool,
    answer: &mut Object,
) -> Result<(), Stop> {
    let judged = lanes_of(alloc, case)?;
    let mut frames = Frames::new(alloc);
    if let Some(lanes) = &judged {
        request_breaches(lanes, &mut frames)?;
    }
    look_up_all(alloc, source, case, verdict, &mut frames)?;
    let printer = Printer {
        case,
        frames: &frames,
    };
    write_head(alloc, &printer, verdict, answer)?;
    match &judged {
        None => write_no_lanes(answer)?,
        Some(lanes) => {
            let sums = sums_of(case, lanes, breach_of(verdict));
            write_lanes(alloc, &printer, lanes, only_broken, sums, answer)?;
        }
    }
    Ok(())
}

/// The first breach of a lane.
fn breach_in(finding: &Finding<'_>) -> Option<Breach> {
    match finding.outcome() {
        Outcome::Passed(_) => None,
        Outcome::Broken(breach) => Some(*breach),
    }
}

/// The lane with this number; `None` if placement violates a rule, so that no lane is judged.
fn finding_in<'j, 'a>(
    judged: &'j Option<Lanes<'a>>,
    lane: u32,
) -> Result<Option<&'j Finding<'a>>, RunError> {
    let Some(lanes) = judged else {
        return Ok(None);
    };
    match lanes.findings.get(lane as usize) {
        Some(finding) => Ok(Some(finding)),
        None => Err(RunError::NoLane {
            lane,
            lanes: lanes.findings.len(),
        }),
    }
}

/// The events of a lane whose frames are needed; none if no lane is judged.
fn rungs_in(
    alloc: Global,
    case: Case<'_>,
    finding: Option<&Finding<'_>>,
    around: u32,
    frames: &mut Frames,
) -> Result<Vec<Rung>, AllocError> {
    let Some(finding) = finding else {
        return Ok(Vec::new(alloc));
    };
    let input = finding.input();
    let breach = breach_in(finding);
    if let Some(breach) = breach {
        frames.request(breach.sight)?;
    }
    let place = breach.map(|breach| breach.at.place);
    let span = span_of(input, place, around);
    request_span(input, span, frames)?;
    rungs_of(alloc, case, input, span, place)
}

/// The answer of the command `client`.
fn write_client<S: Source>(
    alloc: Global,
    source: &mut S,
    case: Case<'_>,
    verdict: &Verdict,
    lane: u32,
    around: u32,
    answer: &mut Object,
) -> Result<(), RunError> {
    let judged = lanes_of(alloc, case)?;
    let finding = finding_in(&judged, lane)?;
    let mut frames = Frames::new(alloc);
    let rungs = rungs_in(alloc, case, finding, around, &mut frames)?;
    look_up_all(alloc, source, case, verdict, &mut frames)?;
    let printer = Printer {
        case,
        frames: &frames,
    };
    write_head(alloc, &printer, verdict, answer)?;
    write_lane(alloc, &printer, finding, answer)?;
    write_events(alloc, &printer, &rungs, answer)?;
    Ok(())
}

/// Adds the requested part of a verdict.
pub fn write_answer<S: Source>(
    alloc: Global,
    source: &mut S,
    case: Case<'_>,
    verdict: &Verdict,
    subject: Subject,
    answer: &mut Object,
) -> Result<(), RunError> {
    match subject {
        Subject::Verdict { .. } => {
            answer.text("command", "verdict")?;
            Ok(write_verdict(alloc, source, case, verdict, answer)?)
        }
        Subject::Lanes { broken } => {
            answer.text("command", "lanes")?;
            Ok(write_all_lanes(alloc, source, case, verdict, broken, answer)?)
        }
        Subject::Client { lane, around } => {
            answer.text("command", "client")?;
            write_client(alloc, source, case, verdict, lane, around, answer)
        }
    }
}
