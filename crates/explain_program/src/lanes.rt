//! The command `lanes`.

use crate::last_lines::behind_head;
use audit_files::{Source, Stop};
use audit_model::{Breach, Verdict};
use explain_frames::Frames;
use explain_lookup::look_up;
use explain_story::{
    Case, Lanes, Printer, is_broken, lane_line, lanes_of, request_breaches, sum_lines, sums_of,
};
use std::alloc::{AllocError, Global};

const NO_LANES: &str =
    "No lane is judged, since the certificate's placement breaks a rule: turnexplain verdict tells it.\n";

/// The first breach of a verdict.
pub fn breach_of(verdict: &Verdict) -> Option<Breach> {
    match verdict {
        Verdict::Conforming { .. } => None,
        Verdict::NotShown(breach) => Some(*breach),
    }
}

/// The lines of all lanes, or only of those that violate a rule.
fn lines(
    alloc: Global,
    printer: &Printer<'_>,
    lanes: &Lanes<'_>,
    only_broken: bool,
) -> Result<String, AllocError> {
    let mut text = String::new(alloc);
    for finding in &lanes.findings {
        if !only_broken || is_broken(finding) {
            text.push_str(lane_line(alloc, printer, finding)?.as_str())?;
        }
    }
    Ok(text)
}

/// The text after a head of this length in bytes.
pub fn rest_of_lanes<S: Source>(
    alloc: Global,
    source: &mut S,
    case: Case<'_>,
    verdict: &Verdict,
    only_broken: bool,
    length: usize,
) -> Result<String, Stop> {
    let judged = lanes_of(alloc, case)?;
    let mut frames = Frames::new(alloc);
    if let Some(lanes) = &judged {
        request_breaches(lanes, &mut frames)?;
    }
    look_up(
        alloc,
        source,
        case.intake.policy(),
        case.captures,
        &mut frames,
    )?;
    let printer = Printer {
        case,
        frames: &frames,
    };
    let mut rest = behind_head(alloc, &printer, length)?;
    match &judged {
        None => rest.push_str(NO_LANES)?,
        Some(lanes) => {
            rest.push_str(lines(alloc, &printer, lanes, only_broken)?.as_str())?;
            rest.push_str(sum_lines(alloc, sums_of(case, lanes, breach_of(verdict)))?.as_str())?;
        }
    }
    Ok(rest)
}
