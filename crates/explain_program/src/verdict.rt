//! The command `verdict`.

use crate::conforming::conforming_lines;
use crate::last_lines::{behind_head, last_line, look_lines};
use audit_files::{Source, Stop};
use audit_model::{SightId, Verdict};
use explain_clients::Owners;
use explain_frames::Frames;
use explain_lookup::look_up;
use explain_story::{Case, InEveryOrder, Printer, Story, story_of};
use std::alloc::{AllocError, Global};

/// The fault that a departure shows, without the note that captures began too late if its data was
/// for another client.
fn of_receiver(
    alloc: Global,
    case: Case<'_>,
    departure: Option<SightId>,
    shown: Option<InEveryOrder>,
) -> Result<Option<InEveryOrder>, AllocError> {
    let Some(
        InEveryOrder::Here {
            fault,
            count,
            too_late: true,
        },
    ) = shown
    else {
        return Ok(shown);
    };
    let owners = Owners::of(alloc, case.intake)?;
    let is_misdelivered = match departure {
        Some(sight) => match case.intake.sighting(sight) {
            Some(departure) => owners.misdelivery(departure).is_some(),
            None => false,
        },
        None => false,
    };
    Ok(Some(InEveryOrder::Here {
        fault,
        count,
        too_late: !is_misdelivered,
    }))
}

/// The explanation of a verdict; empty for captures that conform.
pub fn story_in(
    alloc: Global,
    case: Case<'_>,
    verdict: &Verdict,
) -> Result<(Story, Option<InEveryOrder>), AllocError> {
    match verdict {
        Verdict::Conforming { .. } => Ok((Story::new(alloc, 0), None)),
        Verdict::NotShown(breach) => {
            let (story, shown) = story_of(alloc, case, breach)?;
            let shown = of_receiver(alloc, case, story.departure, shown)?;
            Ok((story, shown))
        }
    }
}

/// The text after a head of this length in bytes, with the frames that were looked up.
pub fn verdict_lines(
    alloc: Global,
    printer: &Printer<'_>,
    verdict: &Verdict,
    story: &Story,
    shown: Option<InEveryOrder>,
    is_searched: bool,
    length: usize,
) -> Result<String, AllocError> {
    let mut rest = behind_head(alloc, printer, length)?;
    match verdict {
        Verdict::Conforming { .. } => {
            rest.push_str(conforming_lines(alloc, printer)?.as_str())?;
        }
        Verdict::NotShown(_) => {
            rest.push_str(printer.lines(alloc, story)?.as_str())?;
            rest.push_str(look_lines(alloc, printer, story)?.as_str())?;
            let intake = printer.case.intake;
            let last = last_line(alloc, intake, story.departure, shown, is_searched)?;
            rest.push_str(last.as_str())?;
        }
    }
    Ok(rest)
}

/// The text after a head of this length in bytes.
pub fn rest_of_verdict<S: Source>(
    alloc: Global,
    source: &mut S,
    case: Case<'_>,
    verdict: &Verdict,
    is_searched: bool,
    length: usize,
) -> Result<String, Stop> {
    let (story, shown) = story_in(alloc, case, verdict)?;
    let mut frames = Frames::new(alloc);
    story.request_frames(&mut frames)?;
    look_up(
        alloc,
        source,
        case.intake.policy(),
        case.captures,
        &mut frames,
    )?;
    let printer = Printer {
        case,
        frames: &frames,
    };
    Ok(verdict_lines(alloc, &printer, verdict, &story, shown, is_searched, length)?)
}
