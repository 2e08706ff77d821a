//! The list of what is excluded.

ghost use Rattle.std.specs.Prelude.{◌≡◌, ◌++◌, IfOk, codes, decimal, string_bytes};
ghost use Rattle.prep_cut.specs.ReasonText.{reason_text};
ghost use Rattle.prep_cut.specs.Tallied.{is_counted};
ghost use Rattle.prep_program.specs.ListText.{longest_text, line_text, counted_line, lines_text, capture_text, captures_text, list_text};

use crate::cutting::AllCut;
use crate::list_head::head_of;
use crate::list_totals::{
    Notes, add_up, departures_in, kept_in, lines_of_totals, text_of_counts, text_of_others,
};
use prep_cut::{Plan, Reason, Tally, Totals};
use std::alloc::{AllocError, Global};

/// The longest time after a deletion, in microseconds, of data relayed after it.
fn text_of_longest(alloc: Global, reason: &Reason, last: u64) -> Result<String, AllocError>
    ensures { IfOk result (λ text. string_bytes text ≡ longest_text reason.now last) }
{
    match reason {
        Reason::Released { moment, .. } => {
            let longest = last.saturating_sub(*moment) / 1_000;
            format!(in alloc; " longest-us {longest}")
        }
        _ => Ok(String::new(alloc)),
    }
}

/// A reason, and the moments of the packets that it excludes.
fn text_of_reason(alloc: Global, reason: &Reason, tally: &Tally) -> Result<String, AllocError>
    ensures { IfOk result (λ text. string_bytes text ≡ reason_text reason.now ++ (codes " from " ++ (decimal tally.now.first ++ (codes " to " ++ decimal tally.now.last)))) }
{
    let first = tally.first;
    let last = tally.last;
    format!(in alloc; "{reason} from {first} to {last}")
}

/// A line of the list with counts.
fn line_of_reason(alloc: Global, reason: &Reason, tally: &Tally) -> Result<String, AllocError>
    ensures { IfOk result (λ line. string_bytes line ≡ line_text reason.now tally.now) }
{
    let mut line = text_of_reason(alloc, reason, tally)?;
    line.push_str(text_of_counts(alloc, tally.arrived, tally.left)?.as_str())?;
    line.push_str(text_of_others(alloc, tally.others > 0, tally.others)?.as_str())?;
    line.push_str(text_of_longest(alloc, reason, tally.last)?.as_str())?;
    line.push_str("\n")?;
    Ok(line)
}

/// The line, if it counts something.
fn line_of_tally(alloc: Global, reason: &Reason, tally: &Tally) -> Result<String, AllocError>
    ensures { IfOk result (λ line. string_bytes line ≡ counted_line (is_counted tally.now) reason.now tally.now) }
{
    if tally.is_some() {
        line_of_reason(alloc, reason, tally)
    } else {
        Ok(String::new(alloc))
    }
}

/// A line for each reason that excludes something.
fn lines_of(alloc: Global, lines: &[Reason], tallies: &[Tally]) -> Result<String, AllocError>
    ensures { IfOk result (λ text. string_bytes text ≡ lines_text lines.now tallies.now) }
{
    let mut text = String::new(alloc);
    let mut rest = tallies;
    for reason in lines {
        let Some((tally, behind)) = rest.split_first() else {
            return Ok(text);
        };
        text.push_str(line_of_tally(alloc, reason, tally)?.as_str())?;
        rest = behind;
    }
    Ok(text)
}

/// The line of a capture.
fn line_of_capture(alloc: Global, number: u64, totals: &Totals) -> Result<String, AllocError>
    ensures { IfOk result (λ line. string_bytes line ≡ capture_text number totals.now) }
{
    let written = totals.written;
    let left = totals.left;
    format!(in alloc; "capture {number} packets {written} left {left}\n")
}

/// A line for each capture.
fn lines_of_captures(alloc: Global, totals: &[Totals]) -> Result<String, AllocError>
    ensures { IfOk result (λ text. string_bytes text ≡ captures_text 0 totals.now) }
{
    let mut text = String::new(alloc);
    let mut number = 0u64;
    for one in totals {
        text.push_str(line_of_capture(alloc, number, one)?.as_str())?;
        number = number.saturating_add(1);
    }
    Ok(text)
}

/// The text of the list.
pub fn list_of(
    alloc: Global,
    plan: &Plan,
    notes: &Notes,
    all: &AllCut,
) -> Result<String, AllocError>
    ensures { IfOk result (λ list. string_bytes list ≡ list_text plan.now notes.now all.now) }
{
    let lines = plan.lines.as_slice();
    let tallies = all.tallies.as_slice();
    let sums = add_up(tallies);
    let kept = kept_in(&all.totals);
    let departures = departures_in(lines, &all.tallies);
    let mut list = head_of(alloc, &plan.stated, notes.begin)?;
    list.push_str(lines_of(alloc, lines, tallies)?.as_str())?;
    list.push_str(lines_of_captures(alloc, &all.totals)?.as_str())?;
    list.push_str(lines_of_totals(alloc, notes, &sums, kept, &departures)?.as_str())?;
    Ok(list)
}
