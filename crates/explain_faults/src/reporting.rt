//! The report of shown faults, line by line.

ghost use Rattle.std.specs.Prelude.{◌≡◌, ◌++◌, Some, IfOk, OnOk, count_by, option_copied, string_bytes};
ghost use Rattle.audit_model.specs.Sink.{followed_by};
ghost use Rattle.audit_report.specs.ReportText.{datagram_text, name_text, sighting_line};
ghost use Rattle.audit_sightings.specs.Intake.{taken};
ghost use Rattle.explain_faults.specs.FaultsText.{is_not_begun, title_lines, last_line, fault_lines, all_lines, heading, number_of_fault, first_counts, last_counts, counts_line, faults_text, status_of};

use crate::reported::Reported;
use crate::wording::{beginning, is_same, reason, title};
use audit_faults::{Fault, LastGrant, ShownFault};
use audit_model::{Policy, SightId, Sighting, Sink, WriteFault, put_all};
use audit_sightings::Intake;
use std::alloc::{AllocError, Global};

/// The ends and the size of a datagram.
fn text_of_datagram(alloc: Global, sighting: &Sighting) -> Result<String, AllocError>
    ensures { IfOk result (λ text. string_bytes text ≡ datagram_text sighting.now) }
{
    let from = sighting.from;
    let to = sighting.to;
    let length = sighting.payload.len();
    format!(in alloc; "{from} to {to} {length} bytes\n")
}

/// The name of a datagram.
fn text_of_name(alloc: Global, id: SightId) -> Result<String, AllocError>
    ensures { IfOk result (λ text. string_bytes text ≡ name_text id) }
{
    let iface = id.iface;
    let index = id.index;
    format!(in alloc; "datagram {iface}.{index} ")
}

/// The line of a datagram.
fn line_of_sighting(
    alloc: Global,
    id: SightId,
    sighting: Option<&Sighting>,
) -> Result<String, AllocError>
    ensures { IfOk result (λ line. string_bytes line ≡ sighting_line id (option_copied sighting.entry)) }
{
    let mut line = text_of_name(alloc, id)?;
    match sighting {
        None => line.push_str("unknown\n")?,
        Some(sighting) => line.push_str(text_of_datagram(alloc, sighting)?.as_str())?,
    }
    Ok(line)
}

/// The first lines of a fault.
fn lines_of_title(
    alloc: Global,
    shown: ShownFault,
    is_misdelivered: bool,
) -> Result<String, AllocError>
    ensures { IfOk result (λ lines. string_bytes lines ≡ title_lines shown is_misdelivered) }
{
    let iface = shown.sight.iface;
    let index = shown.sight.index;
    let title = title(shown.fault);
    let beginning = beginning(shown.fault, shown.may_predate, is_misdelivered);
    format!(in alloc; "fault {iface}.{index} {title}\n{beginning}")
}

/// The line of a success response that granted the lease that a departure lacked.
fn line_of_grant(alloc: Global, last: LastGrant) -> Result<String, AllocError>
    ensures { IfOk result (λ line. string_bytes line ≡ last_line (Some last)) }
{
    let iface = last.success.iface;
    let index = last.success.index;
    let too_early = last.too_early;
    let arrival_on = last.arrival.iface;
    let arrival = last.arrival.index;
    format!(in alloc;
        "last granted by datagram {iface}.{index}, too early by {too_early} nanoseconds for datagram {arrival_on}.{arrival}\n"
    )
}

/// The same, if there is one.
fn line_of_last(alloc: Global, last: Option<LastGrant>) -> Result<String, AllocError>
    ensures { IfOk result (λ line. string_bytes line ≡ last_line last) }
{
    match last {
        None => Ok(String::new(alloc)),
        Some(last) => line_of_grant(alloc, last),
    }
}

/// The lines of a fault.
fn lines_of_fault(alloc: Global, intake: &Intake, reported: &Reported) -> Result<String, AllocError>
    ensures { IfOk result (λ lines. string_bytes lines ≡ fault_lines (taken intake.now) reported.now) }
{
    let shown = reported.shown;
    let mut lines = lines_of_title(alloc, shown, reported.is_misdelivered)?;
    let sighting = intake.sighting(shown.sight);
    lines.push_str(line_of_sighting(alloc, shown.sight, sighting)?.as_str())?;
    lines.push_str(reason(shown.fault, shown.granted))?;
    lines.push_str(line_of_last(alloc, shown.last)?.as_str())?;
    lines.push_str(reported.note.as_str())?;
    Ok(lines)
}

/// The lines of all faults.
fn lines_of_all(alloc: Global, intake: &Intake, faults: &[Reported]) -> Result<String, AllocError>
    ensures { IfOk result (λ lines. string_bytes lines ≡ all_lines (taken intake.now) faults.now) }
{
    let mut lines = String::new(alloc);
    'faults: for reported in faults {
        lines.push_str(lines_of_fault(alloc, intake, reported)?.as_str())?;
    }
    Ok(lines)
}

/// The first lines.
fn lines_of_heading(alloc: Global, policy: &Policy) -> Result<String, AllocError>
    ensures { IfOk result (λ lines. string_bytes lines ≡ heading policy.now) }
{
    let hold = policy.hold;
    let grace = policy.grace;
    let skew = policy.skew;
    format!(in alloc;
        "turnaudit-faults 1\ntolerances hold {hold} grace {grace} skew {skew} nanoseconds\nin no order of the captured datagrams, at any moments within the tolerances, may the server have sent:\n"
    )
}

/// The number of reports of this fault.
fn number(faults: &[Reported], fault: Fault) -> usize
    ensures { result ≡ number_of_fault fault faults.now }
{
    faults
        .iter()
        .filter(|reported| is_same(reported.shown.fault, fault))
        .count()
}

/// The number of faults for which the captures began too late.
fn not_begun(faults: &[Reported]) -> usize
    ensures { result ≡ count_by is_not_begun faults.now }
{
    faults
        .iter()
        .filter(|reported| reported.shown.may_predate && !reported.is_misdelivered)
        .count()
}

/// The first half of the last line.
fn text_of_first_counts(alloc: Global, faults: &[Reported]) -> Result<String, AllocError>
    ensures { IfOk result (λ text. string_bytes text ≡ first_counts faults.now) }
{
    let all = faults.len();
    let unasked = number(faults, Fault::Unasked);
    let unallocated = number(faults, Fault::Unallocated);
    let not_begun = not_begun(faults);
    format!(in alloc;
        "shown {all} unasked {unasked} unallocated {unallocated} of which not begun {not_begun}"
    )
}

/// The second half of the last line.
fn text_of_last_counts(
    alloc: Global,
    intake: &Intake,
    faults: &[Reported],
) -> Result<String, AllocError>
    ensures { IfOk result (λ text. string_bytes text ≡ last_counts (taken intake.now) faults.now) }
{
    let unpermitted = number(faults, Fault::Unpermitted);
    let unbound = number(faults, Fault::Unbound);
    let unfit = number(faults, Fault::Unfit);
    let unauthentic = number(faults, Fault::Unauthentic);
    let (_, datagrams) = intake.counts();
    format!(in alloc;
        " unpermitted {unpermitted} unbound {unbound} unfit {unfit} unauthentic {unauthentic} of {datagrams} datagrams\n"
    )
}

/// The last line.
fn line_of_counts(alloc: Global, intake: &Intake, faults: &[Reported]) -> Result<String, AllocError>
    ensures { IfOk result (λ line. string_bytes line ≡ counts_line (taken intake.now) faults.now) }
{
    let mut line = text_of_first_counts(alloc, faults)?;
    line.push_str(text_of_last_counts(alloc, intake, faults)?.as_str())?;
    Ok(line)
}

/// The whole report.
fn whole_report(
    alloc: Global,
    intake: &Intake,
    first: &str,
    faults: &[Reported],
) -> Result<String, AllocError>
    ensures { IfOk result (λ text. string_bytes text ≡ faults_text (taken intake.now) first.now faults.now) }
{
    let mut text = lines_of_heading(alloc, intake.policy())?;
    text.push_str(first)?;
    text.push_str(lines_of_all(alloc, intake, faults)?.as_str())?;
    text.push_str(line_of_counts(alloc, intake, faults)?.as_str())?;
    Ok(text)
}

/// The status: 1 if there are any faults.
pub fn status(faults: &[Reported]) -> u8
    ensures { result ≡ status_of faults.now }
{
    match faults {
        [] => 0,
        [_, ..] => 1,
    }
}

/// Writes the report of faults, after a note on all of them. It takes memory for the text.
pub fn report_faults<W: Sink>(
    alloc: Global,
    intake: &Intake,
    first: &str,
    faults: &[Reported],
    out: &mut W,
) -> Result<(), WriteFault>
    ensures { OnOk result (W.taken out.new ≡ followed_by (W.taken out.old) (faults_text (taken intake.now) first.now faults.now)) }
{
    let text = whole_report(alloc, intake, first, faults)?;
    put_all(out, text.as_bytes())?;
    Ok(())
}
