//! Formats the report, line by line.

ghost use Rattle.std.specs.Prelude.{◌≡◌, ◌++◌, IfOk, OnOk, OnErr, IfErr, option_copied, string_bytes};
ghost use Rattle.audit_model.specs.Sink.{followed_by, raised_by, IsFollowedByFront};
ghost use Rattle.audit_report.specs.ReportText.{datagram_text, name_text, sighting_line, place_line, rule_line, verdict_lines, report_text};
ghost use Rattle.audit_sightings.specs.Intake.{taken};

use crate::rules::rule_text;
use audit_model::{Breach, SightId, Sink, Verdict, WriteFault, put_all};
use audit_sightings::{Intake, Sighting};
use std::alloc::{AllocError, Global};

/// The endpoints and the size of a datagram.
fn text_of_datagram(alloc: Global, sighting: &Sighting) -> Result<String, AllocError>
    ensures { IfOk result (λ text. string_bytes text ≡ datagram_text sighting.now) }
{
    let from = sighting.from;
    let to = sighting.to;
    let length = sighting.payload.len();
    format!(in alloc; "{from} to {to} {length} bytes\n")
}

/// The id of the sighting that shows a breach.
fn text_of_name(alloc: Global, id: SightId) -> Result<String, AllocError>
    ensures { IfOk result (λ text. string_bytes text ≡ name_text id) }
{
    let iface = id.iface;
    let index = id.index;
    format!(in alloc; "datagram {iface}.{index} ")
}

/// The line of the sighting that shows a breach.
fn line_of_sighting(
    alloc: Global,
    id: SightId,
    sighting: Option<&Sighting>,
) -> Result<String, AllocError>
    ensures { IfOk result (λ line. string_bytes line ≡ sighting_line id (option_copied sighting.entry)) }
{
    let mut line = text_of_name(alloc, id)?;
    match sighting {
        None => line.push_str("unknown\n")?,
        Some(sighting) => line.push_str(text_of_datagram(alloc, sighting)?.as_str())?,
    }
    Ok(line)
}

/// The line of the place of a breach.
fn line_of_place(alloc: Global, breach: &Breach) -> Result<String, AllocError>
    ensures { IfOk result (λ line. string_bytes line ≡ place_line breach.now) }
{
    let phase = breach.phase;
    let lane = breach.at.lane;
    let place = breach.at.place;
    let moment = breach.at.key.moment;
    let tie = breach.at.key.tie;
    format!(in alloc; "phase {phase} lane {lane} event {place} moment {moment} tie {tie}\n")
}

/// The line of the rule of a breach, and the line before it.
fn line_of_rule(alloc: Global, breach: &Breach) -> Result<String, AllocError>
    ensures { IfOk result (λ line. string_bytes line ≡ rule_line breach.now) }
{
    let rule = rule_text(breach.rule);
    format!(in alloc; "not shown\nrule {rule}\n")
}

/// The lines after the heading.
fn lines_of_verdict(alloc: Global, verdict: &Verdict, intake: &Intake) -> Result<String, AllocError>
    ensures { IfOk result (λ lines. string_bytes lines ≡ verdict_lines verdict.now (taken intake.now)) }
{
    match verdict {
        Verdict::Conforming { datagrams, lanes } => {
            format!(in alloc; "conforming {datagrams} datagrams {lanes} lanes\n")
        }
        Verdict::NotShown(breach) => {
            let mut lines = line_of_rule(alloc, breach)?;
            lines.push_str(line_of_place(alloc, breach)?.as_str())?;
            let sighting = intake.sighting(breach.sight);
            lines.push_str(line_of_sighting(alloc, breach.sight, sighting)?.as_str())?;
            Ok(lines)
        }
    }
}

/// The whole report.
fn whole_report(alloc: Global, verdict: &Verdict, intake: &Intake) -> Result<String, AllocError>
    ensures { IfOk result (λ text. string_bytes text ≡ report_text verdict.now (taken intake.now)) }
{
    let mut text = String::from_str(alloc, "turnaudit-report 1\n")?;
    text.push_str(lines_of_verdict(alloc, verdict, intake)?.as_str())?;
    Ok(text)
}

/// Writes the report of a verdict on an intake. After F1, which comes only if the sink failed, a
/// prefix of it has been written; after F2, exhausted memory, nothing has.
pub fn report<W: Sink>(
    alloc: Global,
    verdict: &Verdict,
    intake: &Intake,
    out: &mut W,
) -> Result<(), WriteFault>
    ensures ok { OnOk result (W.taken out.new ≡ followed_by (W.taken out.old) (report_text verdict.now (taken intake.now))) }
    ensures front { OnErr result (IsFollowedByFront (W.taken out.old) (report_text verdict.now (taken intake.now)) (W.taken out.new)) }
    ensures kept { OnOk result (W.failures out.new ≡ W.failures out.old) }
    ensures device { IfErr result (λ fault. fault ≡ WriteFault.Device → W.failures out.new ≡ raised_by (W.failures out.old) 1) }
    ensures memory { IfErr result (λ fault. fault ≡ WriteFault.Memory → (W.taken out.new ≡ W.taken out.old) × (W.failures out.new ≡ W.failures out.old)) }
{
    let text = whole_report(alloc, verdict, intake)?;
    put_all(out, text.as_bytes())?;
    Ok(())
}
