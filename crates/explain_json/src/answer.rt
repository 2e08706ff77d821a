//! The whole answer.

ghost use Rattle.std.specs.Prelude.{◌≡◌, IfOk, OnOk, codes, string_bytes};
ghost use Rattle.serde_json.specs.Data.{put, string};
ghost use Rattle.explain_json.specs.Answered.{IsAnswer, members_of, rule_of, word_of};

use crate::object::Object;
use crate::sighting::sighting_of;
use audit_model::{Breach, Verdict};
use audit_report::rule_text;
use explain_story::Printer;
use explain_text::Utc;
use std::alloc::{AllocError, Global};

/// The facts of the captures in the first line of the text forms.
#[derive(Clone, Copy, Debug)]
pub struct Captured {
    /// The number of interfaces with a datagram of the service.
    pub interfaces: u32,
    /// The stamp of the first frame, in nanoseconds since 1970; `None` if no frame is known.
    pub first: Option<u64>,
}

/// The first breach, as in the report.
fn breach_of(alloc: Global, printer: &Printer<'_>, breach: &Breach) -> Result<Object, AllocError> {
    let mut object = Object::new(alloc);
    object.number("phase", u64::from(breach.phase))?;
    object.number("lane", u64::from(breach.at.lane))?;
    object.number("event", u64::from(breach.at.place))?;
    object.nanoseconds("moment", breach.at.key.moment)?;
    object.number("tie", u64::from(breach.at.key.tie))?;
    object.object("datagram", sighting_of(alloc, printer, breach.sight)?)?;
    Ok(object)
}

/// Adds the captures, and the counts or the breach.
pub fn write_captured(
    alloc: Global,
    printer: &Printer<'_>,
    verdict: &Verdict,
    captured: Captured,
    answer: &mut Object,
) -> Result<(), AllocError> {
    answer.number("interfaces", u64::from(captured.interfaces))?;
    match captured.first {
        Some(moment) => {
            let utc = Utc { moment };
            answer.nanoseconds("first_frame", moment)?;
            answer.string("first_frame_utc", format!(in alloc; "{utc}")?)?;
        }
        None => {
            answer.nothing("first_frame")?;
            answer.nothing("first_frame_utc")?;
        }
    }
    match verdict {
        Verdict::Conforming { datagrams, lanes } => {
            answer.number("datagrams", u64::from(*datagrams))?;
            answer.number("clients", u64::from(*lanes))?;
            answer.nothing("breach")
        }
        Verdict::NotShown(breach) => {
            answer.nothing("datagrams")?;
            answer.nothing("clients")?;
            answer.object("breach", breach_of(alloc, printer, breach)?)
        }
    }
}

/// Adds the violated rule.
fn write_rule(verdict: &Verdict, answer: &mut Object) -> Result<(), AllocError>
    ensures { OnOk result (members_of answer.new ≡ put (codes "rule") (rule_of verdict.now) (members_of answer.old)) }
{
    match verdict {
        Verdict::Conforming { .. } => answer.nothing("rule"),
        Verdict::NotShown(breach) => answer.text("rule", rule_text(breach.rule)),
    }
}

/// The verdict's word.
fn word(verdict: &Verdict) -> &'static str
    ensures { result.now ≡ word_of verdict.now }
{
    match verdict {
        Verdict::Conforming { .. } => "conforming",
        Verdict::NotShown(_) => "not shown",
    }
}

/// The text of an answer, on one line, with its verdict: `rule` and `verdict` are those of the
/// verdict, whatever members were set before.
pub fn answer_text(verdict: &Verdict, answer: Object) -> Result<String, AllocError>
    ensures { IfOk result (λ text. IsAnswer verdict.now (string_bytes text)) }
{
    let mut answer = answer;
    answer.text("schema", "turnexplain/1")?;
    write_rule(verdict, &mut answer)?;
    answer.text("verdict", word(verdict))?;
    answer.to_line()
}
