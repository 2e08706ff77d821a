//! The explanation for captures that conform.

use explain_clients::count_answered;
use explain_story::Printer;
use std::alloc::{AllocError, Global};

const MEANING: &str =
    "Some order of all that was captured, within the tolerances, is a run of a server that keeps to RFC 8656 (docs/HEADLINE.md).\nNot judged: what the policy doesn't name, clients by TCP, TLS, DTLS or IPv6, and what wasn't captured (docs/VERDICTS.md#what-was-judged).\n";

const NOTHING: &str =
    "Nothing was judged: no datagram of the captures has one end in the policy's addresses.\nLook at the policy's addresses, and at which interface was captured (docs/VERDICTS.md#what-was-judged).\n";

const NO_RESPONSE: &str =
    "No request has a response: a server that sends nothing conforms (docs/VERDICTS.md#what-was-judged).\n";

/// The text after the head.
pub fn conforming_lines(alloc: Global, printer: &Printer<'_>) -> Result<String, AllocError> {
    let (_, sightings) = printer.case.intake.counts();
    if sightings == 0 {
        return String::from_str(alloc, NOTHING);
    }
    let mut lines = String::from_str(alloc, MEANING)?;
    lines.push_str(lines_of_answered(alloc, printer)?.as_str())?;
    Ok(lines)
}

/// The line with how many requests have a response: a server that never responds conforms.
fn lines_of_answered(alloc: Global, printer: &Printer<'_>) -> Result<String, AllocError> {
    let all = count_answered(alloc, printer.case.intake)?;
    let requests = all.requests;
    let answered = all.answered;
    let clients = all.clients;
    let unanswered = all.unanswered_clients;
    let mut lines = format!(in alloc;
        "Requests with a response: {answered} of {requests}. Clients that sent requests and got nothing: {unanswered} of {clients}.\n"
    )?;
    if requests > 0 && answered == 0 {
        lines.push_str(NO_RESPONSE)?;
    }
    Ok(lines)
}
