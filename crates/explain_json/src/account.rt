//! The explanation of a breach: the contents of the lines of the command `verdict`.

use crate::lease::{ended_of, lease_of};
use crate::object::{List, Object};
use crate::sighting::sighting_of;
use audit_model::{Addr, Rule, SightId};
use explain_frames::{GrantFrame, GrantSource};
use explain_state::GrantAct;
use explain_story::{Account, ClientOf, Line, Printer, Story};
use explain_text::{anchor, cause, code, meaning};
use std::alloc::{AllocError, Global};

/// The last known user and realm that a lane named; null if it named none.
fn write_user(object: &mut Object, account: &Option<Account>) -> Result<(), AllocError> {
    match account {
        Some(account) => {
            object.bytes("user", &account.user)?;
            object.bytes("realm", &account.realm)
        }
        None => {
            object.nothing("user")?;
            object.nothing("realm")
        }
    }
}

/// The client of a lane.
fn client_of(alloc: Global, of: &ClientOf) -> Result<Object, AllocError> {
    let mut object = Object::new(alloc);
    let client = of.client;
    let listen = of.listen;
    object.number("lane", u64::from(of.lane))?;
    object.string("client", format!(in alloc; "{client}")?)?;
    object.string("listen", format!(in alloc; "{listen}")?)?;
    write_user(&mut object, &of.account)?;
    Ok(object)
}

/// The members about a rule.
fn rule_of(alloc: Global, rule: Rule) -> Result<Object, AllocError> {
    let mut object = Object::new(alloc);
    object.text("code", code(rule))?;
    object.text("meaning", meaning(rule))?;
    object.text("usual_cause", cause(rule))?;
    object.text("see", anchor(rule))?;
    Ok(object)
}

/// Text of the text form, without leading spaces.
fn words_of(alloc: Global, words: &str) -> Result<Object, AllocError> {
    let mut object = Object::new(alloc);
    object.text("line", "words")?;
    object.text("text", words.trim())?;
    Ok(object)
}

/// A datagram that is shown.
fn shown(alloc: Global, printer: &Printer<'_>, sight: SightId) -> Result<Object, AllocError> {
    let mut object = sighting_of(alloc, printer, sight)?;
    object.text("line", "datagram")?;
    Ok(object)
}

/// Text with a datagram in it.
fn words_with(
    alloc: Global,
    printer: &Printer<'_>,
    words: &str,
    sight: SightId,
    behind: &str,
) -> Result<Object, AllocError> {
    let mut object = words_of(alloc, words)?;
    object.object("datagram", sighting_of(alloc, printer, sight)?)?;
    object.text("behind", behind)?;
    Ok(object)
}

/// Text with an act in it, whose departure is the datagram.
fn words_with_act(
    alloc: Global,
    printer: &Printer<'_>,
    words: &str,
    act: &GrantAct,
) -> Result<Object, AllocError> {
    words_with(alloc, printer, words, act.leaves, "")
}

/// The frame that grants a relayed address and isn't judged.
fn written_of(
    alloc: Global,
    printer: &Printer<'_>,
    relayed: Addr,
    frame: GrantFrame,
) -> Result<Object, AllocError> {
    let mut object = Object::new(alloc);
    let capture = printer.capture_of(u32::from(frame.file));
    object.text("line", "told elsewhere")?;
    object.string("relayed", format!(in alloc; "{relayed}")?)?;
    object.string("capture", format!(in alloc; "{capture}")?)?;
    object.number("frame", frame.number)?;
    match frame.source {
        GrantSource::Elsewhere(client) => {
            object.nothing("unlisted")?;
            object.string("client", format!(in alloc; "{client}")?)?;
        }
        GrantSource::Unlisted { server, client } => {
            object.string("unlisted", format!(in alloc; "{server}")?)?;
            object.string("client", format!(in alloc; "{client}")?)?;
        }
    }
    Ok(object)
}

/// Adds a line of the explanation, or a member of the answer.
fn write_line(
    alloc: Global,
    printer: &Printer<'_>,
    moment: u64,
    line: &Line,
    answer: &mut Object,
    account: &mut List,
) -> Result<(), AllocError> {
    match line {
        Line::Words(words) if words.is_empty() => Ok(()),
        Line::Words(words) => account.object(words_of(alloc, words.as_str())?),
        Line::Client(of) => answer.object("client", client_of(alloc, of)?),
        Line::Expected(words) => answer.text("expected", words.as_str()),
        Line::Rule(rule) => answer.object("asks", rule_of(alloc, *rule)?),
        Line::Datagram(sight) => account.object(shown(alloc, printer, *sight)?),
        Line::Lease(row) => account.object(lease_of(alloc, printer, row, moment)?),
        Line::Ended(ended) => account.object(ended_of(alloc, printer, ended)?),
        Line::GrantedElsewhere(relayed) => match printer.frames.grant_of(*relayed) {
            Some(frame) => account.object(written_of(alloc, printer, *relayed, frame)?),
            None => Ok(()),
        },
        Line::WithAct { words, act } => account.object(words_with_act(
            alloc,
            printer,
            words.as_str(),
            act,
        )?),
        Line::UpTo {
            words,
            sight,
            behind,
        } => account.object(words_with(alloc, printer, words.as_str(), *sight, behind.as_str())?),
    }
}

/// Adds an explanation. `client`, `expected` and `asks` are null if it has none.
pub fn write_account(
    alloc: Global,
    printer: &Printer<'_>,
    story: &Story,
    answer: &mut Object,
) -> Result<(), AllocError> {
    answer.nothing("client")?;
    answer.nothing("expected")?;
    answer.nothing("asks")?;
    let mut account = List::new(alloc);
    for line in &story.lines {
        write_line(alloc, printer, story.moment, line, answer, &mut account)?;
    }
    answer.list("account", account)
}
