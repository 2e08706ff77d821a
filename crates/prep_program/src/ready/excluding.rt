//! The last step of `ready`: whether datagrams are excluded, and by which options of `cut`.

use super::work::{Staged, Work, files_of};
use crate::collected::Collected;
use crate::folders::Folders;
use crate::list_head::USUAL_LIFETIME;
use crate::looking::LONGEST_RELEASED;
use crate::maker::Maker;
use crate::recording::record_captures;
use crate::set_aside::{CutRequest, run_cut};
use crate::source::Source;
use crate::stop::Stop;
use crate::surveying::survey_captures;
use crate::text::read_policy_text;
use audit_model::{Policy, Sink, read_policy};
use prep_cut::Stated;
use prep_look::{Needs, needs_of};
use prep_reasons::sort_out;
use std::alloc::Global;
use std::thread::Threads;

/// Whether `cut` is needed, and with which options.
#[derive(Clone, Copy)]
pub struct Decided {
    pub stated: Stated,
    pub is_cut: bool,
}

/// Decides by the captures as `look` reads them, and by the operator's options.
pub fn decide_step<S: Source>(
    alloc: Global,
    stated: Stated,
    captures: &[Staged],
    work: &mut Work,
    source: &mut S,
) -> Result<Decided, Stop> {
    let needs = needs(alloc, stated, captures, work, source)?;
    say_notes(needs.notes.as_bytes(), work)?;
    say_open(alloc, stated, &needs, work)?;
    let is_stated = stated.since.is_some() || stated.until.is_some() || stated.released_ms > 0;
    Ok(Decided {
        stated,
        is_cut: needs.excludes || is_stated,
    })
}

/// Prints the notes about the captures.
fn say_notes(notes: &[u8], work: &mut Work) -> Result<(), Stop> {
    for line in notes.split(|byte| *byte == b'\n') {
        if !line.is_empty() {
            work.say(line)?;
        }
    }
    Ok(())
}

/// Reports what the captures leave open, with the option that decides it. If the server was
/// restarted, the operator must state which time is meant. Departures after an interface's end are
/// excluded only by the operator's option: they may be violations by the server.
fn say_open(alloc: Global, stated: Stated, needs: &Needs, work: &mut Work) -> Result<(), Stop> {
    if stated.since.is_some() || stated.until.is_some() {
        return Ok(());
    }
    if let Some(restart) = needs.restart {
        return Err(Stop::Restarted(restart));
    }
    if let Some(until) = needs.until {
        let line = format!(in alloc;
            "note an interface ends at {until}, and datagrams without a cause left later: if it was captured no longer, add --until {until}"
        )?;
        work.say(line.as_bytes())?;
    }
    Ok(())
}

/// What the captures need, by the policy.
fn needs<S: Source>(
    alloc: Global,
    stated: Stated,
    captures: &[Staged],
    work: &Work,
    source: &mut S,
) -> Result<Needs, Stop> {
    let file = work.file("policy")?;
    let text = read_policy_text(alloc, source, file.as_str())?;
    let policy = read_policy(alloc, &text)?;
    let files = files_of(alloc, captures)?;
    needs_by(alloc, stated, &policy, &files, source)
}

/// What files need, by a policy.
fn needs_by<S: Source>(
    alloc: Global,
    stated: Stated,
    policy: &Policy,
    files: &[&str],
    source: &mut S,
) -> Result<Needs, Stop> {
    // with the longest time after deletions, so that the captures show theirs
    let widest = Stated {
        released_ms: LONGEST_RELEASED,
        ..stated
    };
    let survey = survey_captures(alloc, source, files)?;
    let records = record_captures(alloc, source, files, policy, widest)?;
    let sheet = sort_out(alloc, policy, widest, records)?;
    Ok(needs_of(alloc, &survey, policy, &sheet, stated.released_ms)?)
}

/// Puts the captures into the folder: without the excluded packets and with their list, or
/// unchanged. Nothing remains if no datagram of the service is kept.
pub fn exclude_step<R: Threads + AllocGlobal, S: Source, M: Maker, F: Folders, E: Sink>(
    rt: &R,
    decided: Decided,
    captures: Vec<Staged>,
    work: &mut Work,
    source: &mut S,
    maker: &mut M,
    folders: &mut F,
    err: &mut E,
) -> Result<Option<Vec<Staged>>, Stop> {
    let alloc = rt.alloc();
    if decided.is_cut {
        exclude(rt, decided.stated, &captures, work, source, maker, err)
    } else {
        let kept = keep(alloc, captures, work, source, maker, folders)?;
        Ok(Some(kept))
    }
}

/// Moves or copies captures from which nothing is excluded.
fn keep<S: Source, M: Maker, F: Folders>(
    alloc: Global,
    captures: Vec<Staged>,
    work: &mut Work,
    source: &mut S,
    maker: &mut M,
    folders: &mut F,
) -> Result<Vec<Staged>, Stop> {
    let mut kept = Vec::new(alloc);
    for one in captures {
        kept.push(work.keep(alloc, one, source, maker, folders)?)?;
    }
    Ok(kept)
}

/// Writes the captures without the excluded packets, and the list.
fn exclude<R: Threads + AllocGlobal, S: Source, M: Maker, E: Sink>(
    rt: &R,
    stated: Stated,
    captures: &[Staged],
    work: &mut Work,
    source: &mut S,
    maker: &mut M,
    err: &mut E,
) -> Result<Option<Vec<Staged>>, Stop> {
    let alloc = rt.alloc();
    let mut list = Collected::new(alloc);
    if cut_by(rt, stated, captures, work, source, maker, &mut list, err)? != 0 {
        return Ok(None);
    }
    if let Some(line) = list.line(b"excluded ") {
        work.say(line)?;
    }
    by_hand(alloc, stated, captures, work)?;
    let ended = work.ended_in(captures)?;
    Ok(Some(ended))
}

/// Records the command that excludes them manually.
fn by_hand(
    alloc: Global,
    stated: Stated,
    captures: &[Staged],
    work: &mut Work,
) -> Result<(), Stop> {
    work.folder_by_hand("ready")?;
    work.begin("turnprep cut --policy")?;
    work.word_by_hand("policy")?;
    options(alloc, stated, work)?;
    work.word("-o")?;
    work.word_by_hand("ready")?;
    work.captures(captures)?;
    work.end_line()
}

/// Runs `cut` into the temporary folder, and returns its exit status.
fn cut_by<R: Threads + AllocGlobal, S: Source, M: Maker, E: Sink>(
    rt: &R,
    stated: Stated,
    captures: &[Staged],
    work: &Work,
    source: &mut S,
    maker: &mut M,
    list: &mut Collected,
    err: &mut E,
) -> Result<u8, Stop> {
    let policy = work.file("policy")?;
    let folder = work.part();
    let status = cut_to(
        rt,
        stated,
        captures,
        policy.as_str(),
        folder,
        source,
        maker,
        list,
        err,
    )?;
    maker.publish()?;
    Ok(status)
}

/// Runs `cut` into the folder, and returns its exit status.
fn cut_to<'x, R: Threads + AllocGlobal, S: Source, M: Maker, E: Sink>(
    rt: &R,
    stated: Stated,
    captures: &'x [Staged],
    policy: &'x str,
    folder: &'x str,
    source: &mut S,
    maker: &mut M,
    list: &mut Collected,
    err: &mut E,
) -> Result<u8, Stop> {
    let alloc = rt.alloc();
    let request = CutRequest {
        policy,
        folder,
        stated,
        captures: files_of(alloc, captures)?,
    };
    run_cut(rt, &request, source, maker, list, err)
}

/// Adds the operator's options as options of `cut`.
fn options(alloc: Global, stated: Stated, work: &mut Work) -> Result<(), Stop> {
    number(alloc, "--since", stated.since, work)?;
    number(alloc, "--until", stated.until, work)?;
    if stated.lifetime != USUAL_LIFETIME {
        number(alloc, "--lifetime", Some(stated.lifetime), work)?;
    }
    if stated.released_ms > 0 {
        number(alloc, "--released-ms", Some(stated.released_ms), work)?;
    }
    if stated.is_from_start {
        work.word("--from-start")?;
    }
    if stated.has_no_tcp {
        work.word("--no-tcp")?;
    }
    if stated.keeps_inner {
        work.word("--keep-inner")?;
    }
    Ok(())
}

/// An option with its number, if there is one.
fn number(alloc: Global, option: &str, value: Option<u64>, work: &mut Work) -> Result<(), Stop> {
    let Some(value) = value else {
        return Ok(());
    };
    let word = format!(in alloc; "{value}")?;
    work.word(option)?;
    work.word(word.as_str())
}
