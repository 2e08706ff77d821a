//! The step of `ready` that replaces private addresses by public ones.

use super::policy::Chosen;
use super::work::{Staged, Work, files_of};
use crate::collected::Collected;
use crate::folders::Folders;
use crate::maker::Maker;
use crate::source::Source;
use crate::stop::Stop;
use crate::translating::{TranslateRequest, run_translate};
use audit_model::Sink;
use prep_translate::Translation;
use std::alloc::{AllocError, Global};

/// Translates the captures, if the policy has private addresses.
pub fn translate_step<S: Source, M: Maker, F: Folders, E: Sink>(
    alloc: Global,
    policy: &Chosen,
    captures: Vec<Staged>,
    work: &mut Work,
    source: &mut S,
    maker: &mut M,
    folders: &mut F,
    err: &mut E,
) -> Result<Vec<Staged>, Stop> {
    if policy.translations.is_empty() {
        return Ok(captures);
    }
    work.make_folder(folders, "outer")?;
    let line = translate_all(
        alloc,
        &policy.translations,
        &captures,
        work,
        source,
        maker,
        err,
    )?;
    work.say(&line)?;
    by_hand(alloc, &policy.translations, &captures, work)?;
    Ok(work.staged_in("outer", &captures)?)
}

/// Translates each capture, and returns the line with the number of datagrams and the pairs.
fn translate_all<S: Source, M: Maker, E: Sink>(
    alloc: Global,
    translations: &[Translation],
    captures: &[Staged],
    work: &Work,
    source: &mut S,
    maker: &mut M,
    err: &mut E,
) -> Result<Vec<u8>, Stop> {
    let policy = work.file("policy")?;
    let folder = work.file("outer")?;
    let mut report = Collected::new(alloc);
    translate_to(
        alloc,
        translations,
        captures,
        policy.as_str(),
        folder.as_str(),
        source,
        maker,
        &mut report,
        err,
    )?;
    Ok(line_of(alloc, translations, &report)?)
}

/// Translates each capture to a file in the folder.
fn translate_to<'x, S: Source, M: Maker, E: Sink>(
    alloc: Global,
    translations: &[Translation],
    captures: &'x [Staged],
    policy: &'x str,
    folder: &'x str,
    source: &mut S,
    maker: &mut M,
    report: &mut Collected,
    err: &mut E,
) -> Result<(), Stop> {
    let request = TranslateRequest {
        policy,
        translations: Vec::from_slice(alloc, translations)?,
        folder,
        captures: files_of(alloc, captures)?,
    };
    run_translate(alloc, &request, source, maker, report, err)?;
    Ok(())
}

/// The line with the number of translated datagrams, and the pairs.
fn line_of(
    alloc: Global,
    translations: &[Translation],
    report: &Collected,
) -> Result<Vec<u8>, AllocError> {
    let mut line = Vec::new(alloc);
    line.extend_from_slice(report.line(b"translated ").unwrap_or(b"translated"))?;
    for translation in translations {
        let pair = format!(in alloc; " {translation}")?;
        line.extend_from_slice(pair.as_bytes())?;
    }
    Ok(line)
}

/// Records the command that translates manually.
fn by_hand(
    alloc: Global,
    translations: &[Translation],
    captures: &[Staged],
    work: &mut Work,
) -> Result<(), Stop> {
    work.begin("turnprep translate --policy")?;
    work.word_by_hand("policy")?;
    for translation in translations {
        let pair = format!(in alloc; "{translation}")?;
        work.words(&["--external-ip", pair.as_str()])?;
    }
    work.word("-o")?;
    work.word_by_hand("outer")?;
    work.captures(captures)?;
    work.end_line()
}
