//! Translates captures that are files.

ghost use Rattle.std.specs.Prelude.{◌≡◌, ℕ, List, Some, IfOk};
ghost use Rattle.prep_blocks.specs.declared.block.Block.{Block};
ghost use Rattle.prep_translate.specs.Translating.{IsDone, IsTranslating};
ghost use Rattle.prep_program.specs.Translations.{Translates};
ghost use Rattle.prep_program.specs.Answered.{IsSuccess};
ghost use Rattle.prep_program.specs.TranslateStatus.{EndsByTranslated};

use crate::folder::{check_parts, last_part, path_in};
use crate::maker::Maker;
use crate::source::{PIECE, Source};
use crate::stop::Stop;
use crate::text::read_policy_text;
use audit_model::{Policy, Sink, put_all, read_policy};
use audit_pcapng::CaptureFault;
use prep_translate::{
    Refused, Renaming, RenamingFault, Tally, TranslateFault, Translation, Translator,
};
use std::alloc::{AllocError, Global};
use std::fmt::Write;

/// The arguments of the command `translate`.
#[derive(Drop)]
pub struct TranslateRequest<'a> {
    pub policy: &'a str,
    pub translations: Vec<Translation>,
    /// An existing folder.
    pub folder: &'a str,
    pub captures: Vec<&'a str>,
}

/// Translates a capture to the file that was made last, and returns the counts. If a capture is
/// refused, the blocks before its fault are written.
pub fn translate_capture<S: Source, M: Maker>(
    alloc: Global,
    source: &mut S,
    name: &str,
    capture: u32,
    renaming: &Renaming,
    made: &mut M,
) -> Result<Tally, Stop>
    ensures kept { S.holds source.new ≡ S.holds source.old }
    ensures translates { (text : List ℕ) → S.holds source.old name.now ≡ Some text →
        IfOk result (λ tally. Translates renaming.now text tally (M.taken made.old) (M.taken made.new)) }
{
    let mut translator = Translator::new(alloc);
    let mut piece = vec![in alloc; 0u8; PIECE]?;
    let mut out = Vec::new(alloc);
    let mut at = 0u64;
    'pieces: for _ in 0..u64::MAX {
        let read = source.piece(name, at, &mut piece)?;
        if read == 0 {
            return end_capture(&translator, capture);
        }
        if let Err(fault) = translator.feed(renaming, &piece[..read], &mut out) {
            // what the capture has before its fault is written
            put_all(made, &out)?;
            return Err(stop_of(capture, fault));
        }
        put_all(made, &out)?;
        out.clear();
        let Some(next) = at.checked_add(read as u64) else {
            return Err(Stop::Read);
        };
        at = next;
    }
    Err(Stop::Read)
}

/// Ends a capture, and returns the counts.
fn end_capture(translator: &Translator, capture: u32) -> Result<Tally, Stop>
    ensures { (renaming : Renaming) (text : List ℕ) (blocks : List Block) → IsTranslating renaming translator.now text blocks →
        IfOk result (λ tally. IsDone renaming text blocks tally) }
{
    match translator.finish() {
        Ok(tally) => Ok(tally),
        Err(fault) => Err(stop_of(capture, fault)),
    }
}

/// The fault of a capture, by its number.
fn stop_of(capture: u32, fault: TranslateFault) -> Stop {
    match fault {
        TranslateFault::Capture(CaptureFault::Memory) => Stop::Memory,
        _ => Stop::Translate(Refused { capture, fault }),
    }
}

/// The translations with the policy of their outer side.
fn renaming_of(
    alloc: Global,
    policy: Policy,
    translations: &[Translation],
) -> Result<Renaming, RenamingFault> {
    let mut renaming = Renaming::new(alloc, policy);
    for translation in translations {
        renaming.add(*translation)?;
    }
    Ok(renaming)
}

/// The line with the counts of a capture.
fn write_tally(report: &mut String, capture: u32, tally: &Tally) -> Result<(), AllocError> {
    let outgoing = tally.outgoing;
    let incoming = tally.incoming;
    let inside = tally.inside;
    write!(
        report,
        "capture {capture} out {outgoing} in {incoming} inside {inside}"
    )?;
    if let Some(ends) = tally.first {
        let from = ends.from;
        let to = ends.to;
        write!(report, " first {from} {to}")?;
    }
    report.push_str("\n")
}

/// The first lines of the report.
fn report_of(alloc: Global, translations: &[Translation]) -> Result<String, AllocError> {
    let mut report = String::from_str(alloc, "turnprep-translated 1\n")?;
    for translation in translations {
        write!(report, "external-ip {translation}\n")?;
    }
    Ok(report)
}

/// The line on standard error if no datagram is translated.
const NOTHING_TRANSLATED: &str =
    "turnprep: translated 0 datagrams: the captures have no private address of --external-ip at a relayed port\n";

/// The exit status of a call that translated this number of datagrams. If it is 0, it reports that
/// on `err`.
fn end_translate<E: Sink>(total: u64, err: &mut E) -> Result<u8, Stop>
    ensures done { IsSuccess result }
    ensures said { IfOk result (λ status. EndsByTranslated total status (E.taken err.old) (E.taken err.new)) }
{
    if total > 0 {
        return Ok(0);
    }
    put_all(err, NOTHING_TRANSLATED.as_bytes())?;
    Ok(0)
}

/// Translates captures to files of the same names in a folder, and writes the counts there and to
/// `out`. If no datagram is translated, it reports that on `err`.
pub fn run_translate<S: Source, M: Maker, O: Sink, E: Sink>(
    alloc: Global,
    request: &TranslateRequest<'_>,
    source: &mut S,
    maker: &mut M,
    out: &mut O,
    err: &mut E,
) -> Result<u8, Stop>
    ensures { IsSuccess result }
{
    let text = read_policy_text(alloc, source, request.policy)?;
    let policy = read_policy(alloc, &text)?;
    let renaming = renaming_of(alloc, policy, &request.translations)?;
    check_parts(&request.captures)?;
    let mut report = report_of(alloc, &request.translations)?;
    let mut total = 0u64;
    let mut capture = 0u32;
    for name in &request.captures {
        let file = path_in(alloc, request.folder, last_part(name)?)?;
        maker.make(file.as_str())?;
        let tally = translate_capture(alloc, source, name, capture, &renaming, maker)?;
        write_tally(&mut report, capture, &tally)?;
        total = total.saturating_add(tally.outgoing.saturating_add(tally.incoming));
        capture = capture.saturating_add(1);
    }
    write!(report, "translated {total}\n")?;
    let file = path_in(alloc, request.folder, "translated")?;
    maker.make(file.as_str())?;
    put_all(maker, report.as_bytes())?;
    put_all(out, report.as_bytes())?;
    maker.publish()?;
    end_translate(total, err)
}
