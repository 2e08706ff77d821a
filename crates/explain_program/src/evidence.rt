//! The command `evidence`: writes the evidence page.

ghost use Rattle.std.specs.Prelude.{◌≡◌, [], ℕ, IfNone, IfOk, IfSome, List, None, Some};
ghost use Rattle.std.specs.List.{AllZip};
ghost use Rattle.audit_model.specs.declared.certificate.Certificate.{Certificate as Found};
ghost use Rattle.explain_program.specs.Explained.{IsExplained};

use crate::command_line::Inputs;
use crate::digesting::{Digesting, unread};
use crate::explaining::{case_of, status};
use crate::filed_texts::{excluded_of, users_of};
use crate::head::{head, put_answer};
use crate::judged::{Judged, judge_files};
use crate::lanes::breach_of;
use crate::named::{NamedFile, NamedUser, facts_of_captures, named_files, plain_lines};
use crate::page_rows::{
    Clients, bars_of, capture_rows, client_rows, comment_rows, file_rows, picture_of, user_rows,
};
use crate::pages::version;
use crate::picture::{Drawing, drawing_of};
use crate::reading::{CaptureFacts, digests_of, text_of};
use crate::run_error::RunError;
use crate::system::{Explaining, PageFile, check_inputs};
use crate::verdict::{story_in, verdict_lines};
use audit_files::{Source, Stop};
use audit_finding::CertificateFinder;
use audit_model::{Sink, Verdict, put_all};
use explain_frames::Frames;
use explain_lookup::look_up;
use explain_page::{Facts, page_of};
use explain_story::{
    Case, Lanes, Printer, is_broken, lane_line, lanes_of, request_breaches, sum_lines, sums_of,
};
use std::alloc::{AllocError, Global};
use std::sync::Wait;
use std::thread::Threads;

/// At most this number of clients is listed.
const MOST_CLIENTS: usize = 200;

/// At most this number of bytes of the policy is on the page.
const MOST_POLICY: usize = 65_536;

/// The running program.
const SELF: &str = "/proc/self/exe";

/// The SHA-256 of docs/headline.txt, which states what is proved. `tests/explain_page.py` compares
/// it.
const HEADLINE: &str = "a88571147e935d8685dfae734eec0476510b52dcb36904ef7eabd0156885e8cb";

/// The contents of the page, collected.
#[derive(Drop)]
struct Gathered {
    story: String,
    /// The time of the first frame of all captures, in nanoseconds since 1970.
    first: u64,
    clients: Clients,
    files: Vec<NamedFile>,
    captures: Vec<CaptureFacts>,
    policy: String,
    excluded: Option<String>,
    users: Vec<NamedUser>,
    drawing: Option<Drawing>,
}

/// The first clients' lines.
fn lines_of(
    alloc: Global,
    printer: &Printer<'_>,
    lanes: &Lanes<'_>,
    verdict: &Verdict,
) -> Result<Clients, AllocError> {
    let mut lines = Vec::new(alloc);
    let mut broken = Vec::new(alloc);
    for finding in lanes.findings.iter().take(MOST_CLIENTS) {
        lines.push(lane_line(alloc, printer, finding)?)?;
        broken.push(is_broken(finding))?;
    }
    Ok(Clients {
        lines,
        broken,
        all: u32::try_from(lanes.findings.len()).unwrap_or(u32::MAX),
        sums: sum_lines(alloc, sums_of(printer.case, lanes, breach_of(verdict)))?,
    })
}

/// The clients of a run; none if placement violates a rule, so that no lane is judged.
fn clients_of(
    alloc: Global,
    printer: &Printer<'_>,
    lanes: Option<&Lanes<'_>>,
    verdict: &Verdict,
) -> Result<Clients, AllocError> {
    match lanes {
        Some(lanes) => lines_of(alloc, printer, lanes, verdict),
        None => Ok(Clients {
            lines: Vec::new(alloc),
            broken: Vec::new(alloc),
            all: 0,
            sums: String::from_str(
                alloc,
                "No client is judged, since placement breaks a rule.\n",
            )?,
        }),
    }
}

/// The explanation of a verdict, the time of the first frame, and the clients: all that needs
/// frames, which one pass over the captures looks up.
fn by_frames<S: Source>(
    alloc: Global,
    source: &mut S,
    case: Case<'_>,
    lanes: Option<&Lanes<'_>>,
    verdict: &Verdict,
    is_searched: bool,
) -> Result<(String, u64, Clients), Stop> {
    let (story, shown) = story_in(alloc, case, verdict)?;
    let mut frames = Frames::new(alloc);
    story.request_frames(&mut frames)?;
    if let Some(lanes) = lanes {
        request_breaches(lanes, &mut frames)?;
    }
    look_up(
        alloc,
        source,
        case.intake.policy(),
        case.captures,
        &mut frames,
    )?;
    let printer = Printer {
        case,
        frames: &frames,
    };
    let mut account = head(alloc, verdict)?;
    let length = account.len();
    let lines = verdict_lines(alloc, &printer, verdict, &story, shown, is_searched, length)?;
    account.push_str(lines.as_str())?;
    Ok((
        account,
        printer.first(),
        clients_of(alloc, &printer, lanes, verdict)?,
    ))
}

/// The drawing, if a lane violates a rule.
fn drawing_in(
    alloc: Global,
    case: Case<'_>,
    lanes: Option<&Lanes<'_>>,
    verdict: &Verdict,
) -> Result<Option<Drawing>, AllocError> {
    let (Some(lanes), Some(breach)) = (lanes, breach_of(verdict)) else {
        return Ok(None);
    };
    match lanes.findings.get(breach.at.lane as usize) {
        Some(finding) if is_broken(finding) => drawing_of(alloc, case, finding.input(), &breach),
        _ => Ok(None),
    }
}

/// Collects the contents of the page.
fn gather<S: Source>(
    alloc: Global,
    source: &mut Digesting<S>,
    inputs: &Inputs<'_>,
    excluded: Option<&str>,
    judged: &Judged,
    case: Case<'_>,
) -> Result<Gathered, Stop> {
    let verdict = &judged.verdict;
    let lanes = lanes_of(alloc, case)?;
    let is_searched = inputs.certificate.is_none();
    let (story, first, clients) = by_frames(
        alloc,
        source,
        case,
        lanes.as_ref(),
        verdict,
        is_searched,
    )?;
    let policy = text_of(alloc, source, inputs.policy, MOST_POLICY)?;
    let excluded = excluded_of(alloc, source, excluded)?;
    let captures = facts_of_captures(alloc, source, &inputs.captures)?;
    Ok(Gathered {
        story,
        first,
        clients,
        files: named_files(alloc, source, inputs)?,
        captures,
        excluded,
        policy: plain_lines(alloc, policy.as_slice())?,
        users: users_of(alloc, source, inputs)?,
        drawing: drawing_in(alloc, case, lanes.as_ref(), verdict)?,
    })
}

/// The page with the collected contents.
fn page<S: Source>(
    alloc: Global,
    source: &mut S,
    judged: &Judged,
    gathered: &Gathered,
) -> Result<String, AllocError> {
    let head = head(alloc, &judged.verdict)?;
    let files = file_rows(alloc, gathered.files.as_slice())?;
    let users = user_rows(alloc, gathered.users.as_slice())?;
    let clients = client_rows(alloc, &gathered.clients)?;
    let captures = capture_rows(alloc, gathered.captures.as_slice())?;
    let comments = comment_rows(alloc, gathered.captures.as_slice())?;
    let grace = judged.files.intake.policy().grace;
    let rows = bars_of(alloc, &gathered.drawing, grace)?;
    let picture = picture_of(&gathered.drawing, rows.as_slice(), gathered.first);
    let program = digests_of(alloc, source, SELF)?;
    let release = String::from_str(alloc, version())?;
    let facts = Facts {
        head: head.as_str(),
        is_conforming: breach_of(&judged.verdict).is_none(),
        story: gathered.story.as_str(),
        files: files.as_slice(),
        captures: captures.as_slice(),
        comments: comments.as_slice(),
        excluded: gathered.excluded.as_ref().map(|list| list.as_str()),
        policy: gathered.policy.as_str(),
        users: users.as_slice(),
        clients: clients.as_slice(),
        all_clients: gathered.clients.all,
        sums: gathered.clients.sums.as_str(),
        release: release.as_str(),
        program,
        headline: HEADLINE,
        picture,
    };
    page_of(alloc, &facts)
}

/// Judges captures, writes the page to a new file, and prints the verdict. It returns 0 if they
/// conform, and 1 if that isn't shown. The digests of the page are of the bytes that were judged: a
/// capture that changes while it is read is an error.
pub fn evidence<
    R: Threads + Wait + Sync,
    F: CertificateFinder,
    S: Explaining,
    O: Sink,
    P: PageFile,
>(
    rt: &R,
    alloc: Global,
    finder: &F,
    source: &mut Digesting<S>,
    inputs: &Inputs<'_>,
    file: &str,
    excluded: Option<&str>,
    pages: &mut P,
    out: &mut O,
) -> Result<u8, RunError>
    ensures { (policy_text users_text : List ℕ) (texts : List (List ℕ)) →
        S.holds source.old.inner inputs.now.policy.now ≡ Some policy_text →
        IfSome inputs.now.credentials (λ name. S.holds source.old.inner name.now ≡ Some users_text) → IfNone inputs.now.credentials (users_text ≡ []) →
        AllZip (λ name text. S.holds source.old.inner name.now ≡ Some text) inputs.now.captures.items texts →
        IfOk result (λ status. (by : Found) × IsExplained None policy_text users_text texts by (O.taken out.old) (O.taken out.new) status) }
{
    check_inputs(alloc, source, inputs)?;
    source.watch(unread(
        alloc,
        inputs.policy,
        inputs.credentials,
        inputs.certificate,
        &inputs.captures,
    )?);
    let judged = judge_files(
        rt,
        alloc,
        finder,
        source,
        inputs.policy,
        inputs.credentials,
        inputs.certificate,
        &inputs.captures,
        inputs.workers,
    )?;
    let case = case_of(&judged, &inputs.captures);
    let gathered = gather(alloc, source, inputs, excluded, &judged, case)?;
    if source.changed().is_some() {
        return Err(RunError::Stopped(Stop::Read));
    }
    let page = page(alloc, source, &judged, &gathered)?;
    pages.make(file)?;
    put_all(pages, page.as_bytes())?;
    put_answer(alloc, &judged.verdict, "\n", out)?;
    pages.publish()?;
    Ok(status(&judged.verdict))
}
