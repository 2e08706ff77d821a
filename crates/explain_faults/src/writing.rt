//! The report of departures that no order of the captures explains.

ghost use Rattle.std.specs.Prelude.{◌≡◌, [], ℕ, IfNone, IfOk, IfSome, List, Some};
ghost use Rattle.std.specs.List.{AllZip};
ghost use Rattle.audit_keys.specs.KeyFor.{key_for};
ghost use Rattle.audit_sightings.specs.Intake.{taken};
ghost use Rattle.explain_faults.specs.Written.{AreWritten, AreWrittenOf};

use crate::noting::{NOT_CHECKED, Notes, request_frames};
use crate::reported::with_notes;
use crate::reporting::{report_faults, status};
use audit_faults::{ShownFault, shown_faults};
use audit_files::{Source, Stop, Workers, read_files};
use audit_keys::Credentials;
use audit_model::Sink;
use audit_sightings::Intake;
use explain_clients::{Owners, has_relayed, is_response};
use explain_frames::Frames;
use explain_lookup::look_up;
use std::alloc::Global;
use std::thread::Threads;

/// The first note if no datagram of the captures is at a relayed address of the policy.
const NOTHING_RELAYED: &str =
    "note: no captured datagram is at a relayed address of the policy, so that no data below shows a fault of the server: check its relay lines, the captured interfaces, and whether turnprep translate was left out\n";

/// The facts for notes. The captures are read again, for frames that aren't judged.
fn notes_of<'a, S: Source>(
    alloc: Global,
    source: &mut S,
    captures: &'a [&'a str],
    intake: &'a Intake,
    faults: &[ShownFault],
) -> Result<Notes<'a>, Stop> {
    let owners = Owners::of(alloc, intake)?;
    let mut frames = Frames::new(alloc);
    request_frames(intake, &owners, faults, &mut frames)?;
    if frames.looks_for_grants() {
        look_up(alloc, source, intake.policy(), captures, &mut frames)?;
    }
    Ok(Notes {
        intake,
        owners,
        frames,
        captures,
        last: faults.last().map(|shown| shown.sight),
    })
}

/// The note before the faults; if there are none, the list of rules that aren't checked.
fn first_note(intake: &Intake, faults: &[ShownFault]) -> &'static str {
    if faults.is_empty() {
        return NOT_CHECKED;
    }
    let is_of_data = faults.iter().any(|shown| match intake.sighting(shown.sight) {
        Some(sighting) => !is_response(sighting.payload.as_slice()),
        None => false,
    });
    if is_of_data && !has_relayed(intake) {
        NOTHING_RELAYED
    } else {
        ""
    }
}

/// Writes all faults that the captures of an intake show, with notes, and returns 1 if there are
/// some and 0 if there are none.
pub fn write_faults<S: Source, O: Sink>(
    alloc: Global,
    source: &mut S,
    captures: &[&str],
    intake: &Intake,
    users: &Credentials,
    out: &mut O,
) -> Result<u8, Stop>
    ensures { IfOk result (AreWritten (taken intake.now) (key_for users.now) (O.taken out.old) (O.taken out.new)) }
{
    let faults = shown_faults(alloc, intake, users)?;
    let found = faults.as_slice();
    let notes = notes_of(alloc, source, captures, intake, found)?;
    let first = first_note(intake, found);
    let all = with_notes(alloc, &notes, found)?;
    let reported = all.as_slice();
    report_faults(alloc, intake, first, reported, out)?;
    Ok(status(reported))
}

/// The same for files. They are read in this order: policy, users, captures; each is judged before
/// the next is read.
pub fn faults_of_files<R: Threads + Sync, S: Source, O: Sink>(
    rt: &R,
    alloc: Global,
    source: &mut S,
    policy: &str,
    users: Option<&str>,
    captures: &[&str],
    workers: Workers,
    out: &mut O,
) -> Result<u8, Stop>
    ensures { (policy_text users_text : List ℕ) (texts : List (List ℕ)) →
        S.holds source.old policy.now ≡ Some policy_text →
        IfSome users.entry (λ name. S.holds source.old name.now ≡ Some users_text) → IfNone users.entry (users_text ≡ []) →
        AllZip (λ name text. S.holds source.old name.now ≡ Some text) captures.now texts →
        IfOk result (AreWrittenOf policy_text users_text texts (O.taken out.old) (O.taken out.new)) }
{
    let files = read_files(rt, alloc, source, policy, users, captures, workers)?;
    write_faults(alloc, source, captures, &files.intake, &files.users, out)
}
