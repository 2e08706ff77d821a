//! Finds a certificate for captures, and the verdict by it.

ghost use Rattle.std.specs.Prelude.{◌≡◌, IfOk, IfSome};
ghost use Rattle.audit_files.specs.Judged.{Judges};
ghost use Rattle.audit_keys.specs.KeyFor.{key_for};
ghost use Rattle.audit_sightings.specs.Intake.{taken};
ghost use Rattle.audit_program.specs.Deciding.{Decides};

use crate::outlook::{Outlook, outlook_by};
use audit_files::{Files, Workers, verdict_of};
use audit_finding::{CertificateFinder, FoundCertificate, Windows};
use audit_model::{Certificate, Verdict};
use std::alloc::{AllocError, Global};
use std::sync::Wait;
use std::thread::Threads;

/// The least width of a window, in nanoseconds, that is worth a search by a part of it: the window
/// of a policy without skews.
const LEAST_WINDOW: u64 = 1_000_000;

/// A certificate that was found, and the verdict by it.
#[derive(Drop)]
pub struct Found {
    pub certificate: Certificate,
    pub verdict: Verdict,
}

/// A way to search for a certificate: one walk over the sightings, or passes over all of them.
#[derive(Clone, Copy, Debug, PartialEq, Eq)]
enum Way {
    Walk,
    Passes,
}

/// The certificate with the verdict by it.
fn judged<R: Threads + Wait + Sync>(
    rt: &R,
    alloc: Global,
    files: &Files,
    certificate: Certificate,
    workers: Workers,
) -> Result<Found, AllocError>
    ensures judged { IfOk result (λ found. Judges (taken files.now.intake) (key_for files.now.users) found.certificate found.verdict) }
    ensures same { IfOk result (λ found. found.certificate ≡ certificate) }
{
    let verdict = verdict_of(
        rt,
        alloc,
        &files.intake,
        &files.users,
        &certificate,
        workers,
    )?;
    Ok(Found {
        certificate,
        verdict,
    })
}

/// The result of one walk in which leases last as long as possible.
fn found_late<R: Threads + Wait + Sync, F: CertificateFinder>(
    rt: &R,
    alloc: Global,
    finder: &F,
    files: &Files,
    workers: Workers,
) -> Result<Found, AllocError>
    ensures judged { IfOk result (λ found. Judges (taken files.now.intake) (key_for files.now.users) found.certificate found.verdict) }
    ensures finds { IfOk result (λ found. F.finds (taken files.now.intake) found.certificate) }
{
    let certificate = finder.find_late(alloc, &files.intake, &files.users)?;
    judged(rt, alloc, files, certificate, workers)
}

/// The result of a search in this way by this part of each window.
fn found_in<R: Threads + Wait + Sync, F: CertificateFinder>(
    rt: &R,
    alloc: Global,
    finder: &F,
    files: &Files,
    way: Way,
    windows: Windows,
    workers: Workers,
) -> Result<FoundCertificate, AllocError>
    ensures { IfOk result (λ found. F.finds (taken files.now.intake) found.certificate) }
{
    let (intake, users) = (&files.intake, &files.users);
    match way {
        Way::Walk => finder.find_once(alloc, intake, users, windows),
        Way::Passes => finder.find(rt, alloc, intake, users, windows, workers.count),
    }
}

/// The result of a search by a part of each window, if the captures conform by it.
fn found_by_part<R: Threads + Wait + Sync, F: CertificateFinder>(
    rt: &R,
    alloc: Global,
    finder: &F,
    files: &Files,
    way: Way,
    windows: Windows,
    workers: Workers,
) -> Result<Option<Found>, AllocError>
    ensures judged { IfOk result (λ part. IfSome part (λ found. Judges (taken files.now.intake) (key_for files.now.users) found.certificate found.verdict)) }
    ensures finds { IfOk result (λ part. IfSome part (λ found. F.finds (taken files.now.intake) found.certificate)) }
{
    let part = found_in(rt, alloc, finder, files, way, windows, workers)?;
    if !part.seems_conforming() {
        return Ok(None);
    }
    let found = judged(rt, alloc, files, part.into_certificate(), workers)?;
    match found.verdict {
        Verdict::Conforming { .. } => Ok(Some(found)),
        Verdict::NotShown(_) => Ok(None),
    }
}

/// The result of a search by a part of each window, the widest part first, if the captures conform
/// by one. If windows are wide, many datagrams that came one after another may have one moment, and
/// a search by whole windows may take them in another order.
fn found_by_parts<R: Threads + Wait + Sync, F: CertificateFinder>(
    rt: &R,
    alloc: Global,
    finder: &F,
    files: &Files,
    way: Way,
    workers: Workers,
) -> Result<Option<Found>, AllocError>
    ensures judged { IfOk result (λ part. IfSome part (λ found. Judges (taken files.now.intake) (key_for files.now.users) found.certificate found.verdict)) }
    ensures finds { IfOk result (λ part. IfSome part (λ found. F.finds (taken files.now.intake) found.certificate)) }
{
    'parts: for windows in Windows::PARTS {
        if windows.widest(files.intake.policy()) < LEAST_WINDOW {
            break;
        }
        let found = found_by_part(rt, alloc, finder, files, way, windows, workers)?;
        if found.is_some() {
            return Ok(found);
        }
    }
    Ok(None)
}

/// The result of all searches: by a part of each window if the captures conform by that, otherwise
/// by passes over whole windows.
fn found_at_last<R: Threads + Wait + Sync, F: CertificateFinder>(
    rt: &R,
    alloc: Global,
    finder: &F,
    files: &Files,
    workers: Workers,
) -> Result<Found, AllocError>
    ensures judged { IfOk result (λ found. Judges (taken files.now.intake) (key_for files.now.users) found.certificate found.verdict) }
    ensures finds { IfOk result (λ found. F.finds (taken files.now.intake) found.certificate) }
{
    if let Some(found) = found_by_parts(rt, alloc, finder, files, Way::Walk, workers)? {
        return Ok(found);
    }
    let way = Way::Passes;
    let whole = found_in(rt, alloc, finder, files, way, Windows::Whole, workers)?;
    let whole = judged(rt, alloc, files, whole.into_certificate(), workers)?;
    if let Verdict::Conforming { .. } = whole.verdict {
        return Ok(whole);
    }
    match found_by_parts(rt, alloc, finder, files, way, workers)? {
        Some(part) => Ok(part),
        None => Ok(whole),
    }
}

/// The certificate of the walk with the verdict by it, or that of a late walk, if no other search
/// is needed: it conforms, or the captures show a fault of the server, so that none does.
///
/// The fault may be of a departure soon after the one at which the walk's certificate breaks a
/// rule. Then the lease that has expired at the first may last longer in another order. So the late
/// walk is used, which finds where it has expired in every order.
fn decided<R: Threads + Wait + Sync, F: CertificateFinder>(
    rt: &R,
    alloc: Global,
    finder: &F,
    files: &Files,
    certificate: Certificate,
    workers: Workers,
) -> Result<Option<Found>, AllocError>
    ensures judged { IfOk result (λ walk. IfSome walk (λ found. Judges (taken files.now.intake) (key_for files.now.users) found.certificate found.verdict)) }
    // If any certificate conforms, this one does.
    ensures decides { IfOk result (λ walk. IfSome walk (λ found. Decides (taken files.now.intake) (key_for files.now.users) found.certificate)) }
    ensures finds { F.finds (taken files.now.intake) certificate → IfOk result (λ walk. IfSome walk (λ found. F.finds (taken files.now.intake) found.certificate)) }
{
    let once = judged(rt, alloc, files, certificate, workers)?;
    match outlook_by(alloc, files, &once.certificate, &once.verdict)? {
        Outlook::Decided => Ok(Some(once)),
        Outlook::Open => Ok(None),
        Outlook::DecidedAfter => {
            // Frees the certificate: the late walk may need its memory.
            drop(once);
            let late = found_late(rt, alloc, finder, files, workers)?;
            if outlook_by(alloc, files, &late.certificate, &late.verdict)? == Outlook::Open {
                return Ok(None);
            }
            Ok(Some(late))
        }
    }
}

/// The result of a walk over the sightings if that decides; otherwise the result of all searches,
/// which take longer and find more.
pub fn found_either_way<R: Threads + Wait + Sync, F: CertificateFinder>(
    rt: &R,
    alloc: Global,
    finder: &F,
    files: &Files,
    workers: Workers,
) -> Result<Found, AllocError>
    ensures judged { IfOk result (λ found. Judges (taken files.now.intake) (key_for files.now.users) found.certificate found.verdict) }
    ensures finds { IfOk result (λ found. F.finds (taken files.now.intake) found.certificate) }
{
    let once = finder.find_once(alloc, &files.intake, &files.users, Windows::Whole)?;
    match decided(rt, alloc, finder, files, once.into_certificate(), workers)? {
        Some(found) => Ok(found),
        None => found_at_last(rt, alloc, finder, files, workers),
    }
}

/// The certificate by which `found_either_way` judges. The result of one walk isn't judged if it
/// seems to conform.
pub fn certificate_for<R: Threads + Wait + Sync, F: CertificateFinder>(
    rt: &R,
    alloc: Global,
    finder: &F,
    files: &Files,
    workers: Workers,
) -> Result<Certificate, AllocError>
    ensures { IfOk result (F.finds (taken files.now.intake)) }
{
    let once = finder.find_once(alloc, &files.intake, &files.users, Windows::Whole)?;
    if once.seems_conforming() {
        return Ok(once.into_certificate());
    }
    match decided(rt, alloc, finder, files, once.into_certificate(), workers)? {
        Some(found) => Ok(found.certificate),
        None => Ok(found_at_last(rt, alloc, finder, files, workers)?.certificate),
    }
}
