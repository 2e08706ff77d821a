//! Reads the captures of a run, piece by piece.

ghost use Rattle.std.specs.Prelude.{◌≡◌, ◌<◌, ◌++◌, ◌∷◌, [], ℕ, IfErr, IfOk, List, OnOk, Some, length, vec_len};
ghost use Rattle.std.specs.List.{AllZip};
ghost use Rattle.audit_pcapng.specs.declared.packet.Packet.{Packet};
ghost use Rattle.audit_sightings.specs.Files.{Fed, GoesOn, StandsFor, fed_at, not_fed, packets_of};
ghost use Rattle.audit_sightings.specs.Intake.{taken};
ghost use Rattle.audit_files.specs.CaptureFaults.{EndsCapture, EndsCaptures, EndsTaking, HasFront};
ghost use Rattle.audit_files.specs.Captures.{AreTakenIn, Follow};

use crate::apart::take_apart;
use crate::source::{PIECE, Source};
use crate::stop::Stop;
use crate::workers::Workers;
use audit_sightings::{Intake, MAX_FILES};
use std::alloc::Global;
use std::thread::Threads;

/// Feeds a capture to the intake, from its first byte to its last.
fn feed_capture<S: Source>(
    alloc: Global,
    source: &mut S,
    name: &str,
    intake: &mut Intake,
    file: u32,
) -> Result<(), Stop>
    requires { file < vec_len intake.old.files }
    ensures kept { S.holds source.new ≡ S.holds source.old }
    ensures policy { intake.new.policy ≡ intake.old.policy }
    ensures fed { (bytes : List ℕ) (files : List Fed) → S.holds source.old name.now ≡ Some bytes → StandsFor intake.old files
        → OnOk result (GoesOn intake.new files file bytes) }
    ensures steady { S.may_fail source.new ≡ S.may_fail source.old }
    ensures front { (bytes : List ℕ) (files : List Fed) → S.holds source.old name.now ≡ Some bytes → StandsFor intake.old files → fed_at files file ≡ not_fed
        → HasFront intake.old.policy (packets_of files) file bytes intake.new.interfaces }
    ensures refused { (bytes : List ℕ) (files : List Fed) → S.holds source.old name.now ≡ Some bytes → StandsFor intake.old files → fed_at files file ≡ not_fed
        → IfErr result (EndsCapture (S.may_fail source.old name.now) intake.old.policy (packets_of files) file bytes) }
{
    let mut piece = vec![in alloc; 0u8; PIECE]?;
    let mut at = 0u64;
    'pieces: for _ in 0..u64::MAX {
        let read = source.piece(name, at, &mut piece)?;
        if read == 0 {
            return Ok(());
        }
        intake.feed(file, &piece[..read])?;
        let Some(next) = at.checked_add(read as u64) else {
            return Err(Stop::Read);
        };
        at = next;
    }
    Err(Stop::Read)
}

/// Reads one more capture into the intake.
pub fn take_capture<S: Source>(
    alloc: Global,
    source: &mut S,
    name: &str,
    intake: &mut Intake,
) -> Result<(), Stop>
    ensures kept { S.holds source.new ≡ S.holds source.old }
    ensures policy { intake.new.policy ≡ intake.old.policy }
    ensures fed { (bytes : List ℕ) (files : List Fed) → S.holds source.old name.now ≡ Some bytes → StandsFor intake.old files
        → OnOk result ((packets : List Packet) × StandsFor intake.new (files ++ record { text = bytes; packets = packets } ∷ [])) }
    ensures steady { S.may_fail source.new ≡ S.may_fail source.old }
    ensures front { (bytes : List ℕ) (files : List Fed) → S.holds source.old name.now ≡ Some bytes → StandsFor intake.old files → length files < 16
        → HasFront intake.old.policy (packets_of files) (length files) bytes intake.new.interfaces }
    ensures refused { (bytes : List ℕ) (files : List Fed) → S.holds source.old name.now ≡ Some bytes → StandsFor intake.old files
        → IfErr result (EndsTaking (S.may_fail source.old name.now) intake.old.policy files bytes) }
{
    let file = intake.add_file()?;
    feed_capture(alloc, source, name, intake, file)
}

/// Reads the captures into the intake, one after the other.
fn take_in_turn<S: Source>(
    alloc: Global,
    source: &mut S,
    names: &[&str],
    mut intake: Intake,
) -> Result<Intake, Stop>
    ensures kept { S.holds source.new ≡ S.holds source.old }
    ensures policy { IfOk result (λ done. done.policy ≡ intake.policy) }
    ensures fed { (texts : List (List ℕ)) (files : List Fed) → StandsFor intake files → AllZip (λ name text. S.holds source.old name.now ≡ Some text) names.now texts
        → IfOk result (Follow files texts) }
    ensures steady { S.may_fail source.new ≡ S.may_fail source.old }
    ensures refused { (texts : List (List ℕ)) → StandsFor intake [] → AllZip (λ name text. S.holds source.old name.now ≡ Some text) names.now texts
        → IfErr result (EndsCaptures (S.may_fail source.old) names.now intake.policy texts) }
{
    for name in names {
        take_capture(alloc, source, name, &mut intake)?;
    }
    Ok(intake)
}

/// Reads the captures into the intake, with more than one worker in parallel. If there are too many
/// files, the first refused one is reported.
fn take_all<R: Threads + Sync, S: Source>(
    rt: &R,
    alloc: Global,
    source: &mut S,
    names: &[&str],
    intake: Intake,
    workers: Workers,
) -> Result<Intake, Stop>
    ensures kept { S.holds source.new ≡ S.holds source.old }
    ensures policy { IfOk result (λ done. done.policy ≡ intake.policy) }
    ensures fed { (texts : List (List ℕ)) (files : List Fed) → StandsFor intake files → AllZip (λ name text. S.holds source.old name.now ≡ Some text) names.now texts
        → IfOk result (Follow files texts) }
    ensures steady { S.may_fail source.new ≡ S.may_fail source.old }
    ensures refused { (texts : List (List ℕ)) → StandsFor intake [] → AllZip (λ name text. S.holds source.old name.now ≡ Some text) names.now texts
        → IfErr result (EndsCaptures (S.may_fail source.old) names.now intake.policy texts) }
{
    let (files, _) = intake.counts();
    if workers.count > 1 && names.len() > 1 && names.len() <= MAX_FILES - files as usize {
        return take_apart(rt, alloc, source, names, intake, workers);
    }
    take_in_turn(alloc, source, names, intake)
}

/// Feeds each capture from its first byte to its last, and then checks how each of them ends. The
/// result and the refusal are the same for any number of workers: with more than one the captures
/// are read in parallel, each by one thread.
pub fn take_in<R: Threads + Sync, S: Source>(
    rt: &R,
    alloc: Global,
    source: &mut S,
    names: &[&str],
    intake: Intake,
    workers: Workers,
) -> Result<Intake, Stop>
    ensures kept { S.holds source.new ≡ S.holds source.old }
    ensures policy { IfOk result (λ done. done.policy ≡ intake.policy) }
    ensures taken { (texts : List (List ℕ)) → StandsFor intake [] → AllZip (λ name text. S.holds source.old name.now ≡ Some text) names.now texts
        → IfOk result (λ done. AreTakenIn texts (taken done)) }
    ensures steady { S.may_fail source.new ≡ S.may_fail source.old }
    ensures refused { (texts : List (List ℕ)) → StandsFor intake [] → AllZip (λ name text. S.holds source.old name.now ≡ Some text) names.now texts
        → IfErr result (EndsCaptures (S.may_fail source.old) names.now intake.policy texts) }
{
    let intake = take_all(rt, alloc, source, names, intake, workers)?;
    intake.finish()?;
    Ok(intake)
}
