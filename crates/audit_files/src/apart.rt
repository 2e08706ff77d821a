//! Reads captures in parallel, each by one thread.

ghost use Rattle.std.specs.Prelude.{◌≡◌, ◌<◌, ◌≤◌, ◌+◌, ◌++◌, ◌∷◌, [], ℕ, Bool, All, IfErr, IfNone, IfOk, IfSome, List, Some, length, map, replicate, slice_get, slice_index_or, vec_len};
ghost use Rattle.std.specs.List.{AllZip};
ghost use Rattle.std.proofs.Common.{Bor};
ghost use Rattle.audit_pcapng.specs.declared.packet.Packet.{Packet};
ghost use Rattle.audit_sightings.specs.Files.{Fed, StandsFor, not_fed, packets_of};
ghost use Rattle.audit_files.specs.CaptureFaults.{EndsCaptures, EndsTaking, HasFront, IsReadAlone};
ghost use Rattle.audit_files.specs.Captures.{Follow, Took};
ghost use Rattle.audit_files.specs.declared.stop.Stop.TheVariants.{Memory};

use crate::captures::take_capture;
use crate::source::Source;
use crate::stop::Stop;
use crate::workers::Workers;
use audit_sightings::Intake;
use std::alloc::Global;
use std::thread;
use std::thread::Threads;

/// A capture that one thread reads.
#[derive(Drop)]
struct Reading<'n, S> {
    name: &'n str,
    source: S,
    /// Its intake. The files before this one aren't fed, in place of those of the captures before.
    intake: Intake,
    /// Why the capture is refused.
    stop: Option<Stop>,
}

impl<'n, S: Source> Reading<'n, S> {
    ghost use Rattle.std.specs.Prelude.{◌≡◌, ◌<◌, ◌++◌, ◌∷◌, [], ℕ, IfNone, IfSome, List, Some, length};
    ghost use Rattle.audit_pcapng.specs.declared.packet.Packet.{Packet};
    ghost use Rattle.audit_sightings.specs.Files.{Fed, StandsFor, packets_of};
    ghost use Rattle.audit_files.specs.CaptureFaults.{EndsTaking, HasFront};

    /// Reads the capture to its end, or to where it is refused.
    fn read(&mut self, alloc: Global)
        ensures policy { self.new.intake.policy ≡ self.old.intake.policy }
        ensures fed { (bytes : List ℕ) (files : List Fed) → S.holds self.old.source self.old.name.now ≡ Some bytes → StandsFor self.old.intake files
            → IfNone self.new.stop ((packets : List Packet) × StandsFor self.new.intake (files ++ record { text = bytes; packets = packets } ∷ [])) }
        ensures front { (bytes : List ℕ) (files : List Fed) → S.holds self.old.source self.old.name.now ≡ Some bytes → StandsFor self.old.intake files → length files < 16
            → HasFront self.old.intake.policy (packets_of files) (length files) bytes self.new.intake.interfaces }
        ensures refused { (bytes : List ℕ) (files : List Fed) → S.holds self.old.source self.old.name.now ≡ Some bytes → StandsFor self.old.intake files
            → IfSome self.new.stop (EndsTaking (S.may_fail self.old.source self.old.name.now) self.old.intake.policy files bytes) }
    {
        self.stop = take_capture(alloc, &mut self.source, self.name, &mut self.intake).err();
    }
}

/// An intake of this number of files that aren't fed, by the same policy.
fn with_files(intake: &Intake, count: u32) -> Result<Intake, Stop>
    ensures policy { IfOk result (λ made. made.policy ≡ intake.now.policy) }
    ensures stands { IfOk result (λ made. StandsFor made (replicate count not_fed)) }
    ensures refused { count ≤ 16 → IfErr result (λ stop. stop ≡ Memory) }
{
    let mut made = intake.beside()?;
    'files: for _ in 0..count {
        made.add_file()?;
    }
    Ok(made)
}

/// The readers of the captures, after this number of files of the intake.
fn readings_of<'n, S: Source>(
    alloc: Global,
    source: &S,
    names: &[&'n str],
    intake: &Intake,
    files: u32,
) -> Result<Vec<Reading<'n, S>>, Stop>
    requires { files + length names.now ≤ 16 }
    ensures names { IfOk result (λ readings. map (λ reading. reading.name) readings.items ≡ names.now) }
    ensures sources { IfOk result (λ readings. All (λ reading. S.holds reading.source ≡ S.holds source.now) readings.items) }
    ensures policies { IfOk result (λ readings. All (λ reading. reading.intake.policy ≡ intake.now.policy) readings.items) }
    ensures stands { IfOk result (λ readings. (i : ℕ) (d : _) → i < length readings.items
        → StandsFor (slice_index_or readings.items i d).intake (replicate (files + i) not_fed)) }
    ensures steady { IfOk result (λ readings. All (λ reading. S.may_fail reading.source ≡ S.may_fail source.now) readings.items) }
    ensures refused { IfErr result (λ stop. stop ≡ Memory) }
{
    let mut readings = Vec::with_capacity(alloc, names.len())?;
    'names: for name in names {
        let before = files + readings.len() as u32;
        readings.push(Reading {
            name: *name,
            source: source.beside(alloc),
            intake: with_files(intake, before)?,
            stop: None,
        })?;
    }
    Ok(readings)
}

/// Joins the files of the readings after those of the intake, or returns why the first refused one
/// is refused.
fn all_joined<S: Source>(intake: Intake, readings: Vec<Reading<'_, S>>) -> Result<Intake, Stop>
    requires { All (λ reading. reading.intake.policy ≡ intake.policy) readings.items }
    ensures policy { IfOk result (λ done. done.policy ≡ intake.policy) }
    ensures fed { (texts : List (List ℕ)) (files : List Fed) → StandsFor intake files → length texts ≡ length readings.entry.items
        → ((i : ℕ) (d : _) → i < length readings.entry.items → IfNone (slice_index_or readings.entry.items i d).stop
        (Took (length files + i) (slice_index_or texts i []) (slice_index_or readings.entry.items i d).intake))
        → IfOk result (Follow files texts) }
    ensures refused { (may_fail : List ℕ → Bool) (names : List (Bor (List ℕ))) (texts : List (List ℕ)) → StandsFor intake [] → length texts ≡ length readings.entry.items
        → ((i : ℕ) (d : _) → i < length readings.entry.items → (name : _) × (slice_get names i ≡ Some name) × IsReadAlone (may_fail name.now) intake.policy i (slice_index_or texts i []) (slice_index_or readings.entry.items i d).intake (slice_index_or readings.entry.items i d).stop)
        → IfErr result (EndsCaptures may_fail names intake.policy texts) }
{
    let mut whole = intake;
    'readings: for reading in readings {
        whole = whole.joined(reading.intake)?;
        if let Some(stop) = reading.stop {
            return Err(stop);
        }
    }
    Ok(whole)
}

/// Reads each capture, by at most `workers` threads.
fn read_all<R: Threads + Sync, S: Source>(
    rt: &R,
    alloc: Global,
    readings: &mut [Reading<'_, S>],
    workers: Workers,
)
    ensures policies { (i : ℕ) (d : _) → i < length readings.old → (slice_index_or readings.new i d).intake.policy ≡ (slice_index_or readings.old i d).intake.policy }
    ensures fed { (i : ℕ) (d : _) (bytes : List ℕ) (files : List Fed) → i < length readings.old
        → S.holds (slice_index_or readings.old i d).source (slice_index_or readings.old i d).name.now ≡ Some bytes → StandsFor (slice_index_or readings.old i d).intake files
        → IfNone (slice_index_or readings.new i d).stop ((packets : List Packet) × StandsFor (slice_index_or readings.new i d).intake (files ++ record { text = bytes; packets = packets } ∷ [])) }
    ensures front { (i : ℕ) (d : _) (bytes : List ℕ) (files : List Fed) → i < length readings.old
        → S.holds (slice_index_or readings.old i d).source (slice_index_or readings.old i d).name.now ≡ Some bytes → StandsFor (slice_index_or readings.old i d).intake files → length files < 16
        → HasFront (slice_index_or readings.old i d).intake.policy (packets_of files) (length files) bytes (slice_index_or readings.new i d).intake.interfaces }
    ensures refused { (i : ℕ) (d : _) (bytes : List ℕ) (files : List Fed) → i < length readings.old
        → S.holds (slice_index_or readings.old i d).source (slice_index_or readings.old i d).name.now ≡ Some bytes → StandsFor (slice_index_or readings.old i d).intake files
        → IfSome (slice_index_or readings.new i d).stop (EndsTaking (S.may_fail (slice_index_or readings.old i d).source (slice_index_or readings.old i d).name.now) (slice_index_or readings.old i d).intake.policy files bytes) }
{
    thread::for_each_mut(
        rt,
        readings,
        workers.count as usize,
        &|_, reading| reading.read(alloc),
    );
}

/// Reads the captures in parallel into the intake, each by one thread, by at most as many threads
/// as workers.
pub fn take_apart<R: Threads + Sync, S: Source>(
    rt: &R,
    alloc: Global,
    source: &S,
    names: &[&str],
    intake: Intake,
    workers: Workers,
) -> Result<Intake, Stop>
    requires { vec_len intake.files + length names.now ≤ 16 }
    ensures policy { IfOk result (λ done. done.policy ≡ intake.policy) }
    ensures fed { (texts : List (List ℕ)) (files : List Fed) → StandsFor intake files → AllZip (λ name text. S.holds source.now name.now ≡ Some text) names.now texts
        → IfOk result (Follow files texts) }
    ensures refused { (texts : List (List ℕ)) → StandsFor intake [] → AllZip (λ name text. S.holds source.now name.now ≡ Some text) names.now texts
        → IfErr result (EndsCaptures (S.may_fail source.now) names.now intake.policy texts) }
{
    let (files, _) = intake.counts();
    let mut readings = readings_of(alloc, source, names, &intake, files)?;
    read_all(rt, alloc, readings.as_mut_slice(), workers);
    all_joined(intake, readings)
}
