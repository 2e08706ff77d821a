//! The command `live`: judges captures while they grow.

ghost use Rattle.std.specs.Prelude.{◌≡◌, ◌≢◌, ◌<◌, ◌≤◌, ◌+◌, ◌⊎◌, false, ℕ, List, [], ◌∷◌, Option, None, Some, IfErr, IfNone, IfOk, IfSome, OnOk, length, vec_len, replicate};
ghost use Rattle.audit_keys.specs.KeyFor.{key_for};
ghost use Rattle.audit_model.specs.declared.certificate.Certificate.{Certificate as Found};
ghost use Rattle.audit_sightings.specs.Files.{StandsFor, not_fed};
ghost use Rattle.audit_sightings.specs.Intake.{taken};
ghost use Rattle.audit_verdict.specs.Verdicts.{IsConforming};
ghost use Rattle.audit_whole.specs.Headline.{Headline};
ghost use Rattle.audit_live.specs.Refusals.{standing_of};
ghost use Rattle.audit_model.specs.Sink.{followed_by};
ghost use Rattle.audit_prefix.specs.Live.{IsNotLater, IsOutOfTurn};
ghost use Rattle.audit_program.specs.Reads.{AreReadOnce, AreUnread, HasEnded, WereRead};
ghost use Rattle.audit_program.specs.declared.command_line.Turns.{Turns as AnyTurns};
ghost use Rattle.audit_program.specs.Following.{Follows, Goes, LeftBy};
ghost use Rattle.audit_program.specs.Horizon.{IsTurned};
ghost use Rattle.audit_program.specs.Watched.{EndsByLive, EndsLive, EndsTurns, IsReportedOf, IsWatched};
ghost use Rattle.audit_files.specs.Ends.{EndsWriting};
ghost use Rattle.audit_files.specs.Stops.{EndsByIntake};
ghost use Rattle.audit_files.specs.declared.stop.Stop.TheVariants.{Memory, Read};
ghost use Rattle.audit_sightings.specs.declared.fault.IntakeFaultKind.TheVariants.{Limit};
ghost use Rattle.audit_program.specs.declared.live.Turn.TheVariants.{Quiet, Refused};

use crate::command_line::Turns;
use crate::growing::Growing;
use crate::horizon::next_horizon;
use audit_files::{Source, Stop, read_policy, read_users};
use audit_finding::{CertificateFinder, ExtensionFinder};
use audit_live::{Live, LiveEnd, LiveFault};
use audit_model::{Extension, Sink, Verdict};
use audit_report::report;
use std::alloc::{AllocError, Global};

/// How many bytes of each capture are read in a turn.
const PIECE: usize = 65_536;

/// The last horizon, after all that is captured.
const END: u64 = u64::MAX;

/// An audit with the finder of its certificate.
#[derive(Drop)]
struct Watch<F: Drop> {
    live: Live,
    finder: F,
    /// Whether the finder's extension didn't fit, so that none of its extensions is used any more.
    /// The captures are still read, and judged by what was found.
    is_stuck: bool,
}

/// The result of a turn.
#[derive(Clone, Copy, Debug, PartialEq, Eq)]
pub enum Turn {
    /// Some capture had a byte.
    Fed,
    /// No capture had a byte.
    Quiet,
    /// Bytes or an advance were refused.
    Refused,
}

/// The result of a turn in which this number of bytes was read.
fn turn_of(read: usize) -> Turn
    ensures taken { result ≢ Refused }
    ensures quiet { result ≡ Quiet → read ≡ 0 }
{
    if read > 0 { Turn::Fed } else { Turn::Quiet }
}

/// Pauses if there were turns without a byte.
fn pause_after<S: Growing>(source: &mut S, idle: u32)
    ensures bytes_read { S.bytes_read source.new ≡ S.bytes_read source.old }
    ensures reads { S.reads source.new ≡ S.reads source.old }
{
    if idle > 0 {
        source.pause();
    }
}

/// The reason for the end of a run without a verdict.
fn stop_of(end: LiveEnd) -> Stop
    ensures { EndsByLive end result }
{
    match end {
        LiveEnd::Input(fault) => Stop::from(fault),
        LiveEnd::Memory => Stop::Memory,
    }
}

/// Adds this number of captures to an audit of none.
fn add_captures(live: &mut Live, count: usize) -> Result<(), Stop>
    ensures policy { OnOk result (live.new.intake.policy ≡ live.old.intake.policy) }
    ensures stands { StandsFor live.old.intake [] → OnOk result (StandsFor live.new.intake (replicate count not_fed)) }
    ensures rest { OnOk result (live.new ≡ record live.old { intake = live.new.intake }) }
    ensures refused { StandsFor live.old.intake [] → live.old.ended ≡ None → IfErr result (λ stop. (stop ≡ Memory) ⊎ ((16 < count) × EndsByIntake (record { kind = Limit; file = 16 }) stop)) }
{
    for number in 0..count {
        match live.add_file() {
            Ok(_) => {}
            Err(LiveFault::Input(fault)) => return Err(Stop::from(fault)),
            Err(_) => return Err(Stop::Memory),
        }
    }
    Ok(())
}

impl<F: ExtensionFinder + Drop> Watch<F> {
    /// Opens an audit of the captures, of which nothing was read.
    fn open<S: Source + Growing>(
        alloc: Global,
        finder: F,
        source: &mut S,
        policy: &str,
        users: Option<&str>,
        captures: &[&str],
    ) -> Result<Watch<F>, Stop>
        ensures goes { (policy_text users_text : List ℕ) →
            S.holds source.old policy.now ≡ Some policy_text →
            IfSome users.entry (λ name. S.holds source.old name.now ≡ Some users_text) → IfNone users.entry (users_text ≡ []) →
            IfOk result (λ watch. Goes policy_text users_text (length captures.now) (S.bytes_read source.new) watch.live) }
        ensures files { IfOk result (λ watch. vec_len watch.live.intake.files ≡ length captures.now) }
        ensures step { F.placed_to finder ≡ None → IfOk result (λ watch. watch.is_stuck ≡ false → F.placed_to watch.finder ≡ watch.live.last) }
        ensures unread { OnOk result (AreUnread (length captures.now) (S.reads source.new)) }
        ensures refused { (policy_text users_text : List ℕ) (bytes_read : ℕ → Option (List ℕ)) →
            S.holds source.old policy.now ≡ Some policy_text →
            IfSome users.entry (λ name. S.holds source.old name.now ≡ Some users_text) → IfNone users.entry (users_text ≡ []) →
            IfErr result (EndsLive (S.may_fail source.old) policy.now policy_text users.entry users_text (length captures.now) bytes_read) }
    {
        let policy = read_policy(alloc, source, policy)?;
        let users = read_users(alloc, source, users)?;
        let mut live = Live::open(alloc, policy, users);
        add_captures(&mut live, captures.len())?;
        source.start();
        Ok(Watch {
            live,
            finder,
            is_stuck: false,
        })
    }

    /// Feeds the next bytes of a capture.
    fn feed<S: Growing>(
        &mut self,
        file: u32,
        name: &str,
        source: &mut S,
        piece: &mut [u8],
    ) -> Result<Turn, Stop>
        requires { file < vec_len self.old.live.intake.files }
        ensures left { (policy users : List ℕ) (count : ℕ) → Goes policy users count (S.bytes_read source.old) self.old.live
            → IfOk result (λ turn. LeftBy turn policy users count (S.bytes_read source.new) self.new.live) }
        ensures files { vec_len self.new.live.intake.files ≡ vec_len self.old.live.intake.files }
        ensures last { (self.new.live.last ≡ self.old.live.last) × (self.new.finder ≡ self.old.finder) }
        ensures stuck { self.new.is_stuck ≡ self.old.is_stuck }
        ensures over { self.old.live.ended ≡ None → IfOk result (λ turn. turn ≡ Refused → self.new.live.ended ≢ None) }
        ensures read { IfOk result (λ turn. turn ≢ Refused → (size : ℕ) × (S.reads source.new file ≡ followed_by (S.reads source.old file) (size ∷ [])) × (turn ≡ Quiet → size ≡ 0)) }
        ensures unread { (other : ℕ) → other ≢ file → S.reads source.new other ≡ S.reads source.old other }
        ensures stopped { IfErr result (λ stop. (stop ≡ Memory) ⊎ (stop ≡ Read)) }
    {
        let read = source.more(file, name, piece)?;
        match self.live.feed(file, &piece[..read]) {
            Ok(()) => Ok(turn_of(read)),
            Err(_) => Ok(Turn::Refused),
        }
    }

    /// Feeds the next bytes of each capture.
    fn feed_each<S: Growing>(
        &mut self,
        names: &[&str],
        source: &mut S,
        piece: &mut [u8],
    ) -> Result<Turn, Stop>
        requires { vec_len self.old.live.intake.files ≡ length names.now }
        ensures left { (policy users : List ℕ) (count : ℕ) → Goes policy users count (S.bytes_read source.old) self.old.live
            → IfOk result (λ turn. LeftBy turn policy users count (S.bytes_read source.new) self.new.live) }
        ensures files { vec_len self.new.live.intake.files ≡ vec_len self.old.live.intake.files }
        ensures last { (self.new.live.last ≡ self.old.live.last) × (self.new.finder ≡ self.old.finder) }
        ensures stuck { self.new.is_stuck ≡ self.old.is_stuck }
        ensures over { (policy users : List ℕ) (count : ℕ) → Goes policy users count (S.bytes_read source.old) self.old.live
            → IfOk result (λ turn. turn ≡ Refused → self.new.live.ended ≢ None) }
        ensures read { IfOk result (λ turn. turn ≢ Refused → AreReadOnce turn (length names.now) (S.reads source.old) (S.reads source.new)) }
        ensures stopped { IfErr result (λ stop. (stop ≡ Memory) ⊎ (stop ≡ Read)) }
    {
        let mut turn = Turn::Quiet;
        let (files, _) = self.live.intake().counts();
        for file in 0..files {
            match self.feed(file, names[file as usize], source, piece)? {
                Turn::Fed => turn = Turn::Fed,
                Turn::Quiet => {}
                Turn::Refused => return Ok(Turn::Refused),
            }
        }
        Ok(turn)
    }

    /// The finder's extension up to a horizon. It is never out of turn, so no advance by it is
    /// refused for that (G2).
    fn extension(&mut self, horizon: u64) -> Result<Extension, AllocError>
        requires { F.placed_to self.old.finder ≡ self.old.live.last }
        ensures in_turn { IfOk result (λ extension. ¬ IsOutOfTurn (standing_of self.old.live) horizon extension) }
        ensures extended { OnOk result (F.placed_to self.new.finder ≡ Some horizon) }
        ensures live { (self.new.live ≡ self.old.live) × (self.new.is_stuck ≡ self.old.is_stuck) }
    {
        self.finder
            .extend(self.live.intake(), self.live.credentials(), horizon)
    }

    /// Finds the certificate up to a horizon, and advances the audit by it.
    fn advance(&mut self, horizon: u64) -> Result<Turn, AllocError>
        requires { self.old.is_stuck ≡ false → F.placed_to self.old.finder ≡ self.old.live.last }
        ensures left { (policy users : List ℕ) (count : ℕ) (bytes_read : ℕ → Option (List ℕ)) → Goes policy users count bytes_read self.old.live
            → IfOk result (λ turn. LeftBy turn policy users count bytes_read self.new.live) }
        ensures files { vec_len self.new.live.intake.files ≡ vec_len self.old.live.intake.files }
        ensures intake { self.new.live.intake ≡ self.old.live.intake }
        ensures fed { IfOk result (λ turn. turn ≢ Quiet) }
        ensures last { IfOk result (λ turn. turn ≢ Refused → self.new.is_stuck ≡ false → self.new.live.last ≡ Some horizon) }
        ensures extended { OnOk result (self.new.is_stuck ≡ false → F.placed_to self.new.finder ≡ Some horizon) }
        ensures over { self.old.live.ended ≡ None → IfOk result (λ turn. turn ≡ Refused
            → (self.new.live.ended ≢ None) ⊎ IsNotLater (standing_of self.old.live) horizon) }
    {
        if self.is_stuck {
            return Ok(Turn::Fed);
        }
        let extension = self.extension(horizon)?;
        match self.live.advance(horizon, extension) {
            Ok(_) => Ok(Turn::Fed),
            Err(LiveFault::Lane) => {
                self.is_stuck = true;
                Ok(Turn::Fed)
            }
            Err(_) => Ok(Turn::Refused),
        }
    }

    /// Reads each capture on, and finds the certificate up to the next horizon.
    fn turn<S: Growing>(
        &mut self,
        names: &[&str],
        source: &mut S,
        piece: &mut [u8],
    ) -> Result<Turn, Stop>
        requires files { vec_len self.old.live.intake.files ≡ length names.now }
        requires step { self.old.is_stuck ≡ false → F.placed_to self.old.finder ≡ self.old.live.last }
        ensures left { (policy users : List ℕ) (count : ℕ) → Goes policy users count (S.bytes_read source.old) self.old.live
            → IfOk result (λ turn. LeftBy turn policy users count (S.bytes_read source.new) self.new.live) }
        ensures files { vec_len self.new.live.intake.files ≡ vec_len self.old.live.intake.files }
        ensures horizon { IfOk result (λ turn. self.new.is_stuck ≡ false → IsTurned turn (taken self.new.live.intake) self.old.live.last self.new.live.last) }
        ensures step { IfOk result (λ turn. turn ≢ Refused → self.new.is_stuck ≡ false → F.placed_to self.new.finder ≡ self.new.live.last) }
        ensures over { (policy users : List ℕ) (count : ℕ) → Goes policy users count (S.bytes_read source.old) self.old.live
            → IfOk result (λ turn. turn ≡ Refused → self.new.live.ended ≢ None) }
        ensures read { IfOk result (λ turn. turn ≢ Refused → AreReadOnce turn (length names.now) (S.reads source.old) (S.reads source.new)) }
        ensures stopped { IfErr result (λ stop. (stop ≡ Memory) ⊎ (stop ≡ Read)) }
    {
        match self.feed_each(names, source, piece)? {
            Turn::Fed => {}
            Turn::Quiet => return Ok(Turn::Quiet),
            Turn::Refused => return Ok(Turn::Refused),
        }
        match next_horizon(self.live.intake(), self.live.last()) {
            Some(horizon) => Ok(self.advance(horizon)?),
            None => Ok(Turn::Fed),
        }
    }

    /// Runs a turn, and returns how many turns in a row had no byte; None if something was refused.
    fn turn_on<S: Growing>(
        &mut self,
        names: &[&str],
        source: &mut S,
        piece: &mut [u8],
        idle: u32,
    ) -> Result<Option<u32>, Stop>
        requires files { vec_len self.old.live.intake.files ≡ length names.now }
        requires step { self.old.is_stuck ≡ false → F.placed_to self.old.finder ≡ self.old.live.last }
        requires room { idle < 4294967295 }
        ensures goes { (policy users : List ℕ) (count : ℕ) → Goes policy users count (S.bytes_read source.old) self.old.live
            → IfOk result (λ idle. IfSome idle (λ _. Goes policy users count (S.bytes_read source.new) self.new.live)) }
        ensures follows { (policy users : List ℕ) (count : ℕ) → Goes policy users count (S.bytes_read source.old) self.old.live
            → OnOk result (Follows policy users count (S.bytes_read source.new) self.new.live) }
        ensures files { vec_len self.new.live.intake.files ≡ vec_len self.old.live.intake.files }
        ensures step { IfOk result (λ idle. IfSome idle (λ _. self.new.is_stuck ≡ false → F.placed_to self.new.finder ≡ self.new.live.last)) }
        ensures over { (policy users : List ℕ) (count : ℕ) → Goes policy users count (S.bytes_read source.old) self.old.live
            → IfOk result (λ idle. IfNone idle (self.new.live.ended ≢ None)) }
        ensures few { IfOk result (λ now. IfSome now (λ idle_now. idle_now ≤ idle + 1)) }
        ensures read { (count : ℕ) → WereRead (length names.now) count idle (S.reads source.old)
            → IfOk result (λ idle. IfSome idle (λ now. WereRead (length names.now) (count + 1) now (S.reads source.new))) }
        ensures stopped { IfErr result (λ stop. (stop ≡ Memory) ⊎ (stop ≡ Read)) }
    {
        match self.turn(names, source, piece)? {
            Turn::Fed => Ok(Some(0)),
            Turn::Quiet => Ok(Some(idle + 1)),
            Turn::Refused => Ok(None),
        }
    }

    /// Runs turns until the captures have ended, and then finds the rest of the certificate, unless
    /// something is refused.
    fn go<S: Growing>(
        &mut self,
        alloc: Global,
        names: &[&str],
        turns: Turns,
        source: &mut S,
    ) -> Result<(), Stop>
        requires files { vec_len self.old.live.intake.files ≡ length names.now }
        requires step { self.old.is_stuck ≡ false → F.placed_to self.old.finder ≡ self.old.live.last }
        ensures follows { (policy users : List ℕ) (count : ℕ) → Goes policy users count (S.bytes_read source.old) self.old.live
            → OnOk result (Follows policy users count (S.bytes_read source.new) self.new.live) }
        ensures ended { (policy users : List ℕ) (count : ℕ) → Goes policy users count (S.bytes_read source.old) self.old.live → AreUnread (length names.now) (S.reads source.old)
            → OnOk result (HasEnded turns (length names.now) (S.reads source.new) self.new.live) }
        ensures stopped { IfErr result (λ stop. (stop ≡ Memory) ⊎ (stop ≡ Read)) }
    {
        let mut piece = vec![in alloc; 0u8; PIECE]?;
        let mut idle = 0u32;
        'turns: for turn in 0..turns.most {
            match self.turn_on(names, source, &mut piece, idle)? {
                Some(now) => idle = now,
                None => return Ok(()),
            }
            if idle >= turns.idle {
                break;
            }
            pause_after(source, idle);
        }
        self.advance(END)?;
        Ok(())
    }

    /// The verdict, if the captures end here.
    fn verdict(&self) -> Result<Verdict, Stop>
        ensures reported { (policy users : List ℕ) (count : ℕ) (bytes_read reads : ℕ → Option (List ℕ)) (turns : AnyTurns)
            → Follows policy users count bytes_read self.now.live → HasEnded turns count reads self.now.live
            → IfOk result (IsReportedOf turns bytes_read reads self.now.live.intake (key_for self.now.live.credentials) self.now.live.front.placing.certificate) }
        ensures headline { IfOk result (λ verdict. IsConforming verdict
            → Headline (taken self.now.live.intake) (key_for self.now.live.credentials) self.now.live.front.placing.certificate) }
        ensures refused { (policy users : List ℕ) (count : ℕ) (bytes_read : ℕ → Option (List ℕ)) → Follows policy users count bytes_read self.now.live
            → IfErr result (EndsTurns count bytes_read self.now.live.intake.policy) }
    {
        match self.live.finish() {
            Ok(verdict) => Ok(verdict),
            Err(end) => Err(stop_of(end)),
        }
    }

    /// Writes the report, and returns the exit status.
    fn write_report<O: Sink>(&self, alloc: Global, out: &mut O) -> Result<u8, Stop>
        ensures reported { (policy users : List ℕ) (count : ℕ) (bytes_read reads : ℕ → Option (List ℕ)) (turns : AnyTurns)
            → Follows policy users count bytes_read self.now.live → HasEnded turns count reads self.now.live
            → IfOk result (IsWatched policy users count turns bytes_read reads self.now.live.front.placing.certificate (O.taken out.old) (O.taken out.new)) }
        ensures refused { (policy users : List ℕ) (count : ℕ) (bytes_read : ℕ → Option (List ℕ)) → Follows policy users count bytes_read self.now.live
            → IfErr result (λ stop. EndsTurns count bytes_read self.now.live.intake.policy stop ⊎ EndsWriting (O.failures out.old) (O.failures out.new) stop) }
    {
        let verdict = self.verdict()?;
        report(alloc, &verdict, self.live.intake(), out)?;
        match verdict {
            Verdict::Conforming { .. } => Ok(0),
            Verdict::NotShown(_) => Ok(1),
        }
    }
}

/// Judges captures while they grow, and writes the report. Files are read in this order: policy,
/// users, captures by turns. It returns 0 if the captures conform, and 1 if that isn't shown.
pub fn run_live<F: CertificateFinder, S: Source + Growing, O: Sink>(
    alloc: Global,
    finder: &F,
    source: &mut S,
    policy: &str,
    users: Option<&str>,
    captures: &[&str],
    turns: Turns,
    out: &mut O,
) -> Result<u8, Stop>
    ensures watched { (policy_text users_text : List ℕ) →
        S.holds source.old policy.now ≡ Some policy_text →
        IfSome users.entry (λ name. S.holds source.old name.now ≡ Some users_text) → IfNone users.entry (users_text ≡ []) →
        IfOk result (λ status. (found : Found)
        × IsWatched policy_text users_text (length captures.now) turns (S.bytes_read source.new) (S.reads source.new) found (O.taken out.old) (O.taken out.new) status) }
    ensures ended { (policy_text users_text : List ℕ) →
        S.holds source.old policy.now ≡ Some policy_text →
        IfSome users.entry (λ name. S.holds source.old name.now ≡ Some users_text) → IfNone users.entry (users_text ≡ []) →
        IfErr result (λ stop. EndsLive (S.may_fail source.old) policy.now policy_text users.entry users_text (length captures.now) (S.bytes_read source.new) stop
        ⊎ EndsWriting (O.failures out.old) (O.failures out.new) stop) }
{
    let mut watch = Watch::open(
        alloc,
        finder.extending(alloc),
        source,
        policy,
        users,
        captures,
    )?;
    watch.go(alloc, captures, turns, source)?;
    watch.write_report(alloc, out)
}
