//! Checks in parallel that the events of a certificate's lanes break no rule by themselves.

ghost use Rattle.std.specs.Prelude.{◌≡◌, ◌<◌, ℕ, All, IfOk, IsSomeAnd, IsTrue, length, slice_get, slice_index_or};
ghost use Rattle.std.specs.Bool.{OnTrue};
ghost use Rattle.audit_sightings.specs.Intake.{taken};
ghost use Rattle.audit_placement.specs.Pieces.{BreakNoRule, LaneBreaksNoRule, PieceBreaksNoRule};

use crate::ahead::Placed;
use crate::entry::LaneEnd;
use crate::pieces::{Piece, pieces_of};
use crate::single::breaks_no_rule;
use audit_model::{CertLane, Event, Key};
use audit_sightings::{EventsAhead, Intake};
use std::alloc::{AllocError, Global};
use std::thread;
use std::thread::Threads;

/// Whether consecutive events after the end of their lane break no rule by themselves.
fn break_no_rule(intake: &Intake, start: LaneEnd, events: &[Event]) -> bool
    ensures { OnTrue result (BreakNoRule (taken intake.now) start.pair start.last events.now) }
{
    let mut last: Option<Key> = start.last;
    let mut ahead = EventsAhead::new(Placed { intake }, events);
    'events: for event in events {
        ahead.advance();
        let end = LaneEnd {
            pair: start.pair,
            last,
        };
        if !breaks_no_rule(intake, end, *event) {
            return false;
        }
        last = Some(event.key());
    }
    true
}

/// Sets the flag if the piece of that number breaks no rule, and clears it if it breaks one.
fn check_piece(intake: &Intake, pieces: &[Piece<'_>], number: usize, flag: &mut bool)
    requires { number < length pieces.now }
    ensures { OnTrue flag.new (IsSomeAnd (slice_get pieces.now number) (PieceBreaksNoRule (taken intake.now))) }
{
    let piece = pieces[number];
    *flag = break_no_rule(intake, piece.end, piece.events);
}

/// Sets or clears the flag of each piece so, by at most `workers` threads.
fn check_pieces<R: Threads + Sync>(
    rt: &R,
    intake: &Intake,
    pieces: &[Piece<'_>],
    workers: u32,
    flags: &mut [bool],
)
    requires workers { 0 < workers }
    requires there { length flags.old ≡ length pieces.now }
    ensures { (i : ℕ) (d : _) → i < length flags.old → OnTrue (slice_index_or flags.new i d) (IsSomeAnd (slice_get pieces.now i) (PieceBreaksNoRule (taken intake.now))) }
{
    thread::for_each_mut(
        rt,
        flags,
        workers as usize,
        &|number, flag| check_piece(intake, pieces, number, flag),
    );
}

/// Whether all flags are set.
fn all_set(flags: &[bool]) -> bool
    ensures { OnTrue result (All IsTrue flags.now) }
{
    'flags: for flag in flags {
        if !*flag {
            return false;
        }
    }
    true
}

/// Whether no piece breaks a rule, checked by at most `workers` threads. There is a flag for each
/// piece.
fn pieces_break_no_rule<R: Threads + Sync>(
    rt: &R,
    intake: &Intake,
    pieces: &[Piece<'_>],
    workers: u32,
    flags: &mut [bool],
) -> bool
    requires workers { 0 < workers }
    requires there { length flags.old ≡ length pieces.now }
    ensures { OnTrue result (All (PieceBreaksNoRule (taken intake.now)) pieces.now) }
{
    check_pieces(rt, intake, pieces, workers, flags);
    all_set(flags)
}

/// Whether the events of the lanes break no rule by themselves, checked by at most `workers`
/// threads. It reads the events once, and takes up to 129 bytes for each lane and for each 4,096
/// events of a lane.
pub fn lanes_break_no_rule<R: Threads + Sync>(
    rt: &R,
    alloc: Global,
    intake: &Intake,
    lanes: &[CertLane],
    workers: u32,
) -> Result<bool, AllocError>
    requires { 0 < workers }
    ensures { IfOk result (λ held. OnTrue held (All (LaneBreaksNoRule (taken intake.now)) lanes.now)) }
{
    let pieces = pieces_of(alloc, lanes)?;
    let mut flags = vec![in alloc; false; pieces.len()]?;
    Ok(pieces_break_no_rule(rt, intake, pieces.as_slice(), workers, flags.as_mut_slice()))
}
