//! The lanes of a certificate in pieces, which workers share.

ghost use Rattle.std.specs.Prelude.{◌≡◌, ◌<◌, ◌++◌, All, length, IfOk, OnOk, Some, None};
ghost use Rattle.audit_sightings.specs.Intake.{Taken};
ghost use Rattle.audit_placement.specs.Pieces.{last_of, BreakNoRule, LaneBreaksNoRule, PieceBreaksNoRule};

use crate::entry::LaneEnd;
use audit_model::{CertLane, Event, Key, Pair};
use std::alloc::{AllocError, Global};

/// The most events of a piece.
const PIECE: usize = 4096;

/// Some consecutive events of a lane, and the end of the lane before them.
#[derive(Clone, Copy)]
pub struct Piece<'a> {
    pub end: LaneEnd,
    pub events: &'a [Event],
}

/// The first events, at most `PIECE`, and those after them.
fn parted(events: &[Event]) -> (&[Event], &[Event])
    ensures whole { events.now ≡ result.0.now ++ result.1.now }
    ensures shorter { 0 < length events.now → length result.1.now < length events.now }
{
    if events.len() <= PIECE {
        return events.split_at(events.len());
    }
    events.split_at(PIECE)
}

/// The key of the last of the events, or `last` if there is none.
fn last_key(last: Option<Key>, events: &[Event]) -> Option<Key>
    ensures { result ≡ last_of last events.now }
{
    match events.last() {
        Some(event) => Some(event.key()),
        None => last,
    }
}

/// Adds the pieces of a lane of the pair.
fn add_lane<'a>(
    pieces: &mut Vec<Piece<'a>>,
    pair: Pair,
    events: &'a [Event],
) -> Result<(), AllocError>
    ensures { (taken : Taken) → OnOk result (All (PieceBreaksNoRule taken) pieces.new.items
        → All (PieceBreaksNoRule taken) pieces.old.items × BreakNoRule taken (Some pair) None events.now) }
{
    let mut rest = events;
    let mut last: Option<Key> = None;
    'parts: while rest.len() > 0 {
        let (part, behind) = parted(rest);
        pieces.push(Piece {
            end: LaneEnd {
                pair: Some(pair),
                last,
            },
            events: part,
        })?;
        last = last_key(last, part);
        rest = behind;
    }
    Ok(())
}

/// The pieces of all lanes. If none of them breaks a rule, no lane does. It takes up to 128 bytes a
/// piece. Each lane has one piece for each 4,096 events, and one for the rest.
pub fn pieces_of(alloc: Global, lanes: &[CertLane]) -> Result<Vec<Piece<'_>>, AllocError>
    ensures { (taken : Taken) → IfOk result (λ pieces. All (PieceBreaksNoRule taken) pieces.items → All (LaneBreaksNoRule taken) lanes.now) }
{
    let mut pieces = Vec::new(alloc);
    'lanes: for lane in lanes {
        let pair = Pair {
            client: lane.client,
            listen: lane.listen,
        };
        add_lane(&mut pieces, pair, lane.events.as_slice())?;
    }
    Ok(pieces)
}
