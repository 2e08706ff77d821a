//! The lanes of a certificate in pieces, whose lines are formatted piece by piece.

ghost use Rattle.std.specs.Prelude.{◌≡◌, ◌<◌, ◌++◌, length, IfOk, OnOk};
ghost use Rattle.std.specs.List.{flat_map};
ghost use Rattle.audit_cert.specs.Spelling.{lane_lines, event_line};
ghost use Rattle.audit_cert.specs.Pieces.{piece_text};

use audit_model::{CertLane, Event};
use std::alloc::{AllocError, Global};

/// The most events of a piece.
const PIECE: usize = 1024;

/// Some events of a lane, after its first line if they are its first ones.
#[derive(Clone, Copy)]
pub struct Piece<'a> {
    pub opens: Option<&'a CertLane>,
    pub events: &'a [Event],
}

/// The first events, at most `PIECE`, and those after them.
fn parted(events: &[Event]) -> (&[Event], &[Event])
    ensures whole { events.now ≡ result.0.now ++ result.1.now }
    ensures shorter { 0 < length events.now → length result.1.now < length events.now }
{
    if events.len() <= PIECE {
        return events.split_at(events.len());
    }
    events.split_at(PIECE)
}

/// Adds pieces of events that follow others of their lane.
fn add_events<'a>(pieces: &mut Vec<Piece<'a>>, events: &'a [Event]) -> Result<(), AllocError>
    ensures { OnOk result (flat_map piece_text pieces.new.items ≡ flat_map piece_text pieces.old.items ++ flat_map event_line events.now) }
{
    let mut rest = events;
    'parts: while rest.len() > 0 {
        let (events, behind) = parted(rest);
        pieces.push(Piece {
            opens: None,
            events,
        })?;
        rest = behind;
    }
    Ok(())
}

/// Adds the pieces of a lane.
fn add_lane<'a>(pieces: &mut Vec<Piece<'a>>, lane: &'a CertLane) -> Result<(), AllocError>
    ensures { OnOk result (flat_map piece_text pieces.new.items ≡ flat_map piece_text pieces.old.items ++ lane_lines lane.now) }
{
    let (events, behind) = parted(lane.events.as_slice());
    pieces.push(Piece {
        opens: Some(lane),
        events,
    })?;
    add_events(pieces, behind)
}

/// The pieces of all lanes, in order.
pub fn pieces_of(alloc: Global, lanes: &[CertLane]) -> Result<Vec<Piece<'_>>, AllocError>
    ensures { IfOk result (λ pieces. flat_map piece_text pieces.items ≡ flat_map lane_lines lanes.now) }
{
    let mut pieces = Vec::new(alloc);
    'lanes: for lane in lanes {
        add_lane(&mut pieces, lane)?;
    }
    Ok(pieces)
}
