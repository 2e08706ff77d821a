//! Formats the text of pieces, by many threads.

ghost use Rattle.std.specs.Prelude.{◌≡◌, ◌++◌, IfOk, OnOk};
ghost use Rattle.std.specs.List.{flat_map};
ghost use Rattle.std.specs.Thread.{IsSync};
ghost use Rattle.audit_cert.specs.Spelling.{event_line};
ghost use Rattle.audit_cert.specs.Pieces.{opening, piece_text};

use crate::pieces::Piece;
use crate::spelling::{add_event, text_of_lane};
use audit_model::Event;
use std::alloc::{AllocError, Global};
use std::thread::{Threads, join};

/// The number of pieces up to which one thread is used.
const FEW: usize = 4;

/// Adds the first line of a lane if a piece opens one.
fn add_opening(alloc: Global, text: &mut Vec<u8>, piece: &Piece<'_>) -> Result<(), AllocError>
    ensures { OnOk result (text.new.items ≡ text.old.items ++ opening piece.now.opens) }
{
    match piece.opens {
        Some(lane) => {
            let line = text_of_lane(alloc, lane)?;
            text.extend_from_slice(line.as_bytes())
        }
        None => Ok(()),
    }
}

/// Adds events' lines.
fn add_events(text: &mut Vec<u8>, events: &[Event]) -> Result<(), AllocError>
    ensures { OnOk result (text.new.items ≡ text.old.items ++ flat_map event_line events.now) }
{
    'events: for event in events {
        add_event(text, event)?;
    }
    Ok(())
}

/// Adds a piece's lines.
fn add_piece(alloc: Global, text: &mut Vec<u8>, piece: &Piece<'_>) -> Result<(), AllocError>
    ensures { OnOk result (text.new.items ≡ text.old.items ++ piece_text piece.now) }
{
    add_opening(alloc, text, piece)?;
    add_events(text, piece.events)
}

/// The text of pieces, formatted by one thread.
fn text_in_turn(alloc: Global, pieces: &[Piece<'_>]) -> Result<Vec<u8>, AllocError>
    ensures { IfOk result (λ text. text.items ≡ flat_map piece_text pieces.now) }
{
    let mut text = Vec::new(alloc);
    'pieces: for piece in pieces {
        add_piece(alloc, &mut text, piece)?;
    }
    Ok(text)
}

/// One text, and another after it.
pub fn joined(text: Vec<u8>, more: Vec<u8>) -> Result<Vec<u8>, AllocError>
    ensures { IfOk result (λ whole. whole.items ≡ text.items ++ more.items) }
{
    let mut text = text;
    let mut more = more;
    text.append(&mut more)?;
    Ok(text)
}

/// The text of pieces, formatted by at most `threads` threads: each half by half of them.
#[cycle(halves)]
pub fn text_of<R: Threads + Sync>(
    rt: &R,
    alloc: Global,
    pieces: &[Piece<'_>],
    threads: u32,
) -> Result<Vec<u8>, AllocError>
    ensures { IfOk result (λ text. text.items ≡ flat_map piece_text pieces.now) }
{
    if threads <= 1 || pieces.len() <= FEW {
        return text_in_turn(alloc, pieces);
    }
    let (left, right) = pieces.split_at(pieces.len() / 2);
    let half = threads / 2;
    let others = threads - half;
    let front = move || -> Result<Vec<u8>, AllocError>
        requires { IsSync R.row }
        ensures { IfOk result (λ text. text.items ≡ flat_map piece_text left.entry.now) }
    { text_of(rt, alloc, left, half) };
    let back = move || -> Result<Vec<u8>, AllocError>
        requires { IsSync R.row }
        ensures { IfOk result (λ text. text.items ≡ flat_map piece_text right.entry.now) }
    { text_of(rt, alloc, right, others) };
    let (first, second) = join(rt, front, back);
    joined(first?, second?)
}
