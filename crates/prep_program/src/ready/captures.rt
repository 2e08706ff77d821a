//! The step of `ready` that joins the files of rings.

use super::rings::{Ring, joined_name, rings_of};
use super::work::{Staged, Work, files_of};
use crate::folder::{check_parts, last_part};
use crate::folders::Folders;
use crate::joining::join_captures;
use crate::maker::Maker;
use crate::ring_name::gap_in;
use crate::source::Source;
use crate::stop::Stop;
use std::alloc::Global;

/// The most captures of one audit.
const MAX_CAPTURES: usize = 16;

/// Joins the files of each ring to one capture.
pub fn join_step<S: Source, M: Maker, F: Folders>(
    alloc: Global,
    names: &[&str],
    work: &mut Work,
    source: &mut S,
    maker: &mut M,
    folders: &mut F,
) -> Result<Vec<Staged>, Stop> {
    let rings = rings_of(alloc, names)?;
    if rings.len() > MAX_CAPTURES {
        return Err(Stop::Words("ready takes 16 captures or rings at the most"));
    }
    let captures = staged_of(alloc, &rings, work)?;
    check_names(alloc, &captures)?;
    if rings.len() < names.len() {
        work.make_folder(folders, "joined")?;
        join_rings(alloc, &rings, &captures, work, source, maker)?;
        work.say_joined(names.len(), rings.len())?;
    }
    Ok(captures)
}

/// Refuses captures if two have the same name: they are written to one folder.
fn check_names(alloc: Global, captures: &[Staged]) -> Result<(), Stop> {
    let files = files_of(alloc, captures)?;
    check_parts(&files)
}

/// The capture of each ring.
fn staged_of(alloc: Global, rings: &[Ring<'_>], work: &Work) -> Result<Vec<Staged>, Stop> {
    let mut all = Vec::new(alloc);
    for ring in rings {
        all.push(ring_file(alloc, ring, work)?)?;
    }
    Ok(all)
}

/// The output file of a ring. A single file stays where it is.
fn ring_file(alloc: Global, ring: &Ring<'_>, work: &Work) -> Result<Staged, Stop> {
    let name = ring.first();
    if ring.is_single() {
        return Ok(Staged::original(alloc, name)?);
    }
    let joined = joined_name(alloc, last_part(name)?)?;
    Ok(work.staged("joined", joined.as_str())?)
}

/// Joins each ring.
fn join_rings<S: Source, M: Maker>(
    alloc: Global,
    rings: &[Ring<'_>],
    captures: &[Staged],
    work: &mut Work,
    source: &mut S,
    maker: &mut M,
) -> Result<(), Stop> {
    for (ring, capture) in rings.iter().zip(captures) {
        if !ring.is_single() {
            join_ring(alloc, ring, capture, work, source, maker)?;
        }
    }
    maker.publish()?;
    Ok(())
}

/// Joins the files of a ring.
fn join_ring<S: Source, M: Maker>(
    alloc: Global,
    ring: &Ring<'_>,
    capture: &Staged,
    work: &mut Work,
    source: &mut S,
    maker: &mut M,
) -> Result<(), Stop> {
    let names = ring.names(alloc)?;
    if let Some(gap) = gap_in(&names) {
        return Err(Stop::Missing(gap));
    }
    maker.make(capture.file.as_str())?;
    join_captures(alloc, source, &names, maker)?;
    work.begin("turnprep join -o")?;
    work.word(capture.by_hand.as_str())?;
    for name in &names {
        work.operand(name)?;
    }
    work.end_line()
}
