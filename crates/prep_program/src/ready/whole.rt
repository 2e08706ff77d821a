//! The step of `ready` that reassembles fragments.

use super::policy::Chosen;
use super::work::{Staged, Work};
use crate::folder::last_part;
use crate::folders::Folders;
use crate::maker::Maker;
use crate::reassembling::reassemble_capture;
use crate::source::Source;
use crate::stop::Stop;
use std::alloc::Global;

/// The numbers of reassembled datagrams and fragments.
#[derive(Clone, Copy)]
struct Reassembled {
    datagrams: u64,
    fragments: u64,
}

/// Reassembles fragments, if the captures have any of the service.
pub fn reassemble_step<S: Source, M: Maker, F: Folders>(
    alloc: Global,
    policy: &Chosen,
    captures: Vec<Staged>,
    work: &mut Work,
    source: &mut S,
    maker: &mut M,
    folders: &mut F,
) -> Result<Vec<Staged>, Stop> {
    if !policy.has_fragments {
        return Ok(captures);
    }
    work.make_folder(folders, "whole")?;
    let whole = work.staged_in("whole", &captures)?;
    let done = reassemble_all(alloc, &captures, &whole, source, maker)?;
    maker.publish()?;
    let Reassembled {
        datagrams,
        fragments,
    } = done;
    let line = format!(in alloc; "reassembled {datagrams} datagrams of {fragments} fragments")?;
    work.say(line.as_bytes())?;
    work.begin("turnprep reassemble -o")?;
    work.word_by_hand("whole")?;
    work.captures(&captures)?;
    work.end_line()?;
    Ok(whole)
}

/// Reassembles each capture to its file.
fn reassemble_all<S: Source, M: Maker>(
    alloc: Global,
    captures: &[Staged],
    whole: &[Staged],
    source: &mut S,
    maker: &mut M,
) -> Result<Reassembled, Stop> {
    let mut done = Reassembled {
        datagrams: 0,
        fragments: 0,
    };
    let mut number = 0u32;
    for (from, to) in captures.iter().zip(whole) {
        maker.make(to.file.as_str())?;
        let count = reassemble_capture(alloc, source, from.file.as_str(), number, maker)?;
        done.datagrams = done.datagrams.saturating_add(count.datagrams);
        done.fragments = done.fragments.saturating_add(count.fragments);
        number = number.saturating_add(1);
    }
    Ok(done)
}
