//! The command `cut`.

ghost use Rattle.std.specs.Prelude.{◌≡◌, ℕ, List, Some, IfOk, OnOk, map};
ghost use Rattle.std.specs.List.{AllZip};
ghost use Rattle.audit_model.specs.Sink.{followed_by};
ghost use Rattle.prep_program.specs.Listing.{list_file};
ghost use Rattle.prep_program.specs.CutRuns.{IsCutRun};
ghost use Rattle.prep_program.specs.Making.{files_of, with_files};
ghost use Rattle.prep_program.specs.CutStatus.{EndsByKept};

use crate::cutting::{ToCut, cut_captures};
use crate::folder::{check_parts, last_part, path_in};
use crate::hashing::Hashed;
use crate::list::list_of;
use crate::list_totals::kept_in;
use crate::maker::{Maker, append_all};
use crate::planning::{Planned, plan_of};
use crate::source::Source;
use crate::stop::Stop;
use audit_model::{Sink, put_all};
use prep_cut::{Proposal, Stated};
use std::alloc::Global;
use std::thread::Threads;

/// The arguments of the command `cut`.
#[derive(Drop)]
pub struct CutRequest<'a> {
    pub policy: &'a str,
    /// An existing folder.
    pub folder: &'a str,
    pub stated: Stated,
    pub captures: Vec<&'a str>,
}

/// The list's name in its folder.
const LIST: &str = "set-aside";

/// The line on standard error if no datagram is kept.
const NOTHING_KEPT: &str = "turnprep: kept 0 datagrams\n";

/// Writes the captures without the excluded packets into a folder, and also the list, which is
/// printed, too. If no datagram is kept, it reports that on `err`, and the exit status is 6.
pub fn run_cut<R: Threads + AllocGlobal, S: Source, M: Maker, O: Sink, E: Sink>(
    rt: &R,
    request: &CutRequest<'_>,
    source: &mut S,
    maker: &mut M,
    out: &mut O,
    err: &mut E,
) -> Result<u8, Stop>
    ensures done { IfOk result (λ status. (kept : ℕ) × EndsByKept kept status (E.taken err.old) (E.taken err.new)) }
    ensures cuts { (policy : List ℕ) (captures : List (List ℕ)) → S.holds source.old request.now.policy.now ≡ Some policy →
        AllZip (λ name text. S.holds source.old name.now ≡ Some text) request.now.captures.items captures →
        IfOk result (λ status. IsCutRun request.now policy captures
        (files_of (M.making maker.old) (M.taken maker.old)) (files_of (M.making maker.new) (M.taken maker.new)) (O.taken out.old) (O.taken out.new) (E.taken err.old) (E.taken err.new) status) }
{
    let alloc = rt.alloc();
    check_parts(&request.captures)?;
    let Planned {
        plan,
        notes,
        proposals,
        groups,
        hashed,
    } = plan_of(rt, request, source)?;
    let captures = captures_of(alloc, request.folder, &hashed, proposals)?;
    let all = cut_captures(alloc, source, &captures, &plan, groups, maker)?;
    let list = list_of(alloc, &plan, &notes, &all)?;
    write_list(alloc, request.folder, list.as_str(), maker, out)?;
    let kept = kept_in(&all.totals);
    let status = end_cut(kept, err)?;
    Ok(status)
}

/// The exit status of a call that kept this number of datagrams. If it is 0, it reports that on
/// `err`.
fn end_cut<E: Sink>(kept: u64, err: &mut E) -> Result<u8, Stop>
    ensures { IfOk result (λ status. EndsByKept kept status (E.taken err.old) (E.taken err.new)) }
{
    if kept > 0 {
        return Ok(0);
    }
    put_all(err, NOTHING_KEPT.as_bytes())?;
    Ok(6)
}

/// Writes the list into the folder and to `out`.
fn write_list<M: Maker, O: Sink>(
    alloc: Global,
    folder: &str,
    list: &str,
    maker: &mut M,
    out: &mut O,
) -> Result<(), Stop>
    ensures made { OnOk result (files_of (M.making maker.new) (M.taken maker.new)
        ≡ with_files (files_of (M.making maker.old) (M.taken maker.old)) (list_file folder.now list.now)) }
    ensures printed { OnOk result (O.taken out.new ≡ followed_by (O.taken out.old) list.now) }
{
    let file = path_in(alloc, folder, LIST)?;
    maker.make(file.as_str())?;
    append_all(maker, list.as_bytes())?;
    put_all(out, list.as_bytes())?;
    Ok(())
}

/// The captures with their output files and their proposals.
fn captures_of<'a>(
    alloc: Global,
    folder: &str,
    hashed: &[Hashed<'a>],
    proposals: Vec<Vec<Proposal>>,
) -> Result<Vec<ToCut<'a>>, Stop>
    ensures names { IfOk result (λ all. map (λ one. one.name.now) all.items ≡ map (λ one. one.name.now) hashed.now) }
    ensures digests { IfOk result (λ all. map (λ one. one.digest) all.items ≡ map (λ one. one.digest) hashed.now) }
{
    let mut proposed = proposals.into_iter();
    let mut all = Vec::new(alloc);
    for one in hashed {
        let file = path_in(alloc, folder, last_part(one.name)?)?;
        let proposals = match proposed.next() {
            Some(proposals) => proposals,
            None => Vec::new(alloc),
        };
        all.push(ToCut {
            name: one.name,
            file,
            proposals,
            digest: one.digest,
            checksum: one.checksum,
        })?;
    }
    Ok(all)
}
