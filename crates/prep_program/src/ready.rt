//! The command `ready`: makes a folder for `turnaudit audit` from the captures of a relay in use.

ghost use Rattle.prep_program.specs.Answered.{IsReady};

mod auditing;
mod captures;
mod copying;
mod excluding;
mod policy;
mod rings;
mod translating;
mod users;
mod whole;
mod work;

use self::captures::join_step;
use self::excluding::{decide_step, exclude_step};
use self::policy::{Chosen, policy_step};
use self::translating::translate_step;
use self::users::users_step;
use self::whole::reassemble_step;
use self::work::{Staged, Work};
use crate::folders::Folders;
use crate::maker::{Maker, append_all};
use crate::source::{Source, check_repeatable};
use crate::stop::Stop;
use audit_model::{Sink, put_all};
use prep_cut::Stated;
use std::alloc::Global;
use std::thread::Threads;

/// The source of the policy.
#[derive(Clone, Copy)]
pub enum PolicySource<'a> {
    /// The file of coturn's configuration.
    Configuration(&'a str),
    /// The file of a policy.
    Policy(&'a str),
}

/// The arguments of the command `ready`.
#[derive(Drop)]
pub struct ReadyRequest<'a> {
    pub source: PolicySource<'a>,
    /// The file of the credentials; without it the users of the configuration are used.
    pub creds: Option<&'a str>,
    /// The folder that is made.
    pub folder: &'a str,
    pub stated: Stated,
    pub captures: Vec<&'a str>,
}

/// Prepares captures in a temporary folder, which is renamed when all is done: a call that fails
/// leaves no folder. The exit status is 6, and no folder remains, if no datagram of the service is
/// kept.
pub fn run_ready<R: Threads + AllocGlobal, S: Source, M: Maker, F: Folders, O: Sink, E: Sink>(
    rt: &R,
    request: &ReadyRequest<'_>,
    source: &mut S,
    maker: &mut M,
    folders: &mut F,
    out: &mut O,
    err: &mut E,
) -> Result<u8, Stop>
    ensures { IsReady result }
{
    let alloc = rt.alloc();
    check_inputs(alloc, request, source)?;
    let mut work = Work::new(alloc, request.folder)?;
    folders.check_new(work.folder())?;
    folders.make_folder(work.part())?;
    match prepare(rt, request, &mut work, source, maker, folders, err) {
        Ok(true) => {
            rename_folder(&work, folders)?;
            put_all(out, work.report())?;
            Ok(0)
        }
        Ok(false) => {
            folders.remove_folder(work.part());
            Ok(6)
        }
        Err(stop) => {
            folders.remove_folder(work.part());
            Err(stop)
        }
    }
}

/// Refuses inputs that can't be read twice, before any is read.
fn check_inputs<S: Source>(
    alloc: Global,
    request: &ReadyRequest<'_>,
    source: &S,
) -> Result<(), Stop> {
    if let PolicySource::Configuration(name) = request.source {
        // once for the policy, and once for the users
        check_repeatable(alloc, source, &[name])?;
    }
    check_repeatable(alloc, source, &request.captures)
}

/// Renames the temporary folder.
fn rename_folder<F: Folders>(work: &Work, folders: &mut F) -> Result<(), Stop> {
    match folders.rename(work.part(), work.folder()) {
        Ok(()) => Ok(()),
        Err(fault) => {
            folders.remove_folder(work.part());
            Err(fault.into())
        }
    }
}

/// All steps, in the temporary folder. Returns whether a datagram of the service is kept.
fn prepare<R: Threads + AllocGlobal, S: Source, M: Maker, F: Folders, E: Sink>(
    rt: &R,
    request: &ReadyRequest<'_>,
    work: &mut Work,
    source: &mut S,
    maker: &mut M,
    folders: &mut F,
    err: &mut E,
) -> Result<bool, Stop> {
    let alloc = rt.alloc();
    let joined = join_step(alloc, &request.captures, work, source, maker, folders)?;
    let policy = policy_step(alloc, request.source, &joined, work, source, maker, err)?;
    prepare_by(
        rt, request, &policy, joined, work, source, maker, folders, err,
    )
}

/// The steps that need the policy.
fn prepare_by<R: Threads + AllocGlobal, S: Source, M: Maker, F: Folders, E: Sink>(
    rt: &R,
    request: &ReadyRequest<'_>,
    policy: &Chosen,
    joined: Vec<Staged>,
    work: &mut Work,
    source: &mut S,
    maker: &mut M,
    folders: &mut F,
    err: &mut E,
) -> Result<bool, Stop> {
    let alloc = rt.alloc();
    let whole = reassemble_step(alloc, policy, joined, work, source, maker, folders)?;
    let has_users = users_step(alloc, request, &whole, work, source, maker, err)?;
    let outer = translate_step(alloc, policy, whole, work, source, maker, folders, err)?;
    let decided = decide_step(alloc, request.stated, &outer, work, source)?;
    let Some(ready) = exclude_step(rt, decided, outer, work, source, maker, folders, err)? else {
        return Ok(false);
    };
    work.end(&ready, has_users)?;
    write_steps(work, maker, folders)?;
    Ok(true)
}

/// Writes the commands that repeat the steps manually, and removes temporary files.
fn write_steps<M: Maker, F: Folders>(
    work: &Work,
    maker: &mut M,
    folders: &mut F,
) -> Result<(), Stop> {
    work.remove_folders(folders);
    let steps = work.file("steps")?;
    maker.make(steps.as_str())?;
    append_all(maker, work.steps())?;
    maker.publish()?;
    Ok(())
}
