//! The command `look`.

ghost use Rattle.prep_program.specs.Answered.{IsSuccess};

use crate::recording::record_captures;
use crate::source::Source;
use crate::stop::Stop;
use crate::surveying::survey_captures;
use crate::text::read_policy_text;
use audit_model::{Policy, Sink, put_all, read_policy};
use prep_cut::Stated;
use prep_look::{Guess, Survey, guess_policy, page_of};
use prep_reasons::sort_out;
use std::alloc::Global;

/// The arguments of the command `look`.
#[derive(Drop)]
pub struct LookRequest<'a> {
    /// The policy's file; without it a policy is guessed.
    pub policy: Option<&'a str>,
    /// The longest lifetime of an allocation from before, in seconds.
    pub lifetime: u64,
    pub captures: Vec<&'a str>,
}

/// The policy by which the captures are read, and the text of the suggested one.
#[derive(Drop)]
struct Taken {
    policy: Policy,
    suggested: Vec<u8>,
}

/// Prints what captures contain. It reads them twice: a guess needs all responses before it is
/// known which datagrams are of the service.
pub fn run_look<S: Source, O: Sink>(
    alloc: Global,
    request: &LookRequest<'_>,
    source: &mut S,
    out: &mut O,
) -> Result<u8, Stop>
    ensures { IsSuccess result }
{
    let given = match request.policy {
        Some(name) => Some(policy_in(alloc, name, source)?),
        None => None,
    };
    let survey = survey_captures(alloc, source, &request.captures)?;
    let taken = match given {
        Some(taken) => taken,
        None => guessed(alloc, &survey)?,
    };
    let stated = stated_for(request.lifetime);
    let records = record_captures(alloc, source, &request.captures, &taken.policy, stated)?;
    let sheet = sort_out(alloc, &taken.policy, stated, records)?;
    let page = page_of(alloc, survey, &taken.policy, &sheet)?;
    put_all(out, page.as_bytes())?;
    put_all(out, &taken.suggested)?;
    Ok(0)
}

/// A policy from a file. Its text is suggested unchanged.
fn policy_in<S: Source>(alloc: Global, name: &str, source: &mut S) -> Result<Taken, Stop> {
    let suggested = read_policy_text(alloc, source, name)?;
    let policy = read_policy(alloc, &suggested)?;
    Ok(Taken { policy, suggested })
}

/// A policy guessed from the captures.
fn guessed(alloc: Global, survey: &Survey) -> Result<Taken, Stop> {
    let Guess { policy, suggested } = guess_policy(alloc, survey)?;
    Ok(Taken {
        policy,
        suggested: Vec::from_slice(alloc, suggested.as_bytes())?,
    })
}

/// The longest time after deletions that `cut` accepts, in milliseconds.
pub const LONGEST_RELEASED: u64 = 60_000;

/// The lifetime of allocations from before, and the longest time after deletions, so that the page
/// has the time that the captures show.
fn stated_for(lifetime: u64) -> Stated {
    Stated {
        since: None,
        until: None,
        is_from_start: false,
        has_no_tcp: false,
        keeps_inner: false,
        lifetime,
        released_ms: LONGEST_RELEASED,
    }
}
