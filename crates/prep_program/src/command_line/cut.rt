//! The arguments of the command `cut`.

ghost use Rattle.std.specs.Prelude.{◌≡◌, IfErr, IfNone, IfOk, IfSome, Some, codes};
ghost use Rattle.clap.specs.Words.{found_of, rows_of};
ghost use Rattle.prep_cut.specs.declared.stated.Stated.{Stated as AnyStated};
ghost use Rattle.prep_program.specs.Requests.{IsStated, NamesNothing, Requests, are_ordered};

use super::values::{captures_of, flag_of, moment_in, number_of, value_of};
use super::{Request, usage};
use crate::list_head::USUAL_LIFETIME;
use crate::set_aside::CutRequest;
use clap::ArgMatches;
use prep_cut::Stated;
use std::alloc::{AllocError, Global};

/// The longest lifetime of an allocation that may be stated, in seconds.
pub const LONGEST: u64 = 1_000_000_000;

const NOT_A_MOMENT: &str =
    "turnprep: --since and --until are nanoseconds since 1970, or a date and time as 2026-12-01T09:00:00Z\n";

const NOT_A_LIFETIME: &str = "turnprep: --lifetime is a number up to 1000000000\n";

/// The longest time after a success response to a Refresh with LIFETIME 0 that may be stated, in
/// milliseconds.
const LONGEST_RELEASED: u64 = 60_000;

const NOT_RELEASED: &str = "turnprep: --released-ms is a number up to 60000\n";

const BACKWARDS: &str = "turnprep: --since is after --until\n";

const TOO_MANY: &str = "turnprep: cut takes 16 captures at the most\n";

/// Whether the first moment isn't after the last.
fn is_ordered(since: Option<u64>, until: Option<u64>) -> bool
    ensures { result ≡ are_ordered since until }
{
    match (since, until) {
        (Some(since), Some(until)) => since <= until,
        _ => true,
    }
}

/// The operator's options, or the usage error.
pub fn stated_by(matches: &ArgMatches<'_>) -> Result<Stated, &'static str>
    ensures ok { IfOk result (IsStated (rows_of (found_of matches.now))) }
    ensures err { IfErr result (λ text. (any : AnyStated) → IsStated (rows_of (found_of matches.now)) any → ⊥) }
{
    let Some(since) = moment_in(matches, "since") else {
        return Err(NOT_A_MOMENT);
    };
    let Some(until) = moment_in(matches, "until") else {
        return Err(NOT_A_MOMENT);
    };
    let Some(lifetime) = number_of(matches, "lifetime", LONGEST) else {
        return Err(NOT_A_LIFETIME);
    };
    let Some(released_ms) = number_of(matches, "released-ms", LONGEST_RELEASED) else {
        return Err(NOT_RELEASED);
    };
    if !is_ordered(since, until) {
        return Err(BACKWARDS);
    }
    Ok(Stated {
        since,
        until,
        is_from_start: flag_of(matches, "from-start"),
        has_no_tcp: flag_of(matches, "no-tcp"),
        keeps_inner: flag_of(matches, "keep-inner"),
        lifetime: lifetime.unwrap_or(USUAL_LIFETIME),
        released_ms: released_ms.unwrap_or(0),
    })
}

/// The request of the arguments of `cut`.
pub fn cut_request<'a>(
    alloc: Global,
    matches: &ArgMatches<'a>,
) -> Result<Option<Request<'a>>, AllocError>
    ensures some { IfOk result (λ found. IfSome found (Requests (Some (codes "cut", rows_of (found_of matches.now))))) }
    ensures none { IfOk result (λ found. IfNone found (NamesNothing (Some (codes "cut", rows_of (found_of matches.now))))) }
{
    let Some(policy) = value_of(matches, "policy") else {
        return Ok(None);
    };
    let Some(folder) = value_of(matches, "out") else {
        return Ok(None);
    };
    let Some(captures) = captures_of(alloc, matches)? else {
        return usage(alloc, TOO_MANY);
    };
    let stated = match stated_by(matches) {
        Ok(stated) => stated,
        Err(text) => return usage(alloc, text),
    };
    Ok(Some(Request::Cut(CutRequest {
        policy,
        folder,
        stated,
        captures,
    })))
}
