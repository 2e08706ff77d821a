//! The arguments of the command `look`.

ghost use Rattle.std.specs.Prelude.{IfNone, IfOk, IfSome, Some, codes};
ghost use Rattle.clap.specs.Words.{found_of, rows_of};
ghost use Rattle.prep_program.specs.Requests.{NamesNothing, Requests};

use super::cut::LONGEST;
use super::values::{captures_of, number_of, value_of};
use super::{Request, usage};
use crate::list_head::USUAL_LIFETIME;
use crate::looking::LookRequest;
use clap::ArgMatches;
use std::alloc::{AllocError, Global};

const NOT_A_NUMBER: &str = "turnprep: --lifetime is a number\n";

const TOO_MANY: &str = "turnprep: look takes 16 captures at the most\n";

/// The request of the arguments of `look`.
pub fn look_request<'a>(
    alloc: Global,
    matches: &ArgMatches<'a>,
) -> Result<Option<Request<'a>>, AllocError>
    ensures some { IfOk result (λ found. IfSome found (Requests (Some (codes "look", rows_of (found_of matches.now))))) }
    ensures none { IfOk result (λ found. IfNone found (NamesNothing (Some (codes "look", rows_of (found_of matches.now))))) }
{
    let Some(captures) = captures_of(alloc, matches)? else {
        return usage(alloc, TOO_MANY);
    };
    let Some(lifetime) = number_of(matches, "lifetime", LONGEST) else {
        return usage(alloc, NOT_A_NUMBER);
    };
    Ok(Some(Request::Look(LookRequest {
        policy: value_of(matches, "policy"),
        lifetime: lifetime.unwrap_or(USUAL_LIFETIME),
        captures,
    })))
}
