//! The arguments of the command `users`.

ghost use Rattle.std.specs.Prelude.{IfNone, IfOk, IfSome, Some, codes};
ghost use Rattle.clap.specs.Words.{found_of, rows_of};
ghost use Rattle.prep_program.specs.Requests.{HasSource, NamesNothing, Requests};
ghost use Rattle.prep_program.specs.declared.users.UsersSource.{UsersSource as AnySource};

use super::values::{value_of, values};
use super::{Request, usage};
use crate::users::{UsersRequest, UsersSource};
use clap::ArgMatches;
use std::alloc::{AllocError, Global};

const NO_SOURCE: &str = "turnprep: users takes --turnserver-conf or --secret-file\n";

const TWO_SOURCES: &str =
    "turnprep: users takes --turnserver-conf or --secret-file, and not both\n";

/// The source of the users, if exactly one of the two is named.
fn source_of<'a>(matches: &ArgMatches<'a>) -> Option<UsersSource<'a>>
    ensures some { IfSome result (HasSource (rows_of (found_of matches.now))) }
    ensures none { IfNone result ((any : AnySource) → HasSource (rows_of (found_of matches.now)) any → ⊥) }
{
    match (
        value_of(matches, "turnserver-conf"),
        value_of(matches, "secret-file"),
    ) {
        (Some(file), None) => Some(UsersSource::Configuration(file)),
        (None, Some(file)) => Some(UsersSource::Secret(file)),
        _ => None,
    }
}

/// The usage error if not exactly one is named.
fn wrong_source(matches: &ArgMatches<'_>) -> &'static str {
    match value_of(matches, "secret-file") {
        Some(_) => TWO_SOURCES,
        None => NO_SOURCE,
    }
}

/// The request of the arguments.
pub fn users_request<'a>(
    alloc: Global,
    matches: &ArgMatches<'a>,
) -> Result<Option<Request<'a>>, AllocError>
    ensures some { IfOk result (λ found. IfSome found (Requests (Some (codes "users", rows_of (found_of matches.now))))) }
    ensures none { IfOk result (λ found. IfNone found (NamesNothing (Some (codes "users", rows_of (found_of matches.now))))) }
{
    let Some(source) = source_of(matches) else {
        return usage(alloc, wrong_source(matches));
    };
    Ok(Some(Request::Users(UsersRequest {
        source,
        realm: value_of(matches, "realm"),
        captures: values(alloc, matches, "captures")?,
    })))
}
