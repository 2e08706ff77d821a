//! The arguments of the command `ready`.

ghost use Rattle.std.specs.Prelude.{IfNone, IfOk, IfSome, Some, codes};
ghost use Rattle.clap.specs.Words.{found_of, rows_of};
ghost use Rattle.prep_program.specs.Requests.{HasPolicySource, NamesNothing, Requests};
ghost use Rattle.prep_program.specs.declared.ready.PolicySource.{PolicySource as AnySource};

use super::cut::stated_by;
use super::values::{all_values, value_of};
use super::{Request, usage};
use crate::ready::{PolicySource, ReadyRequest};
use clap::ArgMatches;
use std::alloc::{AllocError, Global};

const ONE_SOURCE: &str = "turnprep: ready takes --turnserver-conf or --policy, one of both\n";

/// The source of the policy, if exactly one of the two is named.
fn source_of<'a>(matches: &ArgMatches<'a>) -> Option<PolicySource<'a>>
    ensures some { IfSome result (HasPolicySource (rows_of (found_of matches.now))) }
    ensures none { IfNone result ((any : AnySource) → HasPolicySource (rows_of (found_of matches.now)) any → ⊥) }
{
    match (
        value_of(matches, "turnserver-conf"),
        value_of(matches, "policy"),
    ) {
        (Some(file), None) => Some(PolicySource::Configuration(file)),
        (None, Some(file)) => Some(PolicySource::Policy(file)),
        _ => None,
    }
}

/// The request of the arguments.
pub fn ready_request<'a>(
    alloc: Global,
    matches: &ArgMatches<'a>,
) -> Result<Option<Request<'a>>, AllocError>
    ensures some { IfOk result (λ found. IfSome found (Requests (Some (codes "ready", rows_of (found_of matches.now))))) }
    ensures none { IfOk result (λ found. IfNone found (NamesNothing (Some (codes "ready", rows_of (found_of matches.now))))) }
{
    let Some(folder) = value_of(matches, "out") else {
        return Ok(None);
    };
    let Some(names) = all_values(matches, "captures") else {
        return Ok(None);
    };
    let Some(source) = source_of(matches) else {
        return usage(alloc, ONE_SOURCE);
    };
    let stated = match stated_by(matches) {
        Ok(stated) => stated,
        Err(text) => return usage(alloc, text),
    };
    Ok(Some(Request::Ready(ReadyRequest {
        source,
        creds: value_of(matches, "creds"),
        folder,
        stated,
        captures: Vec::from_slice(alloc, names)?,
    })))
}
