//! The arguments of the command `reassemble`.

ghost use Rattle.std.specs.Prelude.{IfNone, IfOk, IfSome, Some, codes};
ghost use Rattle.clap.specs.Words.{found_of, rows_of};
ghost use Rattle.prep_program.specs.Requests.{NamesNothing, Requests};

use super::values::{captures_of, value_of};
use super::{Request, usage};
use crate::reassembling::ReassembleRequest;
use clap::ArgMatches;
use std::alloc::{AllocError, Global};

const TOO_MANY: &str = "turnprep: reassemble takes 16 captures at the most\n";

/// The request of the arguments.
pub fn reassemble_request<'a>(
    alloc: Global,
    matches: &ArgMatches<'a>,
) -> Result<Option<Request<'a>>, AllocError>
    ensures some { IfOk result (λ found. IfSome found (Requests (Some (codes "reassemble", rows_of (found_of matches.now))))) }
    ensures none { IfOk result (λ found. IfNone found (NamesNothing (Some (codes "reassemble", rows_of (found_of matches.now))))) }
{
    let Some(folder) = value_of(matches, "out") else {
        return Ok(None);
    };
    let Some(captures) = captures_of(alloc, matches)? else {
        return usage(alloc, TOO_MANY);
    };
    Ok(Some(Request::Reassemble(ReassembleRequest { folder, captures })))
}
