//! The command line, parsed by clap. Only this file and those in `command_line/` use clap.

ghost use Rattle.std.specs.Prelude.{◌≡◌, IfNone, IfOk, IfSome, List, Option, Some, codes, map};
ghost use Rattle.clap.specs.Words.{HasKind, Kinds, Row, Text, fault_of, found_of, rows_of, subcommand_of, subcommand_rows_of};
ghost use Rattle.prep_program.specs.Requests.{IsRequested, NamesNothing, Requests};
ghost use Rattle.prep_program.specs.Words.{turnprep};

mod commands;
mod cut;
mod look;
mod options;
mod policy;
mod ready;
mod reassemble;
mod translate;
mod users;
mod values;

use self::commands::command;
use self::cut::cut_request;
use self::look::look_request;
use self::policy::policy_request;
use self::ready::ready_request;
use self::reassemble::reassemble_request;
use self::translate::translate_request;
use self::users::users_request;
use self::values::{all_values, value_of};
use crate::looking::LookRequest;
use crate::page_of::page_of;
use crate::pages::Page;
use crate::ready::ReadyRequest;
use crate::reassembling::ReassembleRequest;
use crate::set_aside::CutRequest;
use crate::translating::TranslateRequest;
use crate::users::UsersRequest;
use clap::error::ErrorKind;
use clap::{ArgMatches, Error};
use command_usage::{escaped_words, usage_text};
use std::alloc::{AllocError, Global};
use std::convert::AsStr;

/// The request of the arguments.
#[derive(Drop)]
pub enum Request<'a> {
    /// Join captures to a new file.
    Join {
        captures: Vec<&'a str>,
        file: &'a str,
    },
    /// Write the policy of a coturn configuration.
    Policy {
        file: &'a str,
        listening: Vec<u32>,
        relaying: Vec<u32>,
        is_translated: bool,
    },
    /// Print what captures contain.
    Look(LookRequest<'a>),
    /// Exclude from captures what can't be judged.
    Cut(CutRequest<'a>),
    /// Translate captures to files in a folder.
    Translate(TranslateRequest<'a>),
    /// Reassemble captures to files in a folder.
    Reassemble(ReassembleRequest<'a>),
    /// Write credentials.
    Users(UsersRequest<'a>),
    /// Do all steps that captures need before an audit.
    Ready(ReadyRequest<'a>),
    /// Print a help page on standard output.
    Help(Page),
    /// Print the release on standard output.
    Release,
    /// Usage error; the text for standard error.
    Usage(String),
}

/// A usage error of a command.
fn usage<'a>(alloc: Global, text: &str) -> Result<Option<Request<'a>>, AllocError>
    ensures some { (named : Option (Text × List Row)) → NamesNothing named → IfOk result (λ found. IfSome found (Requests named)) }
    ensures none { (named : Option (Text × List Row)) → NamesNothing named → IfOk result (λ found. IfNone found (NamesNothing named)) }
{
    Ok(Some(Request::Usage(String::from_str(alloc, text)?)))
}

/// The request for an error of clap that is no command's: help, the release, or a usage error.
fn refused<'a, N: AsStr>(
    alloc: Global,
    error: Error,
    words: &[N],
) -> Result<Request<'a>, AllocError>
    ensures { (named : Option (Text × List Row)) (kinds : Kinds) → HasKind kinds error → IfOk result (IsRequested named kinds) }
{
    let text = format!(in alloc; "{error}")?;
    if error.kind() == ErrorKind::OutOfMemory {
        return Err(AllocError);
    }
    if error.kind() == ErrorKind::DisplayHelp {
        return Ok(Request::Help(page_of(&text).unwrap_or(Page::Program)));
    }
    if error.kind() == ErrorKind::DisplayVersion {
        return Ok(Request::Release);
    }
    let escaped = escaped_words(alloc, words)?;
    let text = usage_text(alloc, command(alloc)?, command(alloc)?, &escaped)?;
    Ok(Request::Usage(text))
}

/// The request of the arguments of `join`.
fn join_request<'a>(
    alloc: Global,
    matches: &ArgMatches<'a>,
) -> Result<Option<Request<'a>>, AllocError>
    ensures some { IfOk result (λ found. IfSome found (Requests (Some (codes "join", rows_of (found_of matches.now))))) }
    ensures none { IfOk result (λ found. IfNone found (NamesNothing (Some (codes "join", rows_of (found_of matches.now))))) }
{
    let Some(file) = value_of(matches, "out") else {
        return Ok(None);
    };
    let Some(names) = all_values(matches, "captures") else {
        return Ok(None);
    };
    Ok(Some(Request::Join {
        captures: Vec::from_slice(alloc, names)?,
        file,
    }))
}

/// The arguments of a command, if it is the one of this name.
fn arguments_of<'m, 'a>(matches: &'m ArgMatches<'a>, name: &str) -> Option<&'m ArgMatches<'a>>
    ensures some { IfSome result (λ command. subcommand_rows_of matches.now ≡ Some (name.now, rows_of (found_of command.now))) }
    ensures none { IfNone result ((rows : List Row) → subcommand_rows_of matches.now ≡ Some (name.now, rows) → ⊥) }
{
    matches.subcommand_matches(name)
}

/// The request of a command's arguments.
fn request_of<'a>(
    alloc: Global,
    matches: &ArgMatches<'a>,
) -> Result<Option<Request<'a>>, AllocError>
    ensures some { IfOk result (λ found. IfSome found (Requests (subcommand_rows_of matches.now))) }
    ensures none { IfOk result (λ found. IfNone found (NamesNothing (subcommand_rows_of matches.now))) }
{
    if let Some(join) = arguments_of(matches, "join") {
        return join_request(alloc, join);
    }
    if let Some(policy) = arguments_of(matches, "policy") {
        return policy_request(alloc, policy);
    }
    if let Some(look) = arguments_of(matches, "look") {
        return look_request(alloc, look);
    }
    if let Some(cut) = arguments_of(matches, "cut") {
        return cut_request(alloc, cut);
    }
    if let Some(translate) = arguments_of(matches, "translate") {
        return translate_request(alloc, translate);
    }
    if let Some(users) = arguments_of(matches, "users") {
        return users_request(alloc, users);
    }
    if let Some(reassemble) = arguments_of(matches, "reassemble") {
        return reassemble_request(alloc, reassemble);
    }
    if let Some(ready) = arguments_of(matches, "ready") {
        return ready_request(alloc, ready);
    }
    Ok(None)
}

/// Parses the arguments, the first of which is the program's name.
pub fn read<'a, N: AsStr>(alloc: Global, words: &'a [N]) -> Result<Request<'a>, AllocError>
    ensures { IfOk result (IsRequested (subcommand_of turnprep (map N.text words.now)) (fault_of turnprep (map N.text words.now))) }
{
    let matches = match command(alloc)?.try_get_matches_from(words) {
        Ok(matches) => matches,
        Err(error) => return refused(alloc, error, words),
    };
    match request_of(alloc, &matches)? {
        Some(request) => Ok(request),
        None => Ok(Request::Usage(command(alloc)?.render_usage()?)),
    }
}
