//! The command line, as clap parses it. Only this file and `commands.rt` use clap.

ghost use Rattle.std.specs.Prelude.{◌≡◌, ℕ, IfNone, IfOk, IfSome, List, Option, Some, codes, map};
ghost use Rattle.clap.specs.Words.{HasKind, Kinds, Row, Text, fault_of, found_of, rows_of, subcommand_of, subcommand_rows_of};
ghost use Rattle.audit_program.specs.declared.command_line.Inputs.{Inputs as AnyInputs};
ghost use Rattle.audit_files.specs.declared.workers.Workers.{Workers as AnyWorkers};
ghost use Rattle.audit_program.specs.Words.{AreNamed, IsRequested, HasNumber, Names, NamesNothing, turnaudit};

use crate::commands::command;
use crate::pages::{Page, page_of};
use audit_files::Workers;
use clap::error::ErrorKind;
use clap::{ArgMatches, Error};
use std::alloc::{AllocError, Global};
use std::convert::AsStr;

/// What the arguments request.
#[derive(Drop)]
pub enum Request<'a> {
    /// Judge captures by a certificate.
    Check {
        inputs: Inputs<'a>,
        certificate: &'a str,
        workers: Workers,
    },
    /// Find a certificate, and judge captures by it.
    Audit {
        inputs: Inputs<'a>,
        workers: Workers,
    },
    /// Find a certificate, and write it.
    Find {
        inputs: Inputs<'a>,
        workers: Workers,
    },
    /// Judge captures while they grow.
    Live {
        inputs: Inputs<'a>,
        turns: Turns,
    },
    /// Print how to use the program, on standard output.
    Help(Page),
    /// Print the release, on standard output.
    Release,
    /// A usage error, with clap's message for standard error.
    Usage(String),
}

/// The files that every command reads.
#[derive(Drop)]
pub struct Inputs<'a> {
    pub policy: &'a str,
    /// Without it there are no users.
    pub credentials: Option<&'a str>,
    pub captures: Vec<&'a str>,
}

/// When captures that grow have ended, 1 to 1,000,000 each.
#[derive(Clone, Copy, Debug, PartialEq, Eq)]
pub struct Turns {
    /// After this number of turns in a row in which no capture had a new byte.
    pub idle: u32,
    /// After this number of turns.
    pub most: u32,
}

/// The request for an error of clap: help, the release or a usage error.
fn refused<'a>(alloc: Global, error: Error) -> Result<Request<'a>, AllocError>
    ensures { (subcommand : Option (Text × List Row)) (kinds : Kinds) → HasKind kinds error → IfOk result (IsRequested subcommand kinds) }
{
    let text = format!(in alloc; "{error}")?;
    if error.kind() == ErrorKind::OutOfMemory {
        return Err(AllocError);
    }
    if error.kind() == ErrorKind::DisplayHelp {
        return Ok(Request::Help(page_of(&text).unwrap_or(Page::Program)));
    }
    if error.kind() == ErrorKind::DisplayVersion {
        return Ok(Request::Release);
    }
    Ok(Request::Usage(text))
}

/// The files that the arguments of a command name.
fn inputs_of<'a>(alloc: Global, matches: &ArgMatches<'a>) -> Result<Option<Inputs<'a>>, AllocError>
    ensures named { IfOk result (λ inputs. IfSome inputs (AreNamed (rows_of (found_of matches.now)))) }
    ensures none { IfOk result (λ inputs. IfNone inputs ((any : AnyInputs) → AreNamed (rows_of (found_of matches.now)) any → ⊥)) }
{
    let Some(policy) = matches.get_str("policy") else {
        return Ok(None);
    };
    let Some(names) = matches.get_strs("captures") else {
        return Ok(None);
    };
    Ok(Some(Inputs {
        policy,
        credentials: matches.get_str("creds"),
        captures: Vec::from_slice(alloc, names)?,
    }))
}

/// The number that the arguments of a command have for an option.
fn number_of(matches: &ArgMatches<'_>, name: &str) -> Option<u32>
    ensures some { IfSome result (HasNumber name.now (rows_of (found_of matches.now))) }
    ensures none { IfNone result ((number : ℕ) → HasNumber name.now (rows_of (found_of matches.now)) number → ⊥) }
{
    matches.get_one::<u32>(name)
}

/// The number of workers in the arguments of a command.
fn workers_of(matches: &ArgMatches<'_>) -> Option<Workers>
    ensures some { IfSome result (λ workers. HasNumber (codes "workers") (rows_of (found_of matches.now)) workers.count) }
    ensures none { IfNone result ((any : AnyWorkers) → HasNumber (codes "workers") (rows_of (found_of matches.now)) any.count → ⊥) }
{
    let Some(number) = number_of(matches, "workers") else {
        return None;
    };
    Workers::of(number)
}

/// When captures that grow have ended, by the arguments of a command.
fn turns_of(matches: &ArgMatches<'_>) -> Option<Turns>
    ensures some { IfSome result (λ turns. HasNumber (codes "idle") (rows_of (found_of matches.now)) turns.idle
        × HasNumber (codes "turns") (rows_of (found_of matches.now)) turns.most) }
    ensures none { IfNone result ((idle most : ℕ) → HasNumber (codes "idle") (rows_of (found_of matches.now)) idle →
        HasNumber (codes "turns") (rows_of (found_of matches.now)) most → ⊥) }
{
    let Some(idle) = number_of(matches, "idle") else {
        return None;
    };
    let Some(most) = number_of(matches, "turns") else {
        return None;
    };
    Some(Turns { idle, most })
}

/// The arguments of a command, if it is the one of this name.
fn words_of<'m, 'a>(matches: &'m ArgMatches<'a>, name: &str) -> Option<&'m ArgMatches<'a>>
    ensures some { IfSome result (λ command. subcommand_rows_of matches.now ≡ Some (name.now, rows_of (found_of command.now))) }
    ensures none { IfNone result ((rows : List Row) → subcommand_rows_of matches.now ≡ Some (name.now, rows) → ⊥) }
{
    matches.subcommand_matches(name)
}

/// The request of the arguments of the command `audit`.
fn audit_request<'a>(
    alloc: Global,
    matches: &ArgMatches<'a>,
) -> Result<Option<Request<'a>>, AllocError>
    ensures named { IfOk result (λ request. IfSome request (Names (Some (codes "audit", rows_of (found_of matches.now))))) }
    ensures none { IfOk result (λ request. IfNone request (NamesNothing (Some (codes "audit", rows_of (found_of matches.now))))) }
{
    let Some(workers) = workers_of(matches) else {
        return Ok(None);
    };
    let Some(inputs) = inputs_of(alloc, matches)? else {
        return Ok(None);
    };
    Ok(Some(Request::Audit { inputs, workers }))
}

/// The request of the arguments of the command `find`.
fn find_request<'a>(
    alloc: Global,
    matches: &ArgMatches<'a>,
) -> Result<Option<Request<'a>>, AllocError>
    ensures named { IfOk result (λ request. IfSome request (Names (Some (codes "find", rows_of (found_of matches.now))))) }
    ensures none { IfOk result (λ request. IfNone request (NamesNothing (Some (codes "find", rows_of (found_of matches.now))))) }
{
    let Some(workers) = workers_of(matches) else {
        return Ok(None);
    };
    let Some(inputs) = inputs_of(alloc, matches)? else {
        return Ok(None);
    };
    Ok(Some(Request::Find { inputs, workers }))
}

/// The request of the arguments of the command `live`.
fn live_request<'a>(
    alloc: Global,
    matches: &ArgMatches<'a>,
) -> Result<Option<Request<'a>>, AllocError>
    ensures named { IfOk result (λ request. IfSome request (Names (Some (codes "live", rows_of (found_of matches.now))))) }
    ensures none { IfOk result (λ request. IfNone request (NamesNothing (Some (codes "live", rows_of (found_of matches.now))))) }
{
    let Some(turns) = turns_of(matches) else {
        return Ok(None);
    };
    let Some(inputs) = inputs_of(alloc, matches)? else {
        return Ok(None);
    };
    Ok(Some(Request::Live { inputs, turns }))
}

/// The request of the arguments of the command `check`.
fn check_request<'a>(
    alloc: Global,
    matches: &ArgMatches<'a>,
) -> Result<Option<Request<'a>>, AllocError>
    ensures named { IfOk result (λ request. IfSome request (Names (Some (codes "check", rows_of (found_of matches.now))))) }
    ensures none { IfOk result (λ request. IfNone request (NamesNothing (Some (codes "check", rows_of (found_of matches.now))))) }
{
    let Some(certificate) = matches.get_str("cert") else {
        return Ok(None);
    };
    let Some(workers) = workers_of(matches) else {
        return Ok(None);
    };
    let Some(inputs) = inputs_of(alloc, matches)? else {
        return Ok(None);
    };
    Ok(Some(Request::Check {
        inputs,
        certificate,
        workers,
    }))
}

/// The request of the arguments of a command.
fn request_of<'a>(
    alloc: Global,
    matches: &ArgMatches<'a>,
) -> Result<Option<Request<'a>>, AllocError>
    ensures named { IfOk result (λ request. IfSome request (Names (subcommand_rows_of matches.now))) }
    ensures none { IfOk result (λ request. IfNone request (NamesNothing (subcommand_rows_of matches.now))) }
{
    if let Some(audit) = words_of(matches, "audit") {
        return audit_request(alloc, audit);
    }
    if let Some(find) = words_of(matches, "find") {
        return find_request(alloc, find);
    }
    if let Some(live) = words_of(matches, "live") {
        return live_request(alloc, live);
    }
    if let Some(check) = words_of(matches, "check") {
        return check_request(alloc, check);
    }
    Ok(None)
}

/// Parses the arguments, the first of which is the program's name.
pub fn read<'a, N: AsStr>(alloc: Global, words: &'a [N]) -> Result<Request<'a>, AllocError>
    ensures { IfOk result (IsRequested (subcommand_of turnaudit (map N.text words.now)) (fault_of turnaudit (map N.text words.now))) }
{
    let matches = match command(alloc)?.try_get_matches_from(words) {
        Ok(matches) => matches,
        Err(error) => return refused(alloc, error),
    };
    match request_of(alloc, &matches)? {
        Some(request) => Ok(request),
        None => Ok(Request::Usage(command(alloc)?.render_usage()?)),
    }
}
