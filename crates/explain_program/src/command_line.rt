//! The command line, parsed by clap. Only this file and `commands` use clap.

ghost use Rattle.std.specs.Prelude.{◌≡◌, ℕ, true, false, IfNone, IfOk, IfSome, List, Option, Some, codes, map, option_map};
ghost use Rattle.clap.specs.Words.{HasKind, Kinds, Row, Text, fault_of, found_of, rows_of, subcommand_of, subcommand_rows_of};
ghost use Rattle.explain_program.specs.declared.command_line.Inputs.{Inputs as AnyInputs};
ghost use Rattle.audit_files.specs.declared.workers.Workers.{Workers as AnyWorkers};
ghost use Rattle.explain_program.specs.Words.{AreNamed, IsRequested, HasFlag, HasNumber, HasOptional, HasOptions, Names, NamesNothing, command_name, turnexplain};

use crate::commands::command;
use crate::pages::{Page, page_of};
use audit_files::Workers;
use clap::error::ErrorKind;
use clap::{ArgMatches, Error};
use command_usage::{escaped_words, usage_text};
use std::alloc::{AllocError, Global};
use std::convert::AsStr;

/// The request of the arguments.
#[derive(Drop)]
pub enum Request<'a> {
    /// Judge captures, and print the requested part of the verdict.
    Explain {
        inputs: Inputs<'a>,
        subject: Subject,
    },
    /// The same, as JSON.
    AsJson {
        inputs: Inputs<'a>,
        subject: Subject,
    },
    /// Print the faults that no order of the captures explains.
    Faults {
        inputs: Inputs<'a>,
    },
    /// Judge captures, and write the evidence page to a new file.
    Evidence {
        inputs: Inputs<'a>,
        file: &'a str,
        /// The list of packets that `turnprep cut` excluded.
        excluded: Option<&'a str>,
    },
    /// Print a help page on standard output.
    Help(Page),
    /// Print the release on standard output.
    Release,
    /// Usage error; clap's text for standard error.
    Usage(String),
}

/// The requested part of a verdict.
#[derive(Clone, Copy)]
pub enum Subject {
    /// The explanation, and the percentage of requests that is expected to have a response.
    Verdict { expected: Option<u32> },
    /// A line for each client, or only for those that violate a rule.
    Lanes { broken: bool },
    /// The events of a client, this number on each side of its first breach.
    Client { lane: u32, around: u32 },
}

/// The files that a command reads.
#[derive(Drop)]
pub struct Inputs<'a> {
    pub policy: &'a str,
    /// Without it, there are no users.
    pub credentials: Option<&'a str>,
    /// Without it, the finder searches for one.
    pub certificate: Option<&'a str>,
    pub captures: Vec<&'a str>,
    pub workers: Workers,
}

/// The request for an error of clap that is no command's: help, the release, or a usage error.
fn refused<'a, N: AsStr>(
    alloc: Global,
    error: Error,
    words: &[N],
) -> Result<Request<'a>, AllocError>
    ensures { (named : Option (Text × List Row)) (kinds : Kinds) → HasKind kinds error → IfOk result (IsRequested named kinds) }
{
    let text = format!(in alloc; "{error}")?;
    if error.kind() == ErrorKind::OutOfMemory {
        return Err(AllocError);
    }
    if error.kind() == ErrorKind::DisplayHelp {
        return Ok(Request::Help(page_of(&text).unwrap_or(Page::Program)));
    }
    if error.kind() == ErrorKind::DisplayVersion {
        return Ok(Request::Release);
    }
    let escaped = escaped_words(alloc, words)?;
    let text = usage_text(alloc, command(alloc)?, command(alloc)?, &escaped)?;
    Ok(Request::Usage(text))
}

/// The number of a command's option.
fn number_of(matches: &ArgMatches<'_>, name: &str) -> Option<u32>
    ensures some { IfSome result (HasNumber name.now (rows_of (found_of matches.now))) }
    ensures none { IfNone result ((number : ℕ) → HasNumber name.now (rows_of (found_of matches.now)) number → ⊥) }
{
    matches.get_one::<u32>(name)
}

/// Whether a command's option without a value is present.
fn flag_of(matches: &ArgMatches<'_>, name: &str) -> bool
    ensures { HasFlag name.now (rows_of (found_of matches.now)) result }
{
    matches.get_flag(name)
}

/// The requested number of workers.
fn workers_of(matches: &ArgMatches<'_>) -> Option<Workers>
    ensures some { IfSome result (λ workers. HasNumber (codes "workers") (rows_of (found_of matches.now)) workers.count) }
    ensures none { IfNone result ((any : AnyWorkers) → HasNumber (codes "workers") (rows_of (found_of matches.now)) any.count → ⊥) }
{
    let Some(number) = number_of(matches, "workers") else {
        return None;
    };
    Workers::of(number)
}

/// The input files of a command, with this certificate.
fn inputs_with<'a>(
    alloc: Global,
    matches: &ArgMatches<'a>,
    certificate: Option<&'a str>,
) -> Result<Option<Inputs<'a>>, AllocError>
    ensures named { IfOk result (λ inputs. IfSome inputs (λ named. AreNamed (rows_of (found_of matches.now)) named × (named.certificate ≡ certificate.entry))) }
    ensures none { IfOk result (λ inputs. IfNone inputs ((any : AnyInputs) → AreNamed (rows_of (found_of matches.now)) any → ⊥)) }
{
    let Some(policy) = matches.get_str("policy") else {
        return Ok(None);
    };
    let Some(names) = matches.get_strs("captures") else {
        return Ok(None);
    };
    let Some(workers) = workers_of(matches) else {
        return Ok(None);
    };
    Ok(Some(Inputs {
        policy,
        credentials: matches.get_str("creds"),
        certificate,
        captures: Vec::from_slice(alloc, names)?,
        workers,
    }))
}

/// The arguments of a command, if it is the one of this name.
fn words_of<'m, 'a>(matches: &'m ArgMatches<'a>, name: &str) -> Option<&'m ArgMatches<'a>>
    ensures some { IfSome result (λ command. subcommand_rows_of matches.now ≡ Some (name.now, rows_of (found_of command.now))) }
    ensures none { IfNone result ((rows : List Row) → subcommand_rows_of matches.now ≡ Some (name.now, rows) → ⊥) }
{
    matches.subcommand_matches(name)
}

/// The request for a part of a verdict.
fn explain_request<'a>(
    alloc: Global,
    matches: &ArgMatches<'a>,
    subject: Subject,
) -> Result<Option<Request<'a>>, AllocError>
    ensures named { HasOptions (rows_of (found_of matches.now)) subject →
        IfOk result (λ request. IfSome request (Names (Some (command_name subject, rows_of (found_of matches.now))))) }
    ensures none { IfOk result (λ request. IfNone request (NamesNothing (Some (command_name subject, rows_of (found_of matches.now))))) }
{
    let Some(inputs) = inputs_with(alloc, matches, matches.get_str("cert"))? else {
        return Ok(None);
    };
    if flag_of(matches, "json") {
        return Ok(Some(Request::AsJson { inputs, subject }));
    }
    Ok(Some(Request::Explain { inputs, subject }))
}

/// The number of a command's option, or none.
fn optional_number_of(matches: &ArgMatches<'_>, name: &str) -> Option<u32>
    ensures { HasOptional name.now (rows_of (found_of matches.now)) result }
{
    match number_of(matches, name) {
        Some(number) => Some(number),
        None => None,
    }
}

/// The request of the arguments of `verdict`.
fn verdict_request<'a>(
    alloc: Global,
    matches: &ArgMatches<'a>,
) -> Result<Option<Request<'a>>, AllocError>
    ensures named { IfOk result (λ request. IfSome request (Names (Some (codes "verdict", rows_of (found_of matches.now))))) }
    ensures none { IfOk result (λ request. IfNone request (NamesNothing (Some (codes "verdict", rows_of (found_of matches.now))))) }
{
    let expected = optional_number_of(matches, "expect-answers");
    explain_request(alloc, matches, Subject::Verdict { expected })
}

/// The request of the arguments of `lanes`.
fn lanes_request<'a>(
    alloc: Global,
    matches: &ArgMatches<'a>,
) -> Result<Option<Request<'a>>, AllocError>
    ensures named { IfOk result (λ request. IfSome request (Names (Some (codes "lanes", rows_of (found_of matches.now))))) }
    ensures none { IfOk result (λ request. IfNone request (NamesNothing (Some (codes "lanes", rows_of (found_of matches.now))))) }
{
    let broken = flag_of(matches, "broken");
    explain_request(alloc, matches, Subject::Lanes { broken })
}

/// The request of the arguments of `client`.
fn client_request<'a>(
    alloc: Global,
    matches: &ArgMatches<'a>,
) -> Result<Option<Request<'a>>, AllocError>
    ensures named { IfOk result (λ request. IfSome request (Names (Some (codes "client", rows_of (found_of matches.now))))) }
    ensures none { IfOk result (λ request. IfNone request (NamesNothing (Some (codes "client", rows_of (found_of matches.now))))) }
{
    let Some(lane) = number_of(matches, "lane") else {
        return Ok(None);
    };
    let Some(around) = number_of(matches, "around") else {
        return Ok(None);
    };
    explain_request(alloc, matches, Subject::Client { lane, around })
}

/// The request of the arguments of `faults`.
fn faults_request<'a>(
    alloc: Global,
    matches: &ArgMatches<'a>,
) -> Result<Option<Request<'a>>, AllocError>
    ensures named { IfOk result (λ request. IfSome request (Names (Some (codes "faults", rows_of (found_of matches.now))))) }
    ensures none { IfOk result (λ request. IfNone request (NamesNothing (Some (codes "faults", rows_of (found_of matches.now))))) }
{
    let Some(inputs) = inputs_with(alloc, matches, None)? else {
        return Ok(None);
    };
    Ok(Some(Request::Faults { inputs }))
}

/// The request of the arguments of `evidence`.
fn evidence_request<'a>(
    alloc: Global,
    matches: &ArgMatches<'a>,
) -> Result<Option<Request<'a>>, AllocError>
    ensures named { IfOk result (λ request. IfSome request (Names (Some (codes "evidence", rows_of (found_of matches.now))))) }
    ensures none { IfOk result (λ request. IfNone request (NamesNothing (Some (codes "evidence", rows_of (found_of matches.now))))) }
{
    let Some(file) = matches.get_str("output") else {
        return Ok(None);
    };
    let Some(inputs) = inputs_with(alloc, matches, matches.get_str("cert"))? else {
        return Ok(None);
    };
    let excluded = matches.get_str("excluded");
    Ok(Some(Request::Evidence {
        inputs,
        file,
        excluded,
    }))
}

/// The request of a command's arguments.
fn request_of<'a>(
    alloc: Global,
    matches: &ArgMatches<'a>,
) -> Result<Option<Request<'a>>, AllocError>
    ensures named { IfOk result (λ request. IfSome request (Names (subcommand_rows_of matches.now))) }
    ensures none { IfOk result (λ request. IfNone request (NamesNothing (subcommand_rows_of matches.now))) }
{
    if let Some(verdict) = words_of(matches, "verdict") {
        return verdict_request(alloc, verdict);
    }
    if let Some(lanes) = words_of(matches, "lanes") {
        return lanes_request(alloc, lanes);
    }
    if let Some(client) = words_of(matches, "client") {
        return client_request(alloc, client);
    }
    if let Some(faults) = words_of(matches, "faults") {
        return faults_request(alloc, faults);
    }
    if let Some(evidence) = words_of(matches, "evidence") {
        return evidence_request(alloc, evidence);
    }
    Ok(None)
}

/// Parses the arguments, the first of which is the program's name.
pub fn read<'a, N: AsStr>(alloc: Global, words: &'a [N]) -> Result<Request<'a>, AllocError>
    ensures { IfOk result (IsRequested (subcommand_of turnexplain (map N.text words.now)) (fault_of turnexplain (map N.text words.now))) }
{
    let matches = match command(alloc)?.try_get_matches_from(words) {
        Ok(matches) => matches,
        Err(error) => return refused(alloc, error, words),
    };
    match request_of(alloc, &matches)? {
        Some(request) => Ok(request),
        None => Ok(Request::Usage(command(alloc)?.render_usage()?)),
    }
}
