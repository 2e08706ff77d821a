//! The commands and their options, as clap definitions. Their help texts are the pages. Each option
//! is created at its use: one in a variable would be dropped on each way out of the function, and
//! each drop has to be proved.

ghost use Rattle.std.specs.Prelude.{◌≡◌, ◌≤◌, pos, false, IfOk};
ghost use Rattle.clap.specs.Words.{app_of, rule_of};
ghost use Rattle.clap.specs.declared.builder.Command.TheViews.{out-Command as fields_of};
ghost use Rattle.explain_program.specs.Words as words;

use crate::pages::{Page, release};
use clap::builder::ValueParser;
use clap::{Arg, ArgAction, Command};
use std::alloc::{AllocError, Global};

/// An option with the name of a file, which may not be empty.
fn file_option<'a>(alloc: Global, name: &'a str, value: &'a str) -> Arg<'a>
    ensures rule { rule_of result ≡ words.file name.entry.now }
    ensures local { result.global ≡ false }
{
    Arg::new(alloc, name)
        .long(name)
        .value_name(value)
        .action(ArgAction::Set)
        .value_parser(ValueParser::NonEmptyString)
}

/// An option without a value.
fn flag<'a>(alloc: Global, name: &'a str) -> Arg<'a>
    ensures rule { rule_of result ≡ words.flag name.entry.now }
    ensures local { result.global ≡ false }
{
    Arg::new(alloc, name).long(name).action(ArgAction::SetTrue)
}

/// The option with the policy.
fn policy_option<'a>(alloc: Global) -> Arg<'a>
    ensures rule { rule_of result ≡ words.policy }
    ensures local { result.global ≡ false }
{
    file_option(alloc, "policy", "POLICY").required(true)
}

/// The option with the users.
fn users_option<'a>(alloc: Global) -> Arg<'a>
    ensures rule { rule_of result ≡ words.users }
    ensures local { result.global ≡ false }
{
    file_option(alloc, "creds", "CREDENTIALS")
}

/// The option with the certificate.
fn certificate_option<'a>(alloc: Global) -> Arg<'a>
    ensures rule { rule_of result ≡ words.certificate }
    ensures local { result.global ≡ false }
{
    file_option(alloc, "cert", "CERTIFICATE")
}

/// The option with the number of workers.
fn workers_option<'a>(alloc: Global) -> Arg<'a>
    ensures rule { rule_of result ≡ words.workers }
    ensures local { result.global ≡ false }
{
    Arg::new(alloc, "workers")
        .long("workers")
        .value_name("N")
        .default_value("1")
        .action(ArgAction::Set)
        .value_parser(clap::value_parser!(u32).range(1..=256))
}

/// The captures that a command reads.
fn captures_argument<'a>(alloc: Global) -> Arg<'a>
    ensures rule { rule_of result ≡ words.captures }
    ensures local { result.global ≡ false }
{
    Arg::new(alloc, "captures")
        .value_name("CAPTURE")
        .required(true)
        .num_args(1..)
        .action(ArgAction::Append)
        .value_parser(ValueParser::NonEmptyString)
}

/// A command with this name and the options that all commands have.
fn reading_command<'a>(alloc: Global, name: &'a str, page: Page) -> Result<Command<'a>, AllocError>
    ensures app { IfOk result (λ command. app_of command ≡ words.reading name.entry.now) }
    ensures local { IfOk result (λ command. (fields_of command).has_globals ≡ false) }
{
    Command::new(alloc, name)
        .override_help(page.text())
        .arg(policy_option(alloc))?
        .arg(users_option(alloc))
}

/// A command with this name that judges captures by a certificate.
fn judging_command<'a>(alloc: Global, name: &'a str, page: Page) -> Result<Command<'a>, AllocError>
    ensures app { IfOk result (λ command. app_of command ≡ words.judging name.entry.now) }
    ensures local { IfOk result (λ command. (fields_of command).has_globals ≡ false) }
{
    reading_command(alloc, name, page)?
        .arg(certificate_option(alloc))?
        .arg(workers_option(alloc))?
        .arg(captures_argument(alloc))
}

/// A command with this name that can answer in JSON.
fn answering_command<'a>(
    alloc: Global,
    name: &'a str,
    page: Page,
) -> Result<Command<'a>, AllocError>
    ensures app { IfOk result (λ command. app_of command ≡ words.explaining name.entry.now) }
    ensures local { IfOk result (λ command. (fields_of command).has_globals ≡ false) }
{
    judging_command(alloc, name, page)?.arg(flag(alloc, "json"))
}

/// The option of `verdict` with the percentage of requests that is expected to have a response.
fn expected_option<'a>(alloc: Global) -> Arg<'a>
    ensures rule { rule_of result ≡ words.expected }
    ensures local { result.global ≡ false }
{
    Arg::new(alloc, "expect-answers")
        .long("expect-answers")
        .value_name("PERCENT")
        .action(ArgAction::Set)
        .value_parser(clap::value_parser!(u32).range(0..=100))
}

/// The command `verdict`.
fn verdict_command<'a>(alloc: Global) -> Result<Command<'a>, AllocError>
    ensures app { IfOk result (λ command. app_of command ≡ words.verdict) }
    ensures local { IfOk result (λ command. (fields_of command).has_globals ≡ false) }
{
    answering_command(alloc, "verdict", Page::Verdict)?.arg(expected_option(alloc))
}

/// The command `lanes`, with an option that prints only clients that violate a rule.
fn lanes_command<'a>(alloc: Global) -> Result<Command<'a>, AllocError>
    ensures app { IfOk result (λ command. app_of command ≡ words.lanes) }
    ensures local { IfOk result (λ command. (fields_of command).has_globals ≡ false) }
{
    answering_command(alloc, "lanes", Page::Lanes)?.arg(flag(alloc, "broken"))
}

/// The option of `client` with the client's number.
fn lane_option<'a>(alloc: Global) -> Arg<'a>
    ensures rule { rule_of result ≡ words.lane }
    ensures local { result.global ≡ false }
{
    Arg::new(alloc, "lane")
        .long("lane")
        .value_name("N")
        .required(true)
        .action(ArgAction::Set)
        .value_parser(clap::value_parser!(u32).range(0..=65_535))
}

/// The option of `client` with the number of printed events.
fn around_option<'a>(alloc: Global) -> Arg<'a>
    ensures rule { rule_of result ≡ words.around }
    ensures local { result.global ≡ false }
{
    Arg::new(alloc, "around")
        .long("around")
        .value_name("N")
        .default_value("20")
        .action(ArgAction::Set)
        .value_parser(clap::value_parser!(u32).range(0..=1_000_000))
}

/// The command `client`.
fn client_command<'a>(alloc: Global) -> Result<Command<'a>, AllocError>
    ensures app { IfOk result (λ command. app_of command ≡ words.client) }
    ensures local { IfOk result (λ command. (fields_of command).has_globals ≡ false) }
{
    answering_command(alloc, "client", Page::Client)?
        .arg(lane_option(alloc))?
        .arg(around_option(alloc))
}

/// The option of `evidence` with the output file.
fn output_option<'a>(alloc: Global) -> Arg<'a>
    ensures rule { rule_of result ≡ words.output }
    ensures local { result.global ≡ false }
{
    file_option(alloc, "output", "FILE")
        .short('o')
        .required(true)
}

/// The option of `evidence` with the list of packets that `turnprep cut` excluded.
fn excluded_option<'a>(alloc: Global) -> Arg<'a>
    ensures rule { rule_of result ≡ words.excluded }
    ensures local { result.global ≡ false }
{
    file_option(alloc, "excluded", "LIST")
}

/// The command `evidence`.
fn evidence_command<'a>(alloc: Global) -> Result<Command<'a>, AllocError>
    ensures app { IfOk result (λ command. app_of command ≡ words.evidence) }
    ensures local { IfOk result (λ command. (fields_of command).has_globals ≡ false) }
{
    judging_command(alloc, "evidence", Page::Evidence)?
        .arg(output_option(alloc))?
        .arg(excluded_option(alloc))
}

/// The command `faults`, which needs no certificate: its output is true for each one.
fn faults_command<'a>(alloc: Global) -> Result<Command<'a>, AllocError>
    ensures app { IfOk result (λ command. app_of command ≡ words.faults) }
    ensures local { IfOk result (λ command. (fields_of command).has_globals ≡ false) }
{
    reading_command(alloc, "faults", Page::Faults)?
        .arg(workers_option(alloc))?
        .arg(captures_argument(alloc))
}

/// The program, without its commands.
fn program<'a>(alloc: Global) -> Command<'a>
    ensures app { app_of result ≡ words.program }
{
    Command::new(alloc, "turnexplain")
        .version(release())
        .override_help(Page::Program.text())
        .arg_required_else_help(true)
        .subcommand_required(true)
}

/// The whole command line.
pub fn command<'a>(alloc: Global) -> Result<Command<'a>, AllocError>
    ensures { IfOk result (λ command. app_of command ≡ words.turnexplain) }
{
    program(alloc)
        .subcommand(verdict_command(alloc)?)?
        .subcommand(lanes_command(alloc)?)?
        .subcommand(client_command(alloc)?)?
        .subcommand(faults_command(alloc)?)?
        .subcommand(evidence_command(alloc)?)
}
