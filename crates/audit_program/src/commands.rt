//! The commands and their options, as clap has them. Their help texts are in `pages.rt`.

ghost use Rattle.std.specs.Prelude.{◌≡◌, ◌≤◌, pos, false, IfOk};
ghost use Rattle.clap.specs.Words.{app_of, rule_of};
ghost use Rattle.clap.specs.declared.builder.Command.TheViews.{out-Command as fields_of};
ghost use Rattle.audit_program.specs.Words as words;

use crate::pages::{Page, release};
use clap::{Arg, ArgAction, Command};
use std::alloc::{AllocError, Global};

/// An option with the name of a file.
fn file_option<'a>(alloc: Global, name: &'a str, value: &'a str) -> Arg<'a>
    ensures rule { rule_of result ≡ words.valued name.entry.now }
    ensures local { result.global ≡ false }
{
    Arg::new(alloc, name)
        .long(name)
        .value_name(value)
        .action(ArgAction::Set)
}

/// The captures that a command reads.
fn captures_argument<'a>(alloc: Global) -> Arg<'a>
    ensures rule { rule_of result ≡ words.captures }
    ensures local { result.global ≡ false }
{
    Arg::new(alloc, "captures")
        .value_name("CAPTURE")
        .required(true)
        .num_args(1..)
        .action(ArgAction::Append)
}

/// The option with the policy.
fn policy_option<'a>(alloc: Global) -> Arg<'a>
    ensures rule { rule_of result ≡ words.policy }
    ensures local { result.global ≡ false }
{
    file_option(alloc, "policy", "POLICY").required(true)
}

/// The option with the users.
fn users_option<'a>(alloc: Global) -> Arg<'a>
    ensures rule { rule_of result ≡ words.users }
    ensures local { result.global ≡ false }
{
    file_option(alloc, "creds", "CREDENTIALS")
}

/// The option with the certificate.
fn certificate_option<'a>(alloc: Global) -> Arg<'a>
    ensures rule { rule_of result ≡ words.certificate }
    ensures local { result.global ≡ false }
{
    file_option(alloc, "cert", "CERTIFICATE").required(true)
}

/// The command of that name, with the options that all commands have. Each option is created where
/// it is added: one in a variable would be dropped on each way out of the function, and each such
/// drop needs a proof.
fn command_of<'a>(alloc: Global, name: &'a str, page: Page) -> Result<Command<'a>, AllocError>
    ensures app { IfOk result (λ command. app_of command ≡ words.command_of name.entry.now) }
    ensures local { IfOk result (λ command. (fields_of command).has_globals ≡ false) }
{
    Command::new(alloc, name)
        .override_help(page.text())
        .arg(policy_option(alloc))?
        .arg(users_option(alloc))?
        .arg(captures_argument(alloc))
}

/// The option with the number of workers.
fn workers_option<'a>(alloc: Global) -> Arg<'a>
    ensures rule { rule_of result ≡ words.workers }
    ensures local { result.global ≡ false }
{
    Arg::new(alloc, "workers")
        .long("workers")
        .value_name("N")
        .default_value("1")
        .action(ArgAction::Set)
        .value_parser(clap::value_parser!(u32).range(1..=256))
}

/// The option of `live` with a number of turns.
fn turns_option<'a>(alloc: Global, name: &'a str, default: &'a str) -> Arg<'a>
    ensures rule { rule_of result ≡ words.counted name.entry.now default.entry.now 1000000 }
    ensures local { result.global ≡ false }
{
    Arg::new(alloc, name)
        .long(name)
        .value_name("N")
        .default_value(default)
        .action(ArgAction::Set)
        .value_parser(clap::value_parser!(u32).range(1..=1_000_000))
}

/// The option of `live` after whose number of quiet turns captures end.
fn idle_option<'a>(alloc: Global) -> Arg<'a>
    ensures rule { rule_of result ≡ words.idle }
    ensures local { result.global ≡ false }
{
    turns_option(alloc, "idle", "1")
}

/// The option of `live` after whose number of turns captures end that still grow.
fn most_option<'a>(alloc: Global) -> Arg<'a>
    ensures rule { rule_of result ≡ words.most }
    ensures local { result.global ≡ false }
{
    turns_option(alloc, "turns", "1000000")
}

/// The command `live`.
fn live_command<'a>(alloc: Global) -> Result<Command<'a>, AllocError>
    ensures app { IfOk result (λ command. app_of command ≡ words.live) }
    ensures local { IfOk result (λ command. (fields_of command).has_globals ≡ false) }
{
    command_of(alloc, "live", Page::Live)?
        .arg(idle_option(alloc))?
        .arg(most_option(alloc))
}

/// The command `check`.
fn check_command<'a>(alloc: Global) -> Result<Command<'a>, AllocError>
    ensures app { IfOk result (λ command. app_of command ≡ words.check) }
    ensures local { IfOk result (λ command. (fields_of command).has_globals ≡ false) }
{
    command_of(alloc, "check", Page::Check)?
        .arg(certificate_option(alloc))?
        .arg(workers_option(alloc))
}

/// A command that finds a certificate.
fn finding_command<'a>(alloc: Global, name: &'a str, page: Page) -> Result<Command<'a>, AllocError>
    ensures app { IfOk result (λ command. app_of command ≡ words.finding name.entry.now) }
    ensures local { IfOk result (λ command. (fields_of command).has_globals ≡ false) }
{
    command_of(alloc, name, page)?.arg(workers_option(alloc))
}

/// The program, without its commands.
fn program<'a>(alloc: Global) -> Command<'a>
    ensures app { app_of result ≡ words.program }
{
    Command::new(alloc, "turnaudit")
        .version(release())
        .override_help(Page::Program.text())
        .arg_required_else_help(true)
        .subcommand_required(true)
}

/// The whole command line.
pub fn command<'a>(alloc: Global) -> Result<Command<'a>, AllocError>
    ensures { IfOk result (λ command. app_of command ≡ words.turnaudit) }
{
    program(alloc)
        .subcommand(finding_command(alloc, "audit", Page::Audit)?)?
        .subcommand(finding_command(alloc, "find", Page::Find)?)?
        .subcommand(live_command(alloc)?)?
        .subcommand(check_command(alloc)?)
}
