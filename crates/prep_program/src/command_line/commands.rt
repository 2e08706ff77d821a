//! The commands, as clap definitions. Their help texts are the pages.

ghost use Rattle.std.specs.Prelude.{◌≡◌, ◌≤◌, false, IfOk};
ghost use Rattle.clap.specs.Words.{app_of, rule_of};
ghost use Rattle.clap.specs.declared.builder.Command.TheViews.{out-Command as fields_of};
ghost use Rattle.prep_program.specs.Words as words;

use super::options::{any_captures, captures, file, flag, output, repeated, required_file, value};
use crate::pages::{Page, release};
use clap::{Arg, Command};
use std::alloc::{AllocError, Global};

/// The command `policy`.
fn policy_command<'a>(alloc: Global) -> Result<Command<'a>, AllocError>
    ensures app { IfOk result (λ command. app_of command ≡ words.policy) }
    ensures local { IfOk result (λ command. (fields_of command).has_globals ≡ false) }
{
    Command::new(alloc, "policy")
        .override_help(Page::Policy.text())
        .arg(required_file(alloc, "turnserver-conf"))?
        .arg(repeated(alloc, "listening-ip", "IP"))?
        .arg(repeated(alloc, "relay-ip", "IP"))?
        .arg(flag(alloc, "translated"))
}

/// The command `users`.
fn users_command<'a>(alloc: Global) -> Result<Command<'a>, AllocError>
    ensures app { IfOk result (λ command. app_of command ≡ words.users) }
    ensures local { IfOk result (λ command. (fields_of command).has_globals ≡ false) }
{
    Command::new(alloc, "users")
        .override_help(Page::Users.text())
        .arg(file(alloc, "turnserver-conf"))?
        .arg(file(alloc, "secret-file"))?
        .arg(value(alloc, "realm", "R"))?
        .arg(any_captures(alloc))
}

/// The command `join`.
fn join_command<'a>(alloc: Global) -> Result<Command<'a>, AllocError>
    ensures app { IfOk result (λ command. app_of command ≡ words.join) }
    ensures local { IfOk result (λ command. (fields_of command).has_globals ≡ false) }
{
    Command::new(alloc, "join")
        .override_help(Page::Join.text())
        .arg(output(alloc, "FILE"))?
        .arg(captures(alloc))
}

/// The command `reassemble`.
fn reassemble_command<'a>(alloc: Global) -> Result<Command<'a>, AllocError>
    ensures app { IfOk result (λ command. app_of command ≡ words.reassemble) }
    ensures local { IfOk result (λ command. (fields_of command).has_globals ≡ false) }
{
    Command::new(alloc, "reassemble")
        .override_help(Page::Reassemble.text())
        .arg(output(alloc, "DIR"))?
        .arg(captures(alloc))
}

/// The option of `translate` that pairs public and private addresses.
fn external<'a>(alloc: Global) -> Arg<'a>
    ensures rule { rule_of result ≡ words.external }
    ensures local { result.global ≡ false }
{
    repeated(alloc, "external-ip", "PUBLIC/PRIVATE").required(true)
}

/// The command `translate`.
fn translate_command<'a>(alloc: Global) -> Result<Command<'a>, AllocError>
    ensures app { IfOk result (λ command. app_of command ≡ words.translate) }
    ensures local { IfOk result (λ command. (fields_of command).has_globals ≡ false) }
{
    Command::new(alloc, "translate")
        .override_help(Page::Translate.text())
        .arg(required_file(alloc, "policy"))?
        .arg(external(alloc))?
        .arg(output(alloc, "DIR"))?
        .arg(captures(alloc))
}

/// The command `look`.
fn look_command<'a>(alloc: Global) -> Result<Command<'a>, AllocError>
    ensures app { IfOk result (λ command. app_of command ≡ words.look) }
    ensures local { IfOk result (λ command. (fields_of command).has_globals ≡ false) }
{
    Command::new(alloc, "look")
        .override_help(Page::Look.text())
        .arg(file(alloc, "policy"))?
        .arg(value(alloc, "lifetime", "SECONDS"))?
        .arg(captures(alloc))
}

/// The command `cut` with its files.
fn cut_files<'a>(alloc: Global) -> Result<Command<'a>, AllocError>
    ensures app { IfOk result (λ command. app_of command ≡ words.cut_files) }
    ensures local { IfOk result (λ command. (fields_of command).has_globals ≡ false) }
{
    Command::new(alloc, "cut")
        .override_help(Page::Cut.text())
        .arg(required_file(alloc, "policy"))?
        .arg(output(alloc, "DIR"))
}

/// The command `cut` with its files and numbers.
fn cut_numbers<'a>(alloc: Global) -> Result<Command<'a>, AllocError>
    ensures app { IfOk result (λ command. app_of command ≡ words.cut_numbers) }
    ensures local { IfOk result (λ command. (fields_of command).has_globals ≡ false) }
{
    cut_files(alloc)?
        .arg(value(alloc, "since", "MOMENT"))?
        .arg(value(alloc, "until", "MOMENT"))?
        .arg(value(alloc, "lifetime", "SECONDS"))?
        .arg(value(alloc, "released-ms", "MS"))
}

/// The command `cut`.
fn cut_command<'a>(alloc: Global) -> Result<Command<'a>, AllocError>
    ensures app { IfOk result (λ command. app_of command ≡ words.cut) }
    ensures local { IfOk result (λ command. (fields_of command).has_globals ≡ false) }
{
    cut_numbers(alloc)?
        .arg(flag(alloc, "from-start"))?
        .arg(flag(alloc, "no-tcp"))?
        .arg(flag(alloc, "keep-inner"))?
        .arg(captures(alloc))
}

/// The command `ready` with its files.
fn ready_files<'a>(alloc: Global) -> Result<Command<'a>, AllocError>
    ensures app { IfOk result (λ command. app_of command ≡ words.ready_files) }
    ensures local { IfOk result (λ command. (fields_of command).has_globals ≡ false) }
{
    Command::new(alloc, "ready")
        .override_help(Page::Ready.text())
        .arg(file(alloc, "turnserver-conf"))?
        .arg(file(alloc, "policy"))?
        .arg(file(alloc, "creds"))?
        .arg(output(alloc, "DIR"))
}

/// The command `ready` with its files and numbers.
fn ready_numbers<'a>(alloc: Global) -> Result<Command<'a>, AllocError>
    ensures app { IfOk result (λ command. app_of command ≡ words.ready_numbers) }
    ensures local { IfOk result (λ command. (fields_of command).has_globals ≡ false) }
{
    ready_files(alloc)?
        .arg(value(alloc, "since", "MOMENT"))?
        .arg(value(alloc, "until", "MOMENT"))?
        .arg(value(alloc, "lifetime", "SECONDS"))?
        .arg(value(alloc, "released-ms", "MS"))
}

/// The command `ready`.
fn ready_command<'a>(alloc: Global) -> Result<Command<'a>, AllocError>
    ensures app { IfOk result (λ command. app_of command ≡ words.ready) }
    ensures local { IfOk result (λ command. (fields_of command).has_globals ≡ false) }
{
    ready_numbers(alloc)?
        .arg(flag(alloc, "from-start"))?
        .arg(flag(alloc, "no-tcp"))?
        .arg(flag(alloc, "keep-inner"))?
        .arg(captures(alloc))
}

/// The program, without its commands.
fn program<'a>(alloc: Global) -> Command<'a>
    ensures app { app_of result ≡ words.program }
{
    Command::new(alloc, "turnprep")
        .version(release())
        .override_help(Page::Program.text())
        .arg_required_else_help(true)
        .subcommand_required(true)
}

/// The program with the command that does all steps.
fn preparing<'a>(alloc: Global) -> Result<Command<'a>, AllocError>
    ensures { IfOk result (λ command. app_of command ≡ words.preparing) }
{
    program(alloc).subcommand(ready_command(alloc)?)
}

/// The program with also the commands that write a policy and credentials.
fn writing<'a>(alloc: Global) -> Result<Command<'a>, AllocError>
    ensures { IfOk result (λ command. app_of command ≡ words.writing) }
{
    preparing(alloc)?
        .subcommand(policy_command(alloc)?)?
        .subcommand(users_command(alloc)?)
}

/// The whole command line.
pub fn command<'a>(alloc: Global) -> Result<Command<'a>, AllocError>
    ensures { IfOk result (λ command. app_of command ≡ words.turnprep) }
{
    writing(alloc)?
        .subcommand(join_command(alloc)?)?
        .subcommand(reassemble_command(alloc)?)?
        .subcommand(translate_command(alloc)?)?
        .subcommand(look_command(alloc)?)?
        .subcommand(cut_command(alloc)?)
}
