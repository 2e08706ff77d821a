//! The options of commands, as clap definitions. Each is created at its use: one in a variable
//! would be dropped on each way out of the function, and each drop has to be proved.

ghost use Rattle.std.specs.Prelude.{◌≡◌, ◌≤◌, false};
ghost use Rattle.clap.specs.Words.{rule_of};
ghost use Rattle.prep_program.specs.Words as words;

use clap::builder::ValueParser;
use clap::{Arg, ArgAction};
use std::alloc::Global;

/// An option with one value.
pub fn value<'a>(alloc: Global, name: &'a str, shown: &'a str) -> Arg<'a>
    ensures rule { rule_of result ≡ words.valued name.entry.now }
    ensures local { result.global ≡ false }
{
    Arg::new(alloc, name)
        .long(name)
        .value_name(shown)
        .action(ArgAction::Set)
}

/// An option with the name of a file, which may not be empty.
pub fn file<'a>(alloc: Global, name: &'a str) -> Arg<'a>
    ensures rule { rule_of result ≡ words.file name.entry.now }
    ensures local { result.global ≡ false }
{
    value(alloc, name, "FILE").value_parser(ValueParser::NonEmptyString)
}

/// The same, required.
pub fn required_file<'a>(alloc: Global, name: &'a str) -> Arg<'a>
    ensures rule { rule_of result ≡ words.required_file name.entry.now }
    ensures local { result.global ≡ false }
{
    file(alloc, name).required(true)
}

/// An option that may occur several times.
pub fn repeated<'a>(alloc: Global, name: &'a str, shown: &'a str) -> Arg<'a>
    ensures rule { rule_of result ≡ words.repeated name.entry.now }
    ensures local { result.global ≡ false }
{
    Arg::new(alloc, name)
        .long(name)
        .value_name(shown)
        .action(ArgAction::Append)
}

/// An option without a value.
pub fn flag<'a>(alloc: Global, name: &'a str) -> Arg<'a>
    ensures rule { rule_of result ≡ words.flag name.entry.now }
    ensures local { result.global ≡ false }
{
    Arg::new(alloc, name).long(name).action(ArgAction::SetTrue)
}

/// The option `-o`: the file or the folder for the output. An empty folder name would make files in
/// the root folder.
pub fn output<'a>(alloc: Global, shown: &'a str) -> Arg<'a>
    ensures rule { rule_of result ≡ words.output }
    ensures local { result.global ≡ false }
{
    Arg::new(alloc, "out")
        .short('o')
        .value_name(shown)
        .required(true)
        .action(ArgAction::Set)
        .value_parser(ValueParser::NonEmptyString)
}

/// Captures, or none.
pub fn any_captures<'a>(alloc: Global) -> Arg<'a>
    ensures rule { rule_of result ≡ words.any_captures }
    ensures local { result.global ≡ false }
{
    Arg::new(alloc, "captures")
        .value_name("CAPTURE")
        .num_args(1..)
        .action(ArgAction::Append)
        .value_parser(ValueParser::NonEmptyString)
}

/// The captures that a command reads.
pub fn captures<'a>(alloc: Global) -> Arg<'a>
    ensures rule { rule_of result ≡ words.captures }
    ensures local { result.global ≡ false }
{
    any_captures(alloc).required(true)
}
