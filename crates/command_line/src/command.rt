ghost use Rattle.std.specs.Prelude.{◌≡◌, false, IfOk};
ghost use Rattle.clap.specs.Words.{app_of, rule_of};
ghost use Rattle.command_line.specs.Words.{number_option, text_option, the_app, with_files, with_numbers};

use clap::builder::ValueParser;
use clap::{Arg, ArgAction, Command};
use std::alloc::{AllocError, Global};

// An option that takes a value of any text.
fn text_option<'a>(alloc: Global, name: &'a str) -> Arg<'a>
    ensures rule { rule_of result ≡ text_option name.entry.now }
    ensures local { result.global ≡ false }
{
    Arg::new(alloc, name).long(name).action(ArgAction::Set)
}

// An option whose value is a number up to `most`.
fn number_option<'a>(alloc: Global, name: &'a str, most: u64) -> Arg<'a>
    ensures rule { rule_of result ≡ number_option name.entry.now most }
    ensures local { result.global ≡ false }
{
    text_option(alloc, name).value_parser(ValueParser::unsigned(0, most))
}

// With the options that name files.
fn with_files<'a>(alloc: Global, command: Command<'a>) -> Result<Command<'a>, AllocError>
    ensures { IfOk result (λ c. app_of c ≡ with_files (app_of command.entry)) }
{
    command
        .arg(text_option(alloc, "script"))?
        .arg(text_option(alloc, "changes"))?
        .arg(text_option(alloc, "feeds"))?
        .arg(text_option(alloc, "order"))
}

// With the options whose values are numbers.
fn with_numbers<'a>(alloc: Global, command: Command<'a>) -> Result<Command<'a>, AllocError>
    ensures { IfOk result (λ c. app_of c ≡ with_numbers (app_of command.entry)) }
{
    command
        .arg(number_option(alloc, "first", 4294967295))?
        .arg(number_option(alloc, "seed", 18446744073709551615))?
        .arg(number_option(alloc, "lines", 1000000))
}

/// The command with its options. Its lifetime is the words', since a command's matches borrow from both.
pub(crate) fn command<'a>(alloc: Global) -> Result<Command<'a>, AllocError>
    ensures { IfOk result (λ c. app_of c ≡ the_app) }
{
    let command = Command::new(alloc, "dyntab")
        .no_binary_name(true)
        .arg(text_option(alloc, "do"))?;
    with_numbers(alloc, with_files(alloc, command)?)
}
