//! The arguments that subcommands have, and how a subcommand is made of them.
ghost use Rattle.std.specs.Prelude.{IfOk, codes};
ghost use Rattle.clap.specs.Words.{App, Rule, new_app, with_rule};
ghost use Rattle.vault_words.specs.Rules.{IsApp, IsArg, number_option, number_rule, text_option, text_rule};
ghost use Rattle.vault_words.specs.Rules.{digits_rule, flag_rule, lead_rule, now_rule, until_rule};

use clap::{Arg, ArgAction, Command, value_parser};
use std::alloc::{AllocError, Global};

/// A text that must stand at its place.
pub(crate) fn text<'a>(alloc: Global, id: &'a str, help: &'a str) -> Arg<'a>
    // it is a text that must be there
    ensures { IsArg result (text_rule id.entry.now) }
{
    Arg::new(alloc, id)
        .required(true)
        .action(ArgAction::Set)
        .help(help)
}

/// A whole number that must stand at its place.
pub(crate) fn number<'a>(alloc: Global, id: &'a str, help: &'a str) -> Arg<'a>
    // it is a whole number of 64 bits that must be there
    ensures { IsArg result (number_rule id.entry.now) }
{
    text(alloc, id, help).value_parser(value_parser!(u64))
}

/// A text behind `--` and its name, which may be left out.
pub(crate) fn text_after<'a>(alloc: Global, id: &'a str, value: &'a str, help: &'a str) -> Arg<'a>
    // it is a text behind `--` and its name, or left out
    ensures { IsArg result (text_option id.entry.now) }
{
    text(alloc, id, help)
        .required(false)
        .long(id)
        .value_name(value)
}

/// A whole number behind `--` and its name, which may be left out.
pub(crate) fn number_after<'a>(alloc: Global, id: &'a str, value: &'a str, help: &'a str) -> Arg<'a>
    // it is a whole number of 64 bits behind `--` and its name, or left out
    ensures { IsArg result (number_option id.entry.now) }
{
    text_after(alloc, id, value, help).value_parser(value_parser!(u64))
}

/// A word `--` and its name, which may be left out.
pub(crate) fn flag<'a>(alloc: Global, id: &'a str, help: &'a str) -> Arg<'a>
    // it is the word `--` and its name, or left out
    ensures { IsArg result (flag_rule id.entry.now) }
{
    Arg::new(alloc, id)
        .long(id)
        .action(ArgAction::SetTrue)
        .help(help)
}

/// The moment.
pub(crate) fn now<'a>(alloc: Global) -> Arg<'a>
    // it is `--now` with a whole number of 64 bits, or left out
    ensures { IsArg result now_rule }
{
    let help = "The moment, in seconds since 1970, in place of the clock's";
    number_after(alloc, "now", "T", help)
}

/// The end of a right.
pub(crate) fn until<'a>(alloc: Global) -> Arg<'a>
    // it is `--until` with a whole number of 64 bits, or left out
    ensures { IsArg result until_rule }
{
    let help = "The right's end, in seconds since 1970; none, if left out";
    number_after(alloc, "until", "T", help)
}

/// How many digits masks show at the left, at most.
pub(crate) fn lead<'a>(alloc: Global) -> Arg<'a>
    // it is `--lead` with a whole number of 64 bits, or left out
    ensures { IsArg result lead_rule }
{
    let help = "Most digits at the left of a mask, 6 or 8; 6, if left out";
    number_after(alloc, "lead", "L", help)
}

/// The digits that stand for drawn ones.
pub(crate) fn digits<'a>(alloc: Global) -> Arg<'a>
    // it is `--digits` with a text, or left out
    ensures { IsArg result digits_rule }
{
    let help = "1 to 300 digits, repeated up to 300, in place of drawn ones";
    text_after(alloc, "digits", "D", help)
}

/// The file of a vault.
pub(crate) fn file<'a>(alloc: Global) -> Arg<'a>
    // it is the text FILE, which must be there
    ensures { IsArg result (text_rule (codes "FILE")) }
{
    let help = "The vault's file; it is made if it isn't there";
    text(alloc, "FILE", help)
}

/// A command of this name, without arguments.
pub(crate) fn command<'a>(alloc: Global, name: &'a str, about: &'a str) -> Command<'a>
    ensures { IsApp result (new_app name.entry.now) }
{
    Command::new(alloc, name).about(about)
}

/// The command with notes, which help has behind its words.
pub(crate) fn with_notes<'a>(command: Command<'a>, notes: &'a str) -> Command<'a>
    // to the rules of its words it is the same command
    ensures { (a : App) → IsApp command.entry a → IsApp result a }
{
    command.after_help(notes)
}

/// The command with one more argument, where there was memory for those before it.
pub(crate) fn add<'a>(
    command: Result<Command<'a>, AllocError>,
    arg: Arg<'a>,
) -> Result<Command<'a>, AllocError>
    ensures { (a : App) (rule : Rule) → IfOk command.entry (λ c. IsApp c a) → IsArg arg.entry rule
        → IfOk result (λ c. IsApp c (with_rule a rule)) }
{
    command?.arg(arg)
}
