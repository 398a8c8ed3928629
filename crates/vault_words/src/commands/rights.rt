//! `grant [--now T] [--until T] FILE CALLER MERCHANT RIGHT`, and `withdraw`, which has no `--until`
ghost use Rattle.std.specs.Prelude.{IfOk};
ghost use Rattle.clap.specs.Words.{App, found_of, rows_of};
ghost use Rattle.vault_words.specs.Commands.Rights.{AsksGrant, AsksRight};
ghost use Rattle.vault_words.specs.Commands.Rights.{grant_app, right_rules, withdraw_app};
ghost use Rattle.vault_words.specs.Rules.{IsApp, with_rules};
ghost use Rattle.vault_words.specs.WordValues.{Finds};

use crate::args::{self, add};
use crate::values::{self, BadValue};
use clap::{ArgMatches, Command};
use std::alloc::{AllocError, Global};
use vault_core::moment::Moment;

/// What a right is given or taken away with, but for its end.
#[derive(Clone, Copy)]
pub struct RightJob<'a> {
    /// The moment; the clock's, if there is none.
    pub now: Option<Moment>,
    /// The file of the vault.
    pub file: &'a str,
    /// The caller.
    pub caller: &'a str,
    /// The merchant at which the right holds.
    pub merchant: &'a str,
    /// The right's word.
    pub right: &'a str,
}

impl<'a> RightJob<'a> {
    /// The job that the values of `withdraw` ask for, and those of `grant` but for `--until`.
    pub(crate) fn read(matches: &ArgMatches<'a>) -> Result<RightJob<'a>, BadValue<'a>>
        ensures { Finds result (AsksRight (rows_of (found_of matches.now))) }
    {
        Ok(RightJob {
            now: values::now(matches)?,
            file: values::text(matches, "FILE")?,
            caller: values::text(matches, "CALLER")?,
            merchant: values::text(matches, "MERCHANT")?,
            right: values::text(matches, "RIGHT")?,
        })
    }
}

/// What a right is given with.
#[derive(Clone, Copy)]
pub struct GrantJob<'a> {
    /// Whose right at which merchant, in which file and when.
    pub given: RightJob<'a>,
    /// The first moment at which the caller doesn't have the right any more; it has no end, if there is none.
    pub until: Option<Moment>,
}

impl<'a> GrantJob<'a> {
    /// The job that the values of `grant` ask for.
    pub(crate) fn read(matches: &ArgMatches<'a>) -> Result<GrantJob<'a>, BadValue<'a>>
        ensures { Finds result (AsksGrant (rows_of (found_of matches.now))) }
    {
        let until = values::until(matches)?;
        match RightJob::read(matches) {
            Ok(given) => Ok(GrantJob { given, until }),
            Err(fault) => Err(fault),
        }
    }
}

/// The command with the words of a right behind those that it has.
fn on_right<'a>(
    alloc: Global,
    command: Result<Command<'a>, AllocError>,
) -> Result<Command<'a>, AllocError>
    ensures { (a : App) → IfOk command.entry (λ c. IsApp c a)
        → IfOk result (λ c. IsApp c (with_rules a right_rules)) }
{
    let caller = args::text(alloc, "CALLER", "The caller");
    let merchant = args::text(alloc, "MERCHANT", "The merchant at which the right holds");
    let words = "tokenize, detokenize, view, revoke, purge or audit";
    let right = args::text(alloc, "RIGHT", words);
    let command = add(command, args::file(alloc));
    let command = add(command, caller);
    let command = add(command, merchant);
    add(command, right)
}

/// What help says of `grant` behind its words.
const NOTES: &str = "\
The caller has the right up to its end, and not at it. A right that is there
already gets the new end, or none, in place of its own.";

/// The command `grant`.
pub(crate) fn grant<'a>(alloc: Global) -> Result<Command<'a>, AllocError>
    ensures { IfOk result (λ c. IsApp c grant_app) }
{
    let about = "Gives a caller a right at a merchant";
    let command = Ok(args::with_notes(args::command(alloc, "grant", about), NOTES));
    let command = add(command, args::now(alloc));
    let command = add(command, args::until(alloc));
    on_right(alloc, command)
}

/// The command `withdraw`.
pub(crate) fn withdraw<'a>(alloc: Global) -> Result<Command<'a>, AllocError>
    ensures { IfOk result (λ c. IsApp c withdraw_app) }
{
    let about = "Takes a right at a merchant from a caller";
    let command = Ok(args::command(alloc, "withdraw", about));
    let command = add(command, args::now(alloc));
    on_right(alloc, command)
}
