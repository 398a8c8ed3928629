//! `sweep [--now T] FILE CALLER MERCHANT`
ghost use Rattle.std.specs.Prelude.{IfOk};
ghost use Rattle.clap.specs.Words.{found_of, rows_of};
ghost use Rattle.vault_words.specs.Commands.Sweep.{AsksSweep, sweep_app};
ghost use Rattle.vault_words.specs.Rules.{IsApp};
ghost use Rattle.vault_words.specs.WordValues.{Finds};

use crate::args::{self, add};
use crate::values::{self, BadValue};
use clap::{ArgMatches, Command};
use std::alloc::{AllocError, Global};
use vault_core::moment::Moment;

/// What the numbers of dead tokens are purged with.
#[derive(Clone, Copy)]
pub struct SweepJob<'a> {
    /// The moment of all purges; the clock's, if there is none.
    pub now: Option<Moment>,
    /// The file of the vault.
    pub file: &'a str,
    /// The caller who purges.
    pub caller: &'a str,
    /// The merchant whose tokens they are.
    pub merchant: &'a str,
}

impl<'a> SweepJob<'a> {
    /// The job that the values of `sweep` ask for.
    pub(crate) fn read(matches: &ArgMatches<'a>) -> Result<SweepJob<'a>, BadValue<'a>>
        ensures { Finds result (AsksSweep (rows_of (found_of matches.now))) }
    {
        Ok(SweepJob {
            now: values::now(matches)?,
            file: values::text(matches, "FILE")?,
            caller: values::text(matches, "CALLER")?,
            merchant: values::text(matches, "MERCHANT")?,
        })
    }
}

/// What help says of `sweep` behind its words.
const NOTES: &str = "\
A token is dead once it is revoked or has expired. Its card number is purged
for good, and the token stays taken. All are purged at one moment, to the
first that is refused. The line `purged N` on standard output says how many
were purged. Without --now nothing is purged where the merchant's moment is
over a day ahead of the clock.";

/// The command `sweep`.
pub(crate) fn sweep<'a>(alloc: Global) -> Result<Command<'a>, AllocError>
    ensures { IfOk result (λ c. IsApp c sweep_app) }
{
    let about = "Purges the card numbers of a merchant's dead tokens";
    let caller = args::text(alloc, "CALLER", "The caller who purges");
    let merchant = args::text(alloc, "MERCHANT", "The merchant whose tokens they are");
    let command = Ok(args::with_notes(args::command(alloc, "sweep", about), NOTES));
    let command = add(command, args::now(alloc));
    let command = add(command, args::file(alloc));
    let command = add(command, caller);
    add(command, merchant)
}
