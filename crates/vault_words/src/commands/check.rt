//! `check FILE`
ghost use Rattle.std.specs.Prelude.{IfOk};
ghost use Rattle.clap.specs.Words.{found_of, rows_of};
ghost use Rattle.vault_words.specs.Commands.Check.{AsksCheck, check_app};
ghost use Rattle.vault_words.specs.Rules.{IsApp};
ghost use Rattle.vault_words.specs.WordValues.{Finds};

use crate::args::{self, add};
use crate::values::{self, BadValue};
use clap::{ArgMatches, Command};
use std::alloc::{AllocError, Global};

/// What a file is checked with.
#[derive(Clone, Copy)]
pub struct CheckJob<'a> {
    /// The file of the vault.
    pub file: &'a str,
}

impl<'a> CheckJob<'a> {
    /// The job that the values of `check` ask for.
    pub(crate) fn read(matches: &ArgMatches<'a>) -> Result<CheckJob<'a>, BadValue<'a>>
        ensures { Finds result (AsksCheck (rows_of (found_of matches.now))) }
    {
        Ok(CheckJob {
            file: values::text(matches, "FILE")?,
        })
    }
}

/// The command `check`.
pub(crate) fn check<'a>(alloc: Global) -> Result<Command<'a>, AllocError>
    ensures { IfOk result (λ c. IsApp c check_app) }
{
    let about = "Checks that FILE holds a sound vault";
    let file = args::text(alloc, "FILE", "The vault's file");
    add(Ok(args::command(alloc, "check", about)), file)
}
