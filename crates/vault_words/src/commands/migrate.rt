//! `migrate FILE`
ghost use Rattle.std.specs.Prelude.{IfOk};
ghost use Rattle.clap.specs.Words.{found_of, rows_of};
ghost use Rattle.vault_words.specs.Commands.Migrate.{AsksMigrate, migrate_app};
ghost use Rattle.vault_words.specs.Rules.{IsApp};
ghost use Rattle.vault_words.specs.WordValues.{Finds};

use crate::args::{self, add};
use crate::values::{self, BadValue};
use clap::{ArgMatches, Command};
use std::alloc::{AllocError, Global};

/// What a file moves to the newest schema with.
#[derive(Clone, Copy)]
pub struct MigrateJob<'a> {
    /// The file of the vault.
    pub file: &'a str,
}

impl<'a> MigrateJob<'a> {
    /// The job that the values of `migrate` ask for.
    pub(crate) fn read(matches: &ArgMatches<'a>) -> Result<MigrateJob<'a>, BadValue<'a>>
        ensures { Finds result (AsksMigrate (rows_of (found_of matches.now))) }
    {
        Ok(MigrateJob {
            file: values::text(matches, "FILE")?,
        })
    }
}

/// The command `migrate`.
pub(crate) fn migrate<'a>(alloc: Global) -> Result<Command<'a>, AllocError>
    ensures { IfOk result (λ c. IsApp c migrate_app) }
{
    let about = "Moves FILE to the newest schema";
    let file = args::text(alloc, "FILE", "The vault's file");
    add(Ok(args::command(alloc, "migrate", about)), file)
}
