//! `rights [--now T] [--exact] [--dry-run] FILE RIGHTS`
ghost use Rattle.std.specs.Prelude.{IfOk};
ghost use Rattle.clap.specs.Words.{found_of, rows_of};
ghost use Rattle.vault_words.specs.Commands.RightsFile.{AsksRights, rights_app};
ghost use Rattle.vault_words.specs.Rules.{IsApp};
ghost use Rattle.vault_words.specs.WordValues.{Finds};

use crate::args::{self, add};
use crate::values::{self, BadValue};
use clap::{ArgMatches, Command};
use std::alloc::{AllocError, Global};
use vault_core::moment::Moment;

/// What the rights of a rights file are granted with.
#[derive(Clone, Copy)]
pub struct RightsFileJob<'a> {
    /// The moment; the clock's, if there is none.
    pub now: Option<Moment>,
    /// Whether the rights that the file doesn't list are withdrawn.
    pub exact: bool,
    /// Whether what would change is only said.
    pub dry_run: bool,
    /// The file of the vault.
    pub file: &'a str,
    /// The rights file, whose text is TOML.
    pub rights: &'a str,
}

impl<'a> RightsFileJob<'a> {
    /// The job that the values of `rights` ask for.
    pub(crate) fn read(matches: &ArgMatches<'a>) -> Result<RightsFileJob<'a>, BadValue<'a>>
        ensures { Finds result (AsksRights (rows_of (found_of matches.now))) }
    {
        Ok(RightsFileJob {
            now: values::now(matches)?,
            exact: values::flag(matches, "exact"),
            dry_run: values::flag(matches, "dry-run"),
            file: values::text(matches, "FILE")?,
            rights: values::text(matches, "RIGHTS")?,
        })
    }
}

/// What help says of `rights` behind its words.
const NOTES: &str = "\
A rights file has a table for each caller, and in it for each merchant the
rights that the caller gets there. An item is a right's word, which gives it
for good, or a table with its word and its end, in seconds since 1970:

  [till-1]
  shop1 = [\"tokenize\", { right = \"view\", until = 1893456000 }]

The words are tokenize, detokenize, view, revoke, purge and audit. Of a right
that is listed twice the latest end counts, and to have none is the latest.";

/// The command `rights`.
pub(crate) fn rights<'a>(alloc: Global) -> Result<Command<'a>, AllocError>
    ensures { IfOk result (λ c. IsApp c rights_app) }
{
    let about = "Grants what a rights file lists";
    let exact = args::flag(alloc, "exact", "Withdraws the rights that it doesn't list");
    let dry_run = args::flag(
        alloc,
        "dry-run",
        "Says what would change, and changes nothing",
    );
    let listed = args::text(alloc, "RIGHTS", "The rights file, in TOML");
    let command = Ok(args::with_notes(args::command(alloc, "rights", about), NOTES));
    let command = add(command, args::now(alloc));
    let command = add(command, exact);
    let command = add(command, dry_run);
    let command = add(command, args::file(alloc));
    add(command, listed)
}
