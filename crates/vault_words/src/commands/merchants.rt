//! `merchants [--now T] [--dry-run] FILE LIST`
ghost use Rattle.std.specs.Prelude.{IfOk};
ghost use Rattle.clap.specs.Words.{found_of, rows_of};
ghost use Rattle.vault_words.specs.Commands.Merchants.{AsksMerchants, merchants_app};
ghost use Rattle.vault_words.specs.Rules.{IsApp};
ghost use Rattle.vault_words.specs.WordValues.{Finds};

use crate::args::{self, add};
use crate::values::{self, BadValue};
use clap::{ArgMatches, Command};
use std::alloc::{AllocError, Global};
use vault_core::moment::Moment;

/// What the merchants of a list are set with.
#[derive(Clone, Copy)]
pub struct MerchantsJob<'a> {
    /// The moment; the clock's, if there is none.
    pub now: Option<Moment>,
    /// Whether what would change is only said.
    pub dry_run: bool,
    /// The file of the vault.
    pub file: &'a str,
    /// The list of merchants, whose text is TOML.
    pub list: &'a str,
}

impl<'a> MerchantsJob<'a> {
    /// The job that the values of `merchants` ask for.
    pub(crate) fn read(matches: &ArgMatches<'a>) -> Result<MerchantsJob<'a>, BadValue<'a>>
        ensures { Finds result (AsksMerchants (rows_of (found_of matches.now))) }
    {
        Ok(MerchantsJob {
            now: values::now(matches)?,
            dry_run: values::flag(matches, "dry-run"),
            file: values::text(matches, "FILE")?,
            list: values::text(matches, "LIST")?,
        })
    }
}

/// What help says of `merchants` behind its words.
const NOTES: &str = "\
A list of merchants has a table for each: how many seconds its single-use and
its multi-use tokens live, where 0 offers none; perhaps how many digits masks
show at the left, 6 or 8; and perhaps who purges dead tokens under `serve`:

  [shop1]
  single = 86400
  multi = 31536000
  lead = 8
  sweep = \"back\"

Merchants that it doesn't have stay as they are.";

/// The command `merchants`.
pub(crate) fn merchants<'a>(alloc: Global) -> Result<Command<'a>, AllocError>
    ensures { IfOk result (λ c. IsApp c merchants_app) }
{
    let about = "Sets the merchants that a list has";
    let dry_run = args::flag(
        alloc,
        "dry-run",
        "Says what would change, and changes nothing",
    );
    let list = args::text(alloc, "LIST", "The list of merchants, in TOML");
    let command = Ok(args::with_notes(args::command(alloc, "merchants", about), NOTES));
    let command = add(command, args::now(alloc));
    let command = add(command, dry_run);
    let command = add(command, args::file(alloc));
    add(command, list)
}
