//! `list [--json] FILE`
ghost use Rattle.std.specs.Prelude.{IfOk};
ghost use Rattle.clap.specs.Words.{found_of, rows_of};
ghost use Rattle.vault_words.specs.Commands.Listing.{AsksList, list_app};
ghost use Rattle.vault_words.specs.Rules.{IsApp};
ghost use Rattle.vault_words.specs.WordValues.{Finds};

use crate::args::{self, add};
use crate::values::{self, BadValue};
use clap::{ArgMatches, Command};
use std::alloc::{AllocError, Global};

/// What the merchants and the rights of a file are listed with.
#[derive(Clone, Copy)]
pub struct ListJob<'a> {
    /// Whether each line is a JSON object.
    pub json: bool,
    /// The file of the vault.
    pub file: &'a str,
}

impl<'a> ListJob<'a> {
    /// The job that the values of `list` ask for.
    pub(crate) fn read(matches: &ArgMatches<'a>) -> Result<ListJob<'a>, BadValue<'a>>
        ensures { Finds result (AsksList (rows_of (found_of matches.now))) }
    {
        Ok(ListJob {
            json: values::flag(matches, "json"),
            file: values::text(matches, "FILE")?,
        })
    }
}

/// What help says of `list` behind its words.
const NOTES: &str = "\
A line for each merchant, in the order of their names: its lives in seconds,
how many digits its masks show at the left, the moment of its last change, and
how many tokens were made and numbers given and denied. Then a line for each
right, by caller, merchant and right. No card number and no token is shown.";

/// The command `list`.
pub(crate) fn list<'a>(alloc: Global) -> Result<Command<'a>, AllocError>
    ensures { IfOk result (λ c. IsApp c list_app) }
{
    let about = "Lists the merchants and the rights that FILE holds";
    let json = args::flag(alloc, "json", "A JSON object a line");
    let file = args::text(alloc, "FILE", "The vault's file, which has to be there");
    let command = Ok(args::with_notes(args::command(alloc, "list", about), NOTES));
    let command = add(command, json);
    add(command, file)
}
