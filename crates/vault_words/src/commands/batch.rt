//! `batch [--now T] [--digits D] FILE CALLER MERCHANT`
ghost use Rattle.std.specs.Prelude.{IfOk};
ghost use Rattle.clap.specs.Words.{found_of, rows_of};
ghost use Rattle.vault_words.specs.Commands.Batch.{AsksBatch, batch_app};
ghost use Rattle.vault_words.specs.Rules.{IsApp};
ghost use Rattle.vault_words.specs.WordValues.{Finds};

use crate::args::{self, add};
use crate::values::{self, BadValue};
use clap::{ArgMatches, Command};
use std::alloc::{AllocError, Global};
use vault_core::moment::Moment;
use vault_pan::draw::Digits;

/// What a batch from standard input is answered with.
#[derive(Clone, Copy)]
pub struct BatchJob<'a> {
    /// The moment of each row; the clock's, if there is none.
    pub now: Option<Moment>,
    /// The digits that each row draws; random ones, if there are none.
    pub digits: Option<Digits>,
    /// The file of the vault.
    pub file: &'a str,
    /// The caller who asks for the tokens.
    pub caller: &'a str,
    /// The merchant for which the tokens are.
    pub merchant: &'a str,
}

impl<'a> BatchJob<'a> {
    /// The job that the values of `batch` ask for.
    pub(crate) fn read(matches: &ArgMatches<'a>) -> Result<BatchJob<'a>, BadValue<'a>>
        ensures { Finds result (AsksBatch (rows_of (found_of matches.now))) }
    {
        Ok(BatchJob {
            now: values::now(matches)?,
            digits: values::digits(matches)?,
            file: values::text(matches, "FILE")?,
            caller: values::text(matches, "CALLER")?,
            merchant: values::text(matches, "MERCHANT")?,
        })
    }
}

/// What help says of `batch` behind its words.
const NOTES: &str = "\
The first line is `request,number,use`, and each row after it is a request
number, a card number, and single or multi. The answer's first line is
`request,answer,detail`. A row is answered by its request number, the token
and the moment at which it expires, in seconds since 1970; or by its request
number, `refused` and the number of the refusal.";

/// The command `batch`.
pub(crate) fn batch<'a>(alloc: Global) -> Result<Command<'a>, AllocError>
    ensures { IfOk result (λ c. IsApp c batch_app) }
{
    let about = "Answers a CSV batch on standard input with tokens";
    let caller = args::text(alloc, "CALLER", "The caller who asks for the tokens");
    let merchant_help = "The merchant for which the tokens are";
    let merchant = args::text(alloc, "MERCHANT", merchant_help);
    let command = Ok(args::with_notes(args::command(alloc, "batch", about), NOTES));
    let command = add(command, args::now(alloc));
    let command = add(command, args::digits(alloc));
    let command = add(command, args::file(alloc));
    let command = add(command, caller);
    add(command, merchant)
}
