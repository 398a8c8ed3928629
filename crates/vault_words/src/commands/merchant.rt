//! `merchant [--now T] [--lead L] FILE NAME SINGLE MULTI`
ghost use Rattle.std.specs.Prelude.{◌≡◌, IfOk};
ghost use Rattle.clap.specs.Words.{found_of, rows_of};
ghost use Rattle.vault_words.specs.Commands.Merchant.{AsksMerchant, lives_asked, merchant_app};
ghost use Rattle.vault_words.specs.Rules.{IsApp};
ghost use Rattle.vault_words.specs.WordValues.{Finds};

use crate::args::{self, add};
use crate::values::{self, BadValue};
use clap::{ArgMatches, Command};
use std::alloc::{AllocError, Global};
use vault_core::moment::Moment;
use vault_core::row::Lives;
use vault_pan::lead::Lead;

/// What a merchant's lives and its lead are set with.
#[derive(Clone, Copy)]
pub struct MerchantJob<'a> {
    /// The moment; the clock's, if there is none.
    pub now: Option<Moment>,
    /// How many digits its masks show at the left, at most; six, if none is given.
    pub lead: Lead,
    /// The file of the vault.
    pub file: &'a str,
    /// The merchant.
    pub name: &'a str,
    /// The life of a single-use token, in seconds; 0 offers none.
    pub single_life: u64,
    /// The life of a multi-use token, in seconds; 0 offers none.
    pub multi_life: u64,
}

impl<'a> MerchantJob<'a> {
    /// What the merchant is set to, at a moment.
    pub fn lives(&self, now: Moment) -> Lives
        ensures { result ≡ lives_asked self.entry.now now }
    {
        Lives {
            single_life: self.single_life,
            multi_life: self.multi_life,
            moment: now,
            lead: self.lead,
        }
    }

    /// The job that the values of `merchant` ask for.
    pub(crate) fn read(matches: &ArgMatches<'a>) -> Result<MerchantJob<'a>, BadValue<'a>>
        ensures { Finds result (AsksMerchant (rows_of (found_of matches.now))) }
    {
        Ok(MerchantJob {
            now: values::now(matches)?,
            lead: values::lead(matches)?,
            file: values::text(matches, "FILE")?,
            name: values::text(matches, "NAME")?,
            single_life: values::life(matches, "SINGLE")?,
            multi_life: values::life(matches, "MULTI")?,
        })
    }
}

/// What help says of `merchant` behind its words.
const NOTES: &str = "\
No token lives longer than 3155760000 seconds, 100 years. A mask shows a card
number's last four digits, and at the left up to 6 of those before the last
ten, or with --lead 8 up to 8 of those before the last eight.";

/// The command `merchant`.
pub(crate) fn merchant<'a>(alloc: Global) -> Result<Command<'a>, AllocError>
    ensures { IfOk result (λ c. IsApp c merchant_app) }
{
    let about = "Sets how long a merchant's tokens live, and what its masks show";
    let name = args::text(alloc, "NAME", "The merchant");
    let single_help = "How many seconds a single-use token lives; 0 offers none";
    let single = args::number(alloc, "SINGLE", single_help);
    let multi_help = "How many seconds a multi-use token lives; 0 offers none";
    let multi = args::number(alloc, "MULTI", multi_help);
    let command = Ok(args::with_notes(args::command(alloc, "merchant", about), NOTES));
    let command = add(command, args::now(alloc));
    let command = add(command, args::lead(alloc));
    let command = add(command, args::file(alloc));
    let command = add(command, name);
    let command = add(command, single);
    add(command, multi)
}
