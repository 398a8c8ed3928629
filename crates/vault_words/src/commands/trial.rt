//! `trial [--now T] [--digits D] CALLER MERCHANT LIFE`
ghost use Rattle.std.specs.Prelude.{IfOk};
ghost use Rattle.clap.specs.Words.{found_of, rows_of};
ghost use Rattle.vault_words.specs.Commands.Trial.{AsksTrial, trial_app};
ghost use Rattle.vault_words.specs.Rules.{IsApp};
ghost use Rattle.vault_words.specs.WordValues.{Finds};

use crate::args::{self, add};
use crate::values::{self, BadValue};
use clap::{ArgMatches, Command};
use std::alloc::{AllocError, Global};
use vault_core::moment::Moment;
use vault_pan::draw::Digits;

/// What a trial is asked with.
#[derive(Clone, Copy)]
pub struct TrialJob<'a> {
    /// The moment of each message; the clock's, if there is none.
    pub now: Option<Moment>,
    /// The digits that each message draws; random ones, if there are none.
    pub digits: Option<Digits>,
    /// The caller with all rights.
    pub caller: &'a str,
    /// The one merchant.
    pub merchant: &'a str,
    /// The life of a single-use token, in seconds.
    pub life: u64,
}

impl<'a> TrialJob<'a> {
    /// The job that the values of `trial` ask for.
    pub(crate) fn read(matches: &ArgMatches<'a>) -> Result<TrialJob<'a>, BadValue<'a>>
        ensures { Finds result (AsksTrial (rows_of (found_of matches.now))) }
    {
        Ok(TrialJob {
            now: values::now(matches)?,
            digits: values::digits(matches)?,
            caller: values::text(matches, "CALLER")?,
            merchant: values::text(matches, "MERCHANT")?,
            life: values::life(matches, "LIFE")?,
        })
    }
}

/// The command `trial`.
pub(crate) fn trial<'a>(alloc: Global) -> Result<Command<'a>, AllocError>
    ensures { IfOk result (λ c. IsApp c trial_app) }
{
    let about = "Answers messages from standard input by a vault in memory";
    let caller = args::text(alloc, "CALLER", "The caller, who has all rights");
    let merchant_help = "The one merchant, which has no multi-use tokens";
    let merchant = args::text(alloc, "MERCHANT", merchant_help);
    let life_help = "How many seconds a single-use token lives, up to 3155760000";
    let life = args::number(alloc, "LIFE", life_help);
    let command = add(Ok(args::command(alloc, "trial", about)), args::now(alloc));
    let command = add(command, args::digits(alloc));
    let command = add(command, caller);
    let command = add(command, merchant);
    add(command, life)
}
