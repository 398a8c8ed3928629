//! The job that words ask for.
ghost use Rattle.std.specs.Prelude.{MatchResult, map};
ghost use Rattle.clap.specs.Words.{kind_of, subcommand_rows_of};
ghost use Rattle.vault_words.specs.Commands.{program_app};
ghost use Rattle.vault_words.specs.Jobs.{AsksBy, Explains, IsAsked, StandsFor};
ghost use Rattle.vault_words.specs.WordValues.{Finds};

use crate::jobs::{Job, JobFault};
use crate::tree::{job_of, tree};
use crate::values::BadValue;
use crate::why;
use clap::error::ErrorKind;
use clap::{ArgMatches, Error};
use std::alloc::Global;
use std::convert::AsStr;

/// The job of the subcommand that was met.
fn asked_by<'a>(matches: &ArgMatches<'a>) -> Result<Job<'a>, BadValue<'a>>
    ensures { Finds result (AsksBy (subcommand_rows_of matches.now)) }
{
    match matches.subcommand() {
        Some((name, given)) => job_of(name, given),
        None => Err(BadValue {
            id: "command",
            given: "",
            wanted: "a command",
        }),
    }
}

/// What a refusal of the words comes to.
fn fault_of(alloc: Global, error: &Error) -> JobFault
    // help or the version where its kind is that, Memory where it is want of memory or help, else bad words
    // in few digits
    ensures { StandsFor (kind_of error.now) result }
{
    match error.kind() {
        ErrorKind::OutOfMemory => JobFault::Memory,
        ErrorKind::DisplayHelp => match error.to_string(alloc) {
            Ok(text) => JobFault::Help(text),
            Err(_) => JobFault::Memory,
        },
        ErrorKind::DisplayVersion => JobFault::Version,
        _ => JobFault::BadWords(why::of_error(alloc, error)),
    }
}

/// The job that words ask for. The first of them is the program's name, as in `env::args`.
pub fn job<'a, S: AsStr>(alloc: Global, words: &'a [S]) -> Result<Job<'a>, JobFault>
    // Ok is the job that the words ask for; Err says why they ask for none, or that memory was refused
    ensures { MatchResult result
        (IsAsked program_app (map S.text words.now))
        (Explains program_app (map S.text words.now)) }
{
    let Ok(tree) = tree(alloc) else {
        return Err(JobFault::Memory);
    };
    match tree.try_get_matches_from(words) {
        Ok(matches) => match asked_by(&matches) {
            Ok(job) => Ok(job),
            Err(value) => Err(JobFault::BadWords(why::of_value(alloc, &value))),
        },
        Err(error) => Err(fault_of(alloc, &error)),
    }
}
