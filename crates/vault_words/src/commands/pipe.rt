//! `pipe [--now T] [--digits D] FILE`
ghost use Rattle.std.specs.Prelude.{IfOk};
ghost use Rattle.clap.specs.Words.{found_of, rows_of};
ghost use Rattle.vault_words.specs.Commands.Pipe.{AsksPipe, pipe_app};
ghost use Rattle.vault_words.specs.Rules.{IsApp};
ghost use Rattle.vault_words.specs.WordValues.{Finds};

use crate::args::{self, add};
use crate::values::{self, BadValue};
use clap::{ArgMatches, Command};
use std::alloc::{AllocError, Global};
use vault_core::moment::Moment;
use vault_pan::draw::Digits;

/// What messages from standard input are answered with.
#[derive(Clone, Copy)]
pub struct PipeJob<'a> {
    /// The moment of each message; the clock's, if there is none.
    pub now: Option<Moment>,
    /// The digits that each message draws; random ones, if there are none.
    pub digits: Option<Digits>,
    /// The file of the vault.
    pub file: &'a str,
}

impl<'a> PipeJob<'a> {
    /// The job that the values of `pipe` ask for.
    pub(crate) fn read(matches: &ArgMatches<'a>) -> Result<PipeJob<'a>, BadValue<'a>>
        ensures { Finds result (AsksPipe (rows_of (found_of matches.now))) }
    {
        Ok(PipeJob {
            now: values::now(matches)?,
            digits: values::digits(matches)?,
            file: values::text(matches, "FILE")?,
        })
    }
}

/// The command `pipe`.
pub(crate) fn pipe<'a>(alloc: Global) -> Result<Command<'a>, AllocError>
    ensures { IfOk result (λ c. IsApp c pipe_app) }
{
    let about = "Answers messages from standard input by the vault in FILE";
    let command = add(Ok(args::command(alloc, "pipe", about)), args::now(alloc));
    let command = add(command, args::digits(alloc));
    add(command, args::file(alloc))
}
