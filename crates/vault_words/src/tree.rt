//! The tree of the program's commands, and the job of each of its subcommands.
ghost use Rattle.std.specs.Prelude.{IfOk};
ghost use Rattle.clap.specs.Words.{App, found_of, rows_of, with_subcommand};
ghost use Rattle.vault_words.specs.Commands.{Asks, program_app, root_app};
ghost use Rattle.vault_words.specs.Rules.{IsApp};
ghost use Rattle.vault_words.specs.WordValues.{Finds};

use crate::args::command;
use crate::commands::batch::{BatchJob, batch};
use crate::commands::check::{CheckJob, check};
use crate::commands::list::{ListJob, list};
use crate::commands::merchant::{MerchantJob, merchant};
use crate::commands::merchants::{MerchantsJob, merchants};
use crate::commands::migrate::{MigrateJob, migrate};
use crate::commands::pipe::{PipeJob, pipe};
use crate::commands::rights::{GrantJob, RightJob, grant, withdraw};
use crate::commands::rights_file::{RightsFileJob, rights};
use crate::commands::serve::{ServeJob, serve};
use crate::commands::sweep::{SweepJob, sweep};
use crate::commands::trial::{TrialJob, trial};
use crate::jobs::{Job, VERSION};
use crate::values::BadValue;
use clap::{ArgMatches, Command};
use std::alloc::{AllocError, Global};

/// The subcommands, in their order in help: of each its word, its command, the struct of its values, and its
/// job. The macro that is named makes something of all of them.
macro_rules! subcommands {
    ($make:ident, $($given:ident),+) => {
        $make! {
            $($given),+;
            "trial" trial TrialJob Trial,
            "merchant" merchant MerchantJob Merchant,
            "merchants" merchants MerchantsJob Merchants,
            "grant" grant GrantJob Grant,
            "withdraw" withdraw RightJob Withdraw,
            "rights" rights RightsFileJob Rights,
            "pipe" pipe PipeJob Pipe,
            "batch" batch BatchJob Batch,
            "serve" serve ServeJob Serve,
            "sweep" sweep SweepJob Sweep,
            "list" list ListJob List,
            "check" check CheckJob Check,
            "migrate" migrate MigrateJob Migrate,
        }
    };
}

/// The program's command with these subcommands.
macro_rules! with_each {
    ($alloc:ident; $($word:literal $command:ident $values:ident $job:ident,)+) => {{
        let tree = Ok(root($alloc));
        $(let tree = with(tree, $command($alloc));)+
        tree
    }};
}

/// The job of the one of these subcommands that has this name. The borrow rules don't cover `?` and `map` on
/// most of the structs of values, so it is a `match`.
macro_rules! named {
    ($name:ident, $matches:ident; $($word:literal $command:ident $values:ident $job:ident,)+) => {
        match $name {
            $($word => match $values::read($matches) {
                Ok(job) => Ok(Job::$job(job)),
                Err(fault) => Err(fault),
            },)+
            given => Err(BadValue {
                id: "command",
                given,
                wanted: "a command",
            }),
        }
    };
}

/// The program's command without its subcommands, one of which must be named; it has a version. With no word
/// at all its help is shown.
fn root<'a>(alloc: Global) -> Command<'a>
    ensures { IsApp result root_app }
{
    let about = "Keeps card numbers, and gives tokens for them";
    let named = command(alloc, "vault", about).version(VERSION);
    named.subcommand_required(true).arg_required_else_help(true)
}

/// The command with one more subcommand, where there was memory for both.
fn with<'a>(
    command: Result<Command<'a>, AllocError>,
    subcommand: Result<Command<'a>, AllocError>,
) -> Result<Command<'a>, AllocError>
    ensures { (a s : App) → IfOk command.entry (λ c. IsApp c a)
        → IfOk subcommand.entry (λ c. IsApp c s)
        → IfOk result (λ c. IsApp c (with_subcommand a s.top)) }
{
    command?.subcommand(subcommand?)
}

/// The program's command, of which each word of its own is a subcommand.
pub(crate) fn tree<'a>(alloc: Global) -> Result<Command<'a>, AllocError>
    ensures { IfOk result (λ c. IsApp c program_app) }
{
    subcommands!(with_each, alloc)
}

/// The job of the subcommand of this name.
pub(crate) fn job_of<'a>(name: &'a str, matches: &ArgMatches<'a>) -> Result<Job<'a>, BadValue<'a>>
    ensures { Finds result (Asks name.entry.now (rows_of (found_of matches.now))) }
{
    subcommands!(named, name, matches)
}
