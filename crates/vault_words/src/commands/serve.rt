//! `serve [--connections N] [--port P] [--rights RIGHTS] [--merchants LIST] FILE`
ghost use Rattle.std.specs.Prelude.{IfOk};
ghost use Rattle.clap.specs.Words.{found_of, rows_of};
ghost use Rattle.vault_words.specs.Commands.Serve.{AsksServe, serve_app};
ghost use Rattle.vault_words.specs.Rules.{IsApp};
ghost use Rattle.vault_words.specs.WordValues.{Finds};

use crate::args::{self, add};
use crate::values::{self, BadValue};
use clap::{ArgMatches, Command};
use std::alloc::{AllocError, Global};

/// What connections are served with.
#[derive(Clone, Copy)]
pub struct ServeJob<'a> {
    /// After how many connections it ends; none where it goes on until it is ended.
    pub connections: Option<u64>,
    /// The port at which they are taken; 0 is any free one.
    pub port: u16,
    /// The rights file whose rights are the vault's, exactly, before it listens and as it changes; they stay,
    /// if there is none.
    pub rights: Option<&'a str>,
    /// The list of merchants that are set before that, and as it changes; they stay, if there is none.
    pub merchants: Option<&'a str>,
    /// The file of the vault.
    pub file: &'a str,
}

impl<'a> ServeJob<'a> {
    /// The job that the values of `serve` ask for.
    pub(crate) fn read(matches: &ArgMatches<'a>) -> Result<ServeJob<'a>, BadValue<'a>>
        ensures { Finds result (AsksServe (rows_of (found_of matches.now))) }
    {
        Ok(ServeJob {
            connections: values::connections(matches)?,
            port: values::port(matches)?,
            rights: values::maybe_text(matches, "rights"),
            merchants: values::maybe_text(matches, "merchants"),
            file: values::text(matches, "FILE")?,
        })
    }
}

/// What help says of `serve` behind its words.
const NOTES: &str = "\
It listens on 127.0.0.1 alone. The line `listening P` on standard output says
that it does, and P is its port. Connections are served one after the other.
A message has to be whole 5 seconds after its connection was accepted, or after
the answer before it; an answer has to be taken within 5 seconds. A connection
lasts 60 seconds at most. One that is quiet between two messages ends where
another waits.

Lists that are followed are looked at twice a second, between two connections.
A new text that two looks saw is carried out, and a line says so. A bad one
changes nothing. No merchant is removed; a last line `# end` has to stay.";

/// The command `serve`.
pub(crate) fn serve<'a>(alloc: Global) -> Result<Command<'a>, AllocError>
    ensures { IfOk result (λ c. IsApp c serve_app) }
{
    let about = "Answers messages of connections by the vault in FILE";
    let count = "Ends after N connections, 1 to 1000000; else never";
    let connections = args::number_after(alloc, "connections", "N", count);
    let which = "The port, 0 to 65535; 0, any free one, if left out";
    let port = args::number_after(alloc, "port", "P", which);
    let listed = "Makes the rights those of this file, and follows it";
    let rights = args::text_after(alloc, "rights", "RIGHTS", listed);
    let set = "Sets the merchants of this list, and follows it";
    let merchants = args::text_after(alloc, "merchants", "LIST", set);
    let command = Ok(args::with_notes(args::command(alloc, "serve", about), NOTES));
    let command = add(command, connections);
    let command = add(command, port);
    let command = add(command, rights);
    let command = add(command, merchants);
    add(command, args::file(alloc))
}
