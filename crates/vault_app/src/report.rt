//! What the program says of an ending.
ghost use Rattle.std.specs.Prelude.{◌≡◌, ◌++◌, codes, decimal};
ghost use Rattle.vault_wire.specs.Watching.{inner_of, is_stopped};
ghost use Rattle.vault_app.specs.Ending.{Says, cause_line, not_opened_lines, said_on, status_of};
ghost use Rattle.vault_app.specs.Ending.{unfinished_line, unread_line, version_line};
ghost use Rattle.vault_live.specs.Told.{Tells};

use crate::ending::Ending;
use itoa::Buffer;
use std::io::{ErrorKind, Write};
use vault_file::fault::NotOpened;
use vault_jobs::stop::Stop;
use vault_live::subject::Subject;
use vault_live::told::tell;
use vault_recover::unopened::Unopened;
use vault_refusal::refusal::Refusal;
use vault_schema::version::NEWEST;
use vault_wire::watched::Watched;
use vault_words::jobs::VERSION;

/// Writes a line that ends with a number.
fn tell_numbered<W: Write>(writer: &mut Watched<W>, before: &str, number: u8)
    ensures { Tells (W.contents (inner_of writer.old)) (W.contents (inner_of writer.new))
        (is_stopped writer.new) (before.now ++ decimal number ++ codes "\n") }
{
    let mut digits = Buffer::new();
    tell(writer, &[before, digits.format(number), "\n"]);
}

/// Writes a line that ends with a number, and lines behind it.
fn tell_lines<W: Write>(writer: &mut Watched<W>, before: &str, number: u8, behind: &str)
    ensures { Tells (W.contents (inner_of writer.old)) (W.contents (inner_of writer.new))
        (is_stopped writer.new) (before.now ++ decimal number ++ codes "\n" ++ behind.now) }
{
    let mut digits = Buffer::new();
    tell(writer, &[before, digits.format(number), "\n", behind]);
}

/// Writes a line that ends with a number and what goes with it.
fn tell_both<W: Write>(writer: &mut Watched<W>, before: &str, number: u8, detail: &str)
    ensures { Tells (W.contents (inner_of writer.old)) (W.contents (inner_of writer.new))
        (is_stopped writer.new)
        (before.now ++ decimal number ++ (codes " " ++ detail.now) ++ codes "\n") }
{
    let mut digits = Buffer::new();
    tell(writer, &[before, digits.format(number), " ", detail, "\n"]);
}

/// The line that says why the host or the database refuses a file; nothing of another fault.
fn cause(fault: &NotOpened) -> &'static str
    ensures { result.now ≡ cause_line fault.now }
{
    match fault {
        NotOpened::Refused(Unopened::Missing) => "vault: there is no vault in FILE\n",
        NotOpened::Refused(Unopened::Elsewhere) => "vault: another program has FILE open\n",
        NotOpened::Refused(Unopened::Damaged) => "vault: FILE is damaged, or is no database\n",
        NotOpened::Refused(Unopened::Memory) => "vault: memory was refused\n",
        NotOpened::Refused(Unopened::Host) => "vault: FILE or its log can't be opened\n",
        NotOpened::Fault(_) => "",
    }
}

/// Says that a file isn't opened.
fn tell_not_opened<E: Write>(errors: &mut Watched<E>, fault: &NotOpened)
    ensures { Tells (E.contents (inner_of errors.old)) (E.contents (inner_of errors.new))
        (is_stopped errors.new) (not_opened_lines fault.now) }
{
    match fault.detail() {
        None => tell_lines(
            errors,
            "vault: file not opened ",
            fault.refusal().number(),
            cause(fault),
        ),
        Some(detail) => {
            let mut digits = Buffer::new();
            let text = digits.format(detail);
            tell_both(
                errors,
                "vault: file not opened ",
                fault.refusal().number(),
                text,
            );
        }
    }
}

/// Says the program's version, and the newest schema.
fn tell_version<W: Write>(output: &mut Watched<W>)
    ensures { Tells (W.contents (inner_of output.old)) (W.contents (inner_of output.new))
        (is_stopped output.new) version_line }
{
    let mut digits = Buffer::new();
    let schema = digits.format(NEWEST.number());
    tell(output, &["vault ", VERSION, ", schema ", schema, "\n"]);
}

/// The line that says which list isn't whole.
fn unfinished(about: Subject) -> &'static str
    ensures { result.now ≡ unfinished_line about }
{
    match about {
        Subject::Rights => "vault: the last line of RIGHTS is not # end\n",
        Subject::Merchants => "vault: the last line of LIST is not # end\n",
    }
}

/// The line that says which list can't be read; nothing of another stop.
fn unread(stop: Stop) -> &'static str
    ensures { result.now ≡ unread_line stop }
{
    match stop {
        Stop::Unread(_, ErrorKind::OutOfMemory) => "",
        Stop::Unread(Subject::Rights, _) => "vault: RIGHTS can't be read\n",
        Stop::Unread(Subject::Merchants, _) => "vault: LIST can't be read\n",
        _ => "",
    }
}

/// Says how a job ended, and answers the exit status. A line that can't be written changes no status. Behind
/// the line of bad words stands why they are, behind 34 its cause, and behind the stop of a list that can't be
/// read which one it is.
pub(crate) fn report<W: Write, E: Write>(
    ending: &Ending,
    why: &str,
    output: &mut Watched<W>,
    errors: &mut Watched<E>,
) -> u8
    // it is the ending's exit status
    ensures status { result ≡ status_of ending.now }
    // the output says a version or a refusal, the errors any other obstacle, a note, which word is no name or
    // right, or which list isn't whole, unless the writer fails; all else stays
    ensures said { Says why.now ending.now (said_on W.contents output.old output.new)
        (said_on E.contents errors.old errors.new) }
{
    match ending {
        Ending::Done => 0,
        Ending::Noted(note) => {
            tell(errors, &[note.line()]);
            0
        }
        Ending::Version => {
            tell_version(output);
            0
        }
        Ending::Refused(number) => {
            tell_numbered(output, "refused ", *number);
            1
        }
        Ending::Misnamed(placeholder) => {
            tell_numbered(output, "refused ", placeholder.number());
            tell(errors, &[placeholder.line()]);
            1
        }
        Ending::Unfinished(about) => {
            tell_numbered(output, "refused ", Refusal::NotToml.number());
            tell(errors, &[unfinished(*about)]);
            1
        }
        Ending::SomeRefused => 1,
        Ending::BadWords => {
            tell(errors, &["vault: bad words\n", why]);
            2
        }
        Ending::NotOpened(fault) => {
            tell_not_opened(errors, fault);
            3
        }
        Ending::Stopped(stop) => {
            tell_lines(
                errors,
                "vault: stopped ",
                stop.refusal().number(),
                unread(*stop),
            );
            4
        }
    }
}
