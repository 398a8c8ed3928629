//! The values that a subcommand was given.
ghost use Rattle.std.specs.Prelude.{IsTrue, option_map, ◌↔◌};
ghost use Rattle.clap.specs.Words.{found_of, rows_of};
ghost use Rattle.vault_words.specs.WordValues.{Finds, HasConnections, HasDigits, HasFlag, HasLead, HasLife};
ghost use Rattle.vault_words.specs.WordValues.{HasMaybeText, HasMoment};
ghost use Rattle.vault_words.specs.WordValues.{HasNow, HasNumber, HasPort, HasText, HasUntil, IsLeftOut};

use crate::digits::drawn;
use clap::ArgMatches;
use vault_core::limit::LONGEST_LIFE;
use vault_core::moment::Moment;
use vault_pan::draw::Digits;
use vault_pan::lead::Lead;

/// The most connections that a service can be asked for.
const MOST_CONNECTIONS: u64 = 1_000_000;

/// A value is missing, or isn't one that the job takes.
#[derive(Clone, Copy)]
pub(crate) struct BadValue<'a> {
    /// The name that it has.
    pub id: &'a str,
    /// Its text, which is empty where it is missing.
    pub given: &'a str,
    /// What is wanted in its place.
    pub wanted: &'a str,
}

/// The value of this name isn't what is wanted.
fn bad<'a>(matches: &ArgMatches<'a>, id: &'a str, wanted: &'a str) -> BadValue<'a> {
    let given = matches.get_str(id).unwrap_or("");
    BadValue { id, given, wanted }
}

/// The text of this name.
pub(crate) fn text<'a>(matches: &ArgMatches<'a>, id: &'a str) -> Result<&'a str, BadValue<'a>>
    ensures { Finds result (λ text. HasText (rows_of (found_of matches.now)) id.entry.now text.now) }
{
    matches.get_str(id).ok_or(bad(matches, id, "there"))
}

/// The text of this name, if it is there.
pub(crate) fn maybe_text<'a>(matches: &ArgMatches<'a>, id: &str) -> Option<&'a str>
    ensures { HasMaybeText (rows_of (found_of matches.now)) id.now (option_map (λ text. text.now) result) }
{
    matches.get_str(id)
}

/// Whether the flag of this name is there.
pub(crate) fn flag(matches: &ArgMatches<'_>, id: &str) -> bool
    ensures { HasFlag (rows_of (found_of matches.now)) id.now result }
{
    match matches.get_str(id) {
        Some(text) => text == "true",
        None => false,
    }
}

/// Whether there is no value of this name.
fn is_left_out(matches: &ArgMatches<'_>, id: &str) -> bool
    ensures { IsTrue result ↔ IsLeftOut (rows_of (found_of matches.now)) id.now }
{
    matches.get_str(id).is_none()
}

/// The whole number of this name.
fn number<'a>(matches: &ArgMatches<'a>, id: &'a str) -> Result<u64, BadValue<'a>>
    ensures { Finds result (HasNumber (rows_of (found_of matches.now)) id.entry.now) }
{
    matches
        .get_one(id)
        .ok_or(bad(matches, id, "a whole number"))
}

/// The life of this name, in seconds.
pub(crate) fn life<'a>(matches: &ArgMatches<'a>, id: &'a str) -> Result<u64, BadValue<'a>>
    ensures { Finds result (HasLife (rows_of (found_of matches.now)) id.entry.now) }
{
    let life = number(matches, id)?;
    if life > LONGEST_LIFE {
        return Err(bad(matches, id, "a life in seconds, of a hundred years at most"));
    }
    Ok(life)
}

/// The moment of this name, if it is there.
fn moment<'a>(matches: &ArgMatches<'a>, id: &'a str) -> Result<Option<Moment>, BadValue<'a>>
    ensures { Finds result (HasMoment (rows_of (found_of matches.now)) id.entry.now) }
{
    if is_left_out(matches, id) {
        return Ok(None);
    }
    match Moment::new(number(matches, id)?) {
        Ok(moment) => Ok(Some(moment)),
        Err(_) => Err(bad(matches, id, "a time in Unix seconds")),
    }
}

/// The moment that `--now` gives, if it is there.
pub(crate) fn now<'a>(matches: &ArgMatches<'a>) -> Result<Option<Moment>, BadValue<'a>>
    ensures { Finds result (HasNow (rows_of (found_of matches.now))) }
{
    moment(matches, "now")
}

/// The end of a right that `--until` gives, if it is there.
pub(crate) fn until<'a>(matches: &ArgMatches<'a>) -> Result<Option<Moment>, BadValue<'a>>
    ensures { Finds result (HasUntil (rows_of (found_of matches.now))) }
{
    moment(matches, "until")
}

/// The lead that `--lead` gives, or six, where it isn't there.
pub(crate) fn lead<'a>(matches: &ArgMatches<'a>) -> Result<Lead, BadValue<'a>>
    ensures { Finds result (HasLead (rows_of (found_of matches.now))) }
{
    if is_left_out(matches, "lead") {
        return Ok(Lead::Six);
    }
    match Lead::of(number(matches, "lead")?) {
        Some(lead) => Ok(lead),
        None => Err(bad(matches, "lead", "a number of digits that a mask may show")),
    }
}

/// The digits that `--digits` gives, if it is there.
pub(crate) fn digits<'a>(matches: &ArgMatches<'a>) -> Result<Option<Digits>, BadValue<'a>>
    ensures { Finds result (HasDigits (rows_of (found_of matches.now))) }
{
    let Some(text) = matches.get_str("digits") else {
        return Ok(None);
    };
    match drawn(text.as_bytes()) {
        Some(digits) => Ok(Some(digits)),
        None => Err(bad(matches, "digits", "a text of one to three hundred digits")),
    }
}

/// How many connections `--connections` gives, if it is there.
pub(crate) fn connections<'a>(matches: &ArgMatches<'a>) -> Result<Option<u64>, BadValue<'a>>
    ensures { Finds result (HasConnections (rows_of (found_of matches.now))) }
{
    if is_left_out(matches, "connections") {
        return Ok(None);
    }
    let count = number(matches, "connections")?;
    if count == 0 || count > MOST_CONNECTIONS {
        return Err(bad(matches, "connections", "a number of one to a million"));
    }
    Ok(Some(count))
}

/// The port that `--port` gives, or 0, any free one, where it isn't there.
pub(crate) fn port<'a>(matches: &ArgMatches<'a>) -> Result<u16, BadValue<'a>>
    ensures { Finds result (HasPort (rows_of (found_of matches.now))) }
{
    if is_left_out(matches, "port") {
        return Ok(0);
    }
    match u16::try_from(number(matches, "port")?) {
        Ok(port) => Ok(port),
        Err(_) => Err(bad(matches, "port", "a port")),
    }
}
