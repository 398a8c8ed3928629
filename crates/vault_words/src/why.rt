//! Why words ask for no job, in lines for people.
ghost use Rattle.std.specs.Prelude.{◌≡◌, filter, length, string_bytes};
ghost use Rattle.std.specs.Char.{is_ascii_digit};
ghost use Rattle.vault_words.specs.Why.{HasFewDigits};

use crate::values::BadValue;
use clap::Error;
use clap::error::ErrorKind;
use std::alloc::{AllocError, Global};

/// The most digits that are shown: a card number has more.
const MOST_DIGITS: usize = 9;

/// How many digits are in a text.
fn digits_in(text: &[u8]) -> usize
    ensures { result ≡ length (filter is_ascii_digit text.now) }
{
    let mut digits = 0;
    for byte in text {
        if byte.is_ascii_digit() {
            digits += 1;
        }
    }
    digits
}

/// The text, where it shows few digits; else an empty one, as where there was no memory for it.
fn shown(alloc: Global, text: Result<String, AllocError>) -> String
    // it shows fewer than ten digits, too few for a card number
    ensures { HasFewDigits (string_bytes result) }
{
    match text {
        Ok(text) if digits_in(text.as_bytes()) <= MOST_DIGITS => text,
        _ => String::new(alloc),
    }
}

/// A line that names a value, says what was given, and what is wanted.
fn value_line(alloc: Global, value: &BadValue<'_>) -> Result<String, AllocError> {
    let name = value.id.to_ascii_uppercase(alloc)?;
    let (given, wanted) = (value.given, value.wanted);
    format!(in alloc; "{name}: {given} isn't {wanted}\n")
}

/// What is wrong with a value.
pub(crate) fn of_value(alloc: Global, value: &BadValue<'_>) -> String
    // it shows fewer than ten digits, too few for a card number
    ensures { HasFewDigits (string_bytes result) }
{
    shown(alloc, value_line(alloc, value))
}

/// The first lines of a text, up to an empty one.
fn first_lines(alloc: Global, text: &str) -> Result<String, AllocError> {
    let mut lines = String::new(alloc);
    for line in text.lines().take_while(|line| !line.is_empty()) {
        lines.push_str(line)?;
        lines.push_str("\n")?;
    }
    Ok(lines)
}

/// What the parser of the words says: help, where there was nothing but the program's name; else what it
/// found.
fn error_lines(alloc: Global, error: &Error) -> Result<String, AllocError> {
    let text = error.to_string(alloc)?;
    match error.kind() {
        ErrorKind::DisplayHelpOnMissingArgumentOrSubcommand => Ok(text),
        _ => first_lines(alloc, text.as_str().trim_start_matches("error: ")),
    }
}

/// What is wrong with the words.
pub(crate) fn of_error(alloc: Global, error: &Error) -> String
    // it shows fewer than ten digits, too few for a card number
    ensures { HasFewDigits (string_bytes result) }
{
    shown(alloc, error_lines(alloc, error))
}
