//! Texts that show digits.
ghost use Rattle.std.specs.Prelude.{◌≡◌, ◌<◌, ◌≤◌, ◌↔◌, length, IsTrue, MatchOption, All};
ghost use Rattle.std.specs.Char.{IsAsciiDigit};
ghost use Rattle.vault_pan.specs.CardText.{HasDigit, Separates, IsCardText, digits_of};

use crate::pan::MOST_DIGITS;
use crate::short::Short;

/// Whether a digit stands at index `i`.
fn has_digit(text: &[u8], i: usize) -> bool
    ensures { IsTrue result ↔ HasDigit text.now i }
{
    i < text.len() && text[i].is_ascii_digit()
}

/// Whether a space or a hyphen between two digits stands at index `i`.
fn separates(text: &[u8], i: usize) -> bool
    // the index is within the text
    requires { i < length text.now }
    // it is true exactly where one stands there with a digit on either side
    ensures { IsTrue result ↔ Separates text.now i }
{
    (text[i] == b' ' || text[i] == b'-')
        && i > 0
        && has_digit(text, i - 1)
        && has_digit(text, i + 1)
}

/// The digits of a card text, where they are at most 19.
pub(crate) fn read_digits(text: &[u8]) -> Option<Short<MOST_DIGITS>>
    ensures { MatchOption result
        (¬ (IsCardText text.now × (length (digits_of text.now) ≤ 19)))
        (λ digits. IsCardText text.now × (digits ≡ digits_of text.now) × All IsAsciiDigit digits) }
{
    if text.is_empty() {
        return None;
    }
    let mut digits = Short::new();
    for i in 0..text.len() {
        if has_digit(text, i) {
            if digits.len() == MOST_DIGITS {
                return None;
            }
            digits.push(text[i]);
        } else if !separates(text, i) {
            return None;
        }
    }
    Some(digits)
}

/// ASCII digits as a text.
pub(crate) fn as_text(digits: &[u8]) -> &str
    // they are ASCII digits
    requires { All IsAsciiDigit digits.now }
    // the text has these bytes
    ensures { result.now ≡ digits.now }
{
    let Ok(text) = str::from_utf8(digits) else {
        unreachable!();
    };
    text
}
