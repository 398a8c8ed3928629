//! Texts of rows.
ghost use Rattle.std.specs.Prelude.{◌≡◌, All, true};
ghost use Rattle.std.specs.Char.{IsAsciiDigit, is_ascii_digit};
ghost use Rattle.std.specs.List.{list_all};
ghost use Rattle.vault_core.specs.Name.{is_name_byte};
ghost use Rattle.vault_pan.specs.CardText.{fits as fits_spec};
ghost use Rattle.vault_rules.specs.Texts as texts;

use vault_pan::luhn::passes;
use vault_pan::pan::{LEAST_DIGITS, MOST_DIGITS};

/// Whether a text is a name: 1 to 16 small letters, digits and hyphens.
pub fn is_name(text: &[u8]) -> bool
    ensures { result ≡ texts.is_name text.now }
{
    !text.is_empty() && text.len() < 17 && are_name_bytes(text)
}

/// Whether bytes are small letters, digits and hyphens.
fn are_name_bytes(bytes: &[u8]) -> bool
    ensures { result ≡ list_all is_name_byte bytes.now }
{
    bytes.iter().all(|b| b.is_ascii_lowercase() || b.is_ascii_digit() || *b == b'-')
}

/// Whether a text is 10 to 19 digits.
fn is_number(text: &[u8]) -> bool
    // it is true exactly of 10 to 19 digits
    ensures value { result ≡ texts.is_number text.now }
    // with true, each byte is a digit
    ensures digits { result ≡ true → All IsAsciiDigit text.now }
{
    (LEAST_DIGITS..=MOST_DIGITS).contains(&text.len()) && are_digits(text)
}

/// Whether bytes are digits.
fn are_digits(bytes: &[u8]) -> bool
    ensures { result ≡ list_all is_ascii_digit bytes.now }
{
    bytes.iter().all(|byte| byte.is_ascii_digit())
}

/// Whether a text is a card number: 10 to 19 digits that pass the check.
pub fn is_pan(text: &[u8]) -> bool
    ensures { result ≡ texts.is_pan text.now }
{
    is_number(text) && passes(text)
}

/// Whether a text is a token: 10 to 19 digits that fail the check.
pub fn is_token(text: &[u8]) -> bool
    ensures { result ≡ texts.is_token text.now }
{
    is_number(text) && !passes(text)
}

/// Whether a token has a number's length and its last four digits. Shorter texts are compared whole.
pub fn fits(token: &[u8], number: &[u8]) -> bool
    ensures { result ≡ fits_spec token.now number.now }
{
    let hidden = token.len().saturating_sub(4);
    token.len() == number.len() && token[hidden..] == number[hidden..]
}
