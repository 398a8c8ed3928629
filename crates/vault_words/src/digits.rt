//! Digits that are given in place of drawn ones.
ghost use Rattle.std.specs.Prelude.{◌≡◌, IsTrue, IsSome, IfSome, ◌↔◌, All};
ghost use Rattle.std.specs.Char.{IsAsciiDigit};
ghost use Rattle.vault_words.specs.Digits.{IsDigitText, repeated};

use vault_pan::draw::{DRAWN_DIGITS, Digits};

/// Whether all bytes are digits.
fn are_digits(text: &[u8]) -> bool
    ensures { IsTrue result ↔ All IsAsciiDigit text.now }
{
    text.iter().all(|byte| byte.is_ascii_digit())
}

/// The drawing that a text of 1 to 300 digits stands for: they are repeated until there are 300.
pub fn drawn(text: &[u8]) -> Option<Digits>
    // a drawing is given exactly for 1 to 300 digits
    ensures some { IsSome result ↔ IsDigitText text.now }
    // it is the text's digits, repeated until there are 300
    ensures value { IfSome result (λ digits. digits ≡ repeated 300 text.now) }
{
    if text.is_empty() || text.len() > DRAWN_DIGITS || !are_digits(text) {
        return None;
    }
    let mut values = [0; DRAWN_DIGITS];
    for (i, value) in values.iter_mut().enumerate() {
        *value = text[i % text.len()] - b'0';
    }
    Digits::new(&values)
}
