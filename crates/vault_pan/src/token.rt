//! Tokens.
ghost use Rattle.std.specs.Prelude.{◌≡◌};
ghost use Rattle.vault_pan.specs.Pan.{ReadsToken};
ghost use Rattle.vault_pan.specs.CardText.{IsToken, fits};

use crate::luhn::passes;
use crate::pan::{LEAST_DIGITS, MOST_DIGITS, Pan};
use crate::short::Short;
use crate::text::as_text;
use std::error::Error;
use std::fmt;
use std::marker::Model;
use vault_refusal::refusal::Refusal;

/// A token: 10 to 19 digits that fail the check. Contracts see its ASCII digits.
///
/// It is no card number, so printing shows it.
#[derive(Clone, Copy, PartialEq, Eq, PartialOrd, Ord)]
pub struct Token {
    text: Short<MOST_DIGITS>,
}

impl Model for Token {
    ghost use Rattle.std.specs.Prelude.{ℕ, List};
    ghost use Rattle.vault_pan.specs.CardText.{IsToken};

    ghost Value = { List ℕ };

    ghost view = { λ t. t.text };

    ghost invariant = { λ t. IsToken t.text };

    ghost inverse = { λ digits. record { text = digits } };
}

impl Token {
    /// Reads a token, which has no separators. What is none is refused by 3 `BadToken`.
    pub fn read(text: &[u8]) -> Result<Token, BadToken>
        ensures { ReadsToken text.now result }
    {
        if !(LEAST_DIGITS..=MOST_DIGITS).contains(&text.len()) {
            return Err(BadToken);
        }
        if !text.iter().all(|byte| byte.is_ascii_digit()) {
            return Err(BadToken);
        }
        if passes(text) {
            return Err(BadToken);
        }
        let mut digits = Short::new();
        digits.extend(text);
        Ok(Token { text: digits })
    }

    /// The token of digits that are one.
    pub(crate) fn of(digits: Short<MOST_DIGITS>) -> Token
        // they are 10 to 19 digits that fail the check
        requires { IsToken digits }
        // it is the token of these digits
        ensures { result ≡ digits }
    {
        Token { text: digits }
    }

    /// The ASCII digits.
    pub fn digits(&self) -> &[u8]
        // these are the token's own digits
        ensures value { result.now ≡ self.now }
        // they are 10 to 19 digits that fail the check
        ensures token { IsToken self.now }
    {
        self.text.bytes()
    }

    /// The digits as a text.
    pub fn as_str(&self) -> &str
        ensures { result.now ≡ self.now }
    {
        as_text(self.digits())
    }

    /// Whether the token has the number's length and its last four digits.
    pub fn fits(&self, p: &Pan) -> bool
        ensures { result ≡ fits self.now p.now }
    {
        let token = self.digits();
        let number = p.digits();
        token.len() == number.len() && token[token.len() - 4..] == number[p.len() - 4..]
    }
}

impl fmt::Display for Token {
    ghost use Rattle.std.specs.Prelude.{Some};

    ghost output = { λ token. Some token };

    fn fmt<W: fmt::Write>(&self, f: &mut fmt::Formatter<W>) -> fmt::Result {
        f.write_str(self.as_str())
    }
}

/// A text is no token.
#[derive(Clone, Copy, Debug, PartialEq, Eq)]
pub struct BadToken;

impl BadToken {
    /// Its refusal: 3.
    pub fn refusal(self) -> Refusal
        ensures { result ≡ Refusal.BadToken }
    {
        Refusal::BadToken
    }
}

impl From<BadToken> for Refusal {
    ghost use Rattle.std.specs.Prelude.{◌≡◌};
    ghost use Rattle.vault_refusal.specs.declared.refusal.Refusal.TheVariants as refusal;

    ghost from_gives = { λ _ refused. refused ≡ refusal.BadToken };

    fn from(fault: BadToken) -> Refusal {
        fault.refusal()
    }
}

impl fmt::Display for BadToken {
    ghost use Rattle.std.specs.Prelude.{Some};
    ghost use Rattle.vault_refusal.specs.Refusal.{words_of};
    ghost use Rattle.vault_refusal.specs.declared.refusal.Refusal.TheVariants as refusal;

    ghost output = { λ _. Some (words_of refusal.BadToken) };

    fn fmt<W: fmt::Write>(&self, f: &mut fmt::Formatter<W>) -> fmt::Result {
        let words = self.refusal().words();
        write!(f, "{words}")
    }
}

impl Error for BadToken {}
