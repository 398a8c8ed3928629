//! Card numbers.
ghost use Rattle.std.specs.Prelude.{◌≡◌, ◌≤◌, length};
ghost use Rattle.vault_pan.specs.Pan.{ReadsPan};
ghost use Rattle.vault_pan.specs.CardText.{IsPan};

use crate::luhn::passes;
use crate::short::Short;
use crate::text::{as_text, read_digits};
use std::error::Error;
use std::fmt;
use std::marker::Model;
use vault_refusal::refusal::Refusal;

/// The fewest digits of a card number, and of a token.
pub const LEAST_DIGITS: usize = 10;

/// The most digits of a card number, and of a token.
pub const MOST_DIGITS: usize = 19;

/// A card number: 10 to 19 digits that pass the check. Contracts see its ASCII digits.
///
/// There is no `Debug`, so no text that is made for programmers shows it.
#[derive(Clone, Copy, PartialEq, Eq, PartialOrd, Ord)]
pub struct Pan {
    text: Short<MOST_DIGITS>,
}

impl Model for Pan {
    ghost use Rattle.std.specs.Prelude.{ℕ, List};
    ghost use Rattle.vault_pan.specs.CardText.{IsPan};

    ghost Value = { List ℕ };

    ghost view = { λ p. p.text };

    ghost invariant = { λ p. IsPan p.text };

    ghost inverse = { λ digits. record { text = digits } };
}

impl Pan {
    /// Reads a card number. One space or one hyphen may stand between two of its digits.
    ///
    /// Refused by 1 `BadNumber` where the text shows no number of 10 to 19 digits, and else by 2
    /// `BadCheck` where these fail the check.
    pub fn read(text: &[u8]) -> Result<Pan, PanFault>
        ensures { ReadsPan text.now result }
    {
        let Some(digits) = read_digits(text) else {
            return Err(PanFault::BadNumber);
        };
        if digits.len() < LEAST_DIGITS {
            return Err(PanFault::BadNumber);
        }
        if !passes(digits.bytes()) {
            return Err(PanFault::BadCheck);
        }
        Ok(Pan { text: digits })
    }

    /// The ASCII digits, without separators.
    pub fn digits(&self) -> &[u8]
        // these are the number's own digits
        ensures value { result.now ≡ self.now }
        // they are 10 to 19 digits that pass the check
        ensures pan { IsPan self.now }
    {
        self.text.bytes()
    }

    /// The digits as a text.
    pub fn as_str(&self) -> &str
        ensures { result.now ≡ self.now }
    {
        as_text(self.digits())
    }

    /// How many digits there are.
    #[allow(clippy::len_without_is_empty)]
    pub fn len(&self) -> usize
        // it is the number of the digits
        ensures count { result ≡ length self.now }
        // it is 10 or more
        ensures least { 10 ≤ result }
        // it is 19 or less
        ensures most { result ≤ 19 }
    {
        self.text.len()
    }
}

/// Why a text is no card number.
#[derive(Clone, Copy, Debug, PartialEq, Eq)]
pub enum PanFault {
    /// The text isn't 10 to 19 digits with at most one space or hyphen between two of them.
    BadNumber,
    /// The digits are as many as they should be, and fail the check.
    BadCheck,
}

impl PanFault {
    ghost use Rattle.vault_pan.specs.Pan.{refusal_of};

    /// Its refusal: 1 or 2.
    pub fn refusal(self) -> Refusal
        ensures { result ≡ refusal_of self }
    {
        match self {
            PanFault::BadNumber => Refusal::BadNumber,
            PanFault::BadCheck => Refusal::BadCheck,
        }
    }
}

impl From<PanFault> for Refusal {
    ghost use Rattle.std.specs.Prelude.{◌≡◌};
    ghost use Rattle.vault_pan.specs.Pan.{refusal_of};

    ghost from_gives = { λ fault refused. refused ≡ refusal_of fault };

    fn from(fault: PanFault) -> Refusal {
        fault.refusal()
    }
}

impl fmt::Display for PanFault {
    ghost use Rattle.std.specs.Prelude.{Some};
    ghost use Rattle.vault_refusal.specs.Refusal.{words_of};
    ghost use Rattle.vault_pan.specs.Pan.{refusal_of};

    ghost output = { λ fault. Some (words_of (refusal_of fault)) };

    fn fmt<W: fmt::Write>(&self, f: &mut fmt::Formatter<W>) -> fmt::Result {
        let words = self.refusal().words();
        write!(f, "{words}")
    }
}

impl Error for PanFault {}
