//! What of a card number may be shown.
ghost use Rattle.std.specs.Prelude.{◌≡◌, ◌≤◌, length};
ghost use Rattle.vault_pan.specs.CardText.{last_four};
ghost use Rattle.vault_pan.specs.Mask.{IsMasked, front_of, hidden, least_hidden, mask_of};

use crate::lead::Lead;
use crate::pan::{MOST_DIGITS, Pan};
use crate::short::Short;
use std::fmt;
use std::marker::Model;

/// How many digits are shown at the end.
const LAST: usize = 4;

/// The mask of a card number: 10 to 19 bytes, each a digit or `*`, with at least four hidden.
/// Contracts see its bytes.
///
/// It is no card number, so printing shows it.
#[derive(Clone, Copy, PartialEq, Eq, PartialOrd, Ord)]
pub struct Masked {
    text: Short<MOST_DIGITS>,
}

impl Model for Masked {
    ghost use Rattle.std.specs.Prelude.{ℕ, List};
    ghost use Rattle.vault_pan.specs.Mask.{IsMasked};

    ghost Value = { List ℕ };

    ghost view = { λ m. m.text };

    ghost invariant = { λ m. IsMasked m.text };

    ghost inverse = { λ text. record { text = text } };
}

impl Masked {
    /// The bytes.
    pub fn text(&self) -> &[u8]
        // these are the mask's own bytes
        ensures value { result.now ≡ self.now }
        // there are 10 to 19, each a digit or `*`, and four or more are `*`
        ensures masked { IsMasked self.now }
    {
        self.text.bytes()
    }

    /// The mask as a text.
    pub fn as_str(&self) -> &str
        ensures { result.now ≡ self.now }
    {
        let Ok(text) = str::from_utf8(self.text()) else {
            unreachable!();
        };
        text
    }
}

impl fmt::Display for Masked {
    ghost use Rattle.std.specs.Prelude.{Some};

    ghost output = { λ masked. Some masked };

    fn fmt<W: fmt::Write>(&self, f: &mut fmt::Formatter<W>) -> fmt::Result {
        f.write_str(self.as_str())
    }
}

/// How many digits of a card number of so many digits are shown at the front.
fn front_of(lead: Lead, len: usize) -> usize
    // the number has ten digits or more
    requires { 10 ≤ len }
    // it is at most six of those before the last ten, or eight of those before the last eight
    ensures { result ≡ front_of lead len }
{
    match lead {
        Lead::Six => (len - 10).min(6),
        Lead::Eight => (len - 8).min(8),
    }
}

/// The mask of a card number: its last four digits, and from the front at most six of those before the last
/// ten, or at most eight of those before the last eight.
pub fn mask(p: &Pan, lead: Lead) -> Masked
    // it is the number, with `*` in place of each digit that isn't shown
    ensures masked { result ≡ mask_of lead p.now }
    // it hides six digits or more, and four or more where the lead is eight
    ensures hides { least_hidden lead ≤ hidden result }
    ensures as_long { length result ≡ length p.now }
    ensures last_four { last_four result ≡ last_four p.now }
{
    let digits = p.digits();
    let front = front_of(lead, p.len());
    let last = p.len() - LAST;
    let mut text = Short::new();
    text.extend(&digits[..front]);
    for _ in front..last {
        text.push(b'*');
    }
    text.extend(&digits[last..]);
    Masked { text }
}
