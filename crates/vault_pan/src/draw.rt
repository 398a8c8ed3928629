//! Drawn digits, and the candidates for a token that are made of them.
ghost use Rattle.std.specs.Prelude.{true, false, ◌≡◌, ◌<◌, ◌↔◌, IsSome, IfSome, MatchOption};
ghost use Rattle.vault_pan.specs.Draw.{IsDrawing, candidate_digits};
ghost use Rattle.vault_pan.specs.CardText.{IsNumber};
ghost use Rattle.vault_pan.specs.Luhn.{passes_check};

use crate::luhn::passes;
use crate::pan::{MOST_DIGITS, Pan};
use crate::short::Short;
use crate::token::Token;
use std::marker::Model;

/// How many candidates a drawing gives, each from a group of its own.
pub const GROUPS: usize = 20;

/// How many digits a group has: as many as a card number has before its last four, or more.
pub const GROUP_DIGITS: usize = 15;

/// How many digits are drawn.
pub const DRAWN_DIGITS: usize = 300;

/// A drawing: 300 digits by their values, in 20 groups of 15. Contracts see the list of values.
#[derive(Clone, Copy)]
pub struct Digits {
    values: [u8; DRAWN_DIGITS],
}

impl Model for Digits {
    ghost use Rattle.std.specs.Prelude.{ℕ, List};
    ghost use Rattle.vault_pan.specs.Draw.{IsDrawing};

    ghost Value = { List ℕ };

    ghost view = { λ d. d.values };

    ghost invariant = { λ d. IsDrawing d.values };

    ghost inverse = { λ values. record { values = values } };
}

impl Digits {
    /// The drawing of these values, where there are 300 of them, each below 10.
    pub fn new(values: &[u8]) -> Option<Digits>
        // a drawing is given exactly for 300 values below 10
        ensures some { IsSome result ↔ IsDrawing values.now }
        // it is of these values
        ensures value { IfSome result (λ digits. digits ≡ values.now) }
    {
        if values.len() != DRAWN_DIGITS {
            return None;
        }
        if !values.iter().all(|value| *value < 10) {
            return None;
        }
        let mut copied = [0; DRAWN_DIGITS];
        copied.copy_from_slice(values);
        Some(Digits { values: copied })
    }

    /// The values, in order.
    pub fn values(&self) -> &[u8]
        // these are the drawing's own values
        ensures value { result.now ≡ self.now }
        // they are a drawing: 300 of them, each below 10
        ensures drawing { IsDrawing self.now }
    {
        &self.values
    }
}

/// Candidate `k` for the token of `p`: the first digits of group `k`, then the last four of `p`.
/// There is none where these digits pass the check, since then they could be a card number.
pub fn candidate(d: &Digits, k: usize, p: &Pan) -> Option<Token>
    // there are 20 groups
    requires { k < 20 }
    // where there is none, these digits pass the check; a token is these digits, and they fail it
    ensures { MatchOption result
        (passes_check (candidate_digits d.now k p.now) ≡ true)
        (λ token. (token ≡ candidate_digits d.now k p.now) × (passes_check token ≡ false)) }
{
    let digits = candidate_text(d, k, p);
    if passes(digits.bytes()) {
        return None;
    }
    Some(Token::of(digits))
}

/// The ASCII digits of candidate `k`, whether they pass the check or fail it.
fn candidate_text(d: &Digits, k: usize, p: &Pan) -> Short<MOST_DIGITS>
    // there are 20 groups
    requires { k < 20 }
    // they are the digits of candidate `k`
    ensures value { result ≡ candidate_digits d.now k p.now }
    // they are 10 to 19 digits
    ensures number { IsNumber result }
{
    let number = p.digits();
    let front = p.len() - 4;
    let start = GROUP_DIGITS * k;
    let mut digits = Short::new();
    for value in &d.values[start..start + front] {
        digits.push(*value + b'0');
    }
    digits.extend(&number[front..]);
    digits
}
