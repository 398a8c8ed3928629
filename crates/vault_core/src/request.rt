//! The numbers of requests.
ghost use Rattle.std.specs.Prelude.{◌≡◌, ◌≤◌, IsTrue, IsOk, IfErr, IfOk, ◌↔◌, All, length};
ghost use Rattle.std.specs.Char.{IsAsciiDigit};
ghost use Rattle.std.specs.Str.Parse.{digits_value};
ghost use Rattle.vault_core.specs.Scalar.{IsRequest, IsRequestText};

use std::marker::Model;
use vault_refusal::refusal::Refusal;

/// The greatest request number.
pub const LAST_REQUEST: u64 = 9223372036854775807;

/// The number that a caller gives a request. Contracts see the number.
#[derive(Clone, Copy, PartialEq, Eq, PartialOrd, Ord)]
pub struct RequestNo {
    number: u64,
}

impl Model for RequestNo {
    ghost use Rattle.std.specs.Prelude.{ℕ};
    ghost use Rattle.vault_core.specs.Scalar.{IsRequest};

    ghost Value = { ℕ };

    ghost view = { λ r. r.number };

    ghost invariant = { λ r. IsRequest r.number };

    ghost inverse = { λ n. record { number = n } };
}

/// Whether all bytes are digits.
fn are_digits(text: &[u8]) -> bool
    ensures { IsTrue result ↔ All IsAsciiDigit text.now }
{
    text.iter().all(|byte| byte.is_ascii_digit())
}

/// The number that up to 19 digits write.
fn value_of(digits: &[u8]) -> u64
    requires few { length digits.now ≤ 19 }
    requires digits { All IsAsciiDigit digits.now }
    ensures { result ≡ digits_value 10 digits.now }
{
    let mut number = 0u64;
    for digit in digits {
        number = number * 10 + u64::from(*digit - b'0');
    }
    number
}

impl RequestNo {
    /// Reads a request number: 1 to 19 digits without a leading zero; else 5 BadRequestNumber.
    pub fn read(text: &[u8]) -> Result<RequestNo, Refusal>
        // a text is taken exactly where it is that of a request number
        ensures request { IsOk result ↔ IsRequestText text.now }
        // the refusal is `BadRequestNumber`
        ensures refused { IfErr result (λ refused. refused ≡ Refusal.BadRequestNumber) }
        // the number is what the digits say
        ensures value { IfOk result (λ r. r ≡ digits_value 10 text.now) }
    {
        if text.is_empty() || text.len() > 19 || text[0] == b'0' {
            return Err(Refusal::BadRequestNumber);
        }
        if !are_digits(text) {
            return Err(Refusal::BadRequestNumber);
        }
        let number = value_of(text);
        if number > LAST_REQUEST {
            return Err(Refusal::BadRequestNumber);
        }
        Ok(RequestNo { number })
    }

    /// The number.
    pub fn get(self) -> u64
        // the number is the request's own
        ensures value { result ≡ self }
        // a request's number is in range
        ensures request { IsRequest self }
    {
        self.number
    }
}
