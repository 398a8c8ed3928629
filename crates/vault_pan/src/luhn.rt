//! The check digit of a card number.
ghost use Rattle.std.specs.Prelude.{◌≡◌, ◌<◌, All};
ghost use Rattle.std.specs.Char.{IsAsciiDigit};
ghost use Rattle.vault_pan.specs.Luhn.{passes_check, worth_of};

/// Whether ASCII digits pass the check: whether the last one is the check digit of those before it.
/// The empty list passes, since its sum is 0.
///
/// This is one pass from the left. The first digit stands at place `digits.len()` from the right,
/// and from there on even and odd places take turns.
pub fn passes(digits: &[u8]) -> bool
    // they are ASCII digits
    requires { All IsAsciiDigit digits.now }
    // it is true exactly where the sum over their places is a multiple of 10
    ensures { result ≡ passes_check digits.now }
{
    let mut even = digits.len() % 2 == 0;
    let mut sum = 0u8;
    for byte in digits {
        let digit = *byte - b'0';
        sum = (sum + worth(digit, even)) % 10;
        even = !even;
    }
    sum == 0
}

/// What a digit adds to the sum, at an even place or at an odd one.
fn worth(digit: u8, even: bool) -> u8
    // it is the value of a digit
    requires { digit < 10 }
    // at an odd place it is the digit, at an even one its double, less 9 where that is above 9
    ensures value { result ≡ worth_of even digit }
    // it is below 10
    ensures small { result < 10 }
{
    if !even {
        digit
    } else if digit < 5 {
        2 * digit
    } else {
        2 * digit - 9
    }
}
