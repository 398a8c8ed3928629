//! Texts of digits as numbers, which take less room.
ghost use Rattle.std.specs.Prelude.{◌≡◌, true};
ghost use Rattle.vault_rules.specs.Packed.{packed as packed_spec};
ghost use Rattle.vault_rules.specs.Texts.{is_number};

/// The number that stands for a text of 10 to 19 digits: its digits from the last one to the first, behind
/// a 1. No two texts have the same number.
pub(crate) fn packed(digits: &[u8]) -> u128
    // the text is 10 to 19 digits
    requires { is_number digits.now ≡ true }
    // it is the digits from the last one to the first, behind a 1
    ensures { result ≡ packed_spec digits.now }
{
    let mut number: u128 = 1;
    let mut left = digits.len();
    while left > 0 {
        left -= 1;
        number = number * 10 + u128::from(digits[left] - b'0');
    }
    number
}
