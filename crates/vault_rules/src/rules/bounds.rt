//! The bounds of numbers in rows.
ghost use Rattle.std.specs.Prelude.{◌≡◌};
ghost use Rattle.vault_rules.specs.Rules as rules;

use vault_core::limit;

/// The longest life in seconds, of a merchant's tokens and of one entry.
pub(crate) const LONGEST_LIFE: i64 = limit::LONGEST_LIFE as i64;

/// The last moment.
pub(crate) const LAST_MOMENT: i64 = limit::LAST_MOMENT as i64;

/// The most merchants.
pub(crate) const MOST_MERCHANTS: usize = limit::MOST_MERCHANTS as usize;

/// The most entries of a merchant.
pub(crate) const MOST_ENTRIES: usize = limit::MOST_TOKENS as usize;

/// The most that a count can be.
pub(crate) const MOST_COUNTED: i64 = limit::MOST_COUNT as i64;

/// Whether a number is from low up to high.
pub(crate) fn is_within(low: i64, high: i64, x: i64) -> bool
    ensures { result ≡ rules.is_within low high x }
{
    low <= x && x <= high
}
