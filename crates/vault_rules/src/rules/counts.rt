//! The rules of counts.
ghost use Rattle.std.specs.Prelude.{◌≡◌, ◌&&◌, nat_lt, pos, string_bytes, true};
ghost use Rattle.std.specs.List.{list_all};
ghost use Rattle.std.specs.Option.{option_copied, option_map_or};
ghost use Rattle.std.specs.Ordering.{int_eq};
ghost use Rattle.vault_rules.specs.Lookups.{is_known};
ghost use Rattle.vault_rules.specs.Rules as rules;
ghost use Rattle.vault_rules.specs.Seen.{WhereHeld};
ghost use Rattle.vault_rules.specs.declared.rows.RawCount.{RawCount as CountRow};

use crate::entries::Entries;
use crate::index::Index;
use crate::rows::{RawCount, RawMerchant};
use crate::rules::bounds::{MOST_COUNTED, MOST_ENTRIES, is_within};

/// Rule 4: each count is of a merchant that exists, of kind 1 to 3, and within its bounds.
pub fn are_counts(index: &Index) -> bool
    ensures { result ≡ list_all (rules.is_count index.now.merchants.now) index.now.counts.now }
{
    index.counts.iter().all(|c| is_count(index, c))
}

/// Whether a count keeps its rule.
fn is_count(index: &Index, c: &RawCount) -> bool
    ensures { result ≡ rules.is_count index.now.merchants.now c.now }
{
    index.is_known(c.merchant.as_str())
        && is_within(1, 3, c.kind)
        && is_within(1, MOST_COUNTED, c.total)
}

/// Rule 10: each merchant's count of tokens made is the number of its entries, at most 1000000.
pub fn are_counted(entries: &Entries) -> bool
    ensures { WhereHeld entries.now (λ cards raws. result
        ≡ list_all (rules.is_counted entries.now.index.counts.now raws)
        entries.now.index.merchants.now) }
{
    for merchant in entries.index.merchants {
        if !is_counted(entries, merchant) {
            return false;
        }
    }
    true
}

/// Whether a merchant keeps the rule of its count.
fn is_counted(entries: &Entries, m: &RawMerchant) -> bool
    // it is so of a merchant that exists
    ensures { WhereHeld entries.now (λ cards raws.
        is_known entries.now.index.merchants.now (string_bytes m.now.name) ≡ true
        → result ≡ rules.is_counted entries.now.index.counts.now raws m.now) }
{
    let name = m.name.as_str();
    are_as_many(entries.held(name), entries.index.made(name))
}

/// Whether a merchant's entries are at most 1000000, and as many as its count says.
fn are_as_many(held: usize, made: Option<&RawCount>) -> bool
    ensures { result
        ≡ (int_eq (option_map_or (λ (c : CountRow). c.total) (option_copied made.entry) (pos 0)) (pos held)
        && nat_lt held 1000001) }
{
    held <= MOST_ENTRIES && total(made) == held as i64
}

/// The total of a count; 0 where there is none.
fn total(count: Option<&RawCount>) -> i64
    ensures { result ≡ option_map_or (λ (c : CountRow). c.total) (option_copied count.entry) (pos 0) }
{
    match count {
        Some(count) => count.total,
        None => 0,
    }
}
