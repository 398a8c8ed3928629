//! The rules of records and of rights.
ghost use Rattle.std.specs.Prelude.{◌≡◌, true};
ghost use Rattle.std.specs.List.{list_all};
ghost use Rattle.vault_rules.specs.Rules as rules;
ghost use Rattle.vault_rules.specs.Seen.{WhereHeld};

use crate::entries::Entries;
use crate::index::Index;
use crate::rows::{RawRecord, RawRight};
use crate::rules::bounds::is_within;
use crate::texts::is_name;

/// Whether a record keeps rule 11, where each entry has a merchant and a token.
pub(crate) fn is_record(entries: &Entries, r: &RawRecord) -> bool
    ensures { WhereHeld entries.now (λ cards raws.
        entries.now.rules.tokens ≡ true → result ≡ rules.is_record raws r.now) }
{
    is_name(r.caller.as_bytes()) && 1 <= r.request && has_usage(entries, r)
}

/// Whether the entry of a record exists and has its usage.
fn has_usage(entries: &Entries, r: &RawRecord) -> bool
    // it is so of the entries that came, where each of them has a merchant and a token
    ensures { WhereHeld entries.now (λ cards raws.
        entries.now.rules.tokens ≡ true → result ≡ rules.has_usage raws r.now) }
{
    entries.usage(r.merchant.as_str(), r.token.as_str()) == Some(r.usage)
}

/// Rule 12: each right is of a caller with a name, at a merchant that exists, and 1 to 6.
pub fn are_rights(index: &Index, rights: &[RawRight]) -> bool
    ensures { result ≡ list_all (rules.is_right index.now.merchants.now) rights.now }
{
    rights.iter().all(|r| is_right(index, r))
}

/// Whether a right keeps its rule.
fn is_right(index: &Index, r: &RawRight) -> bool
    ensures { result ≡ rules.is_right index.now.merchants.now r.now }
{
    is_name(r.caller.as_bytes()) && index.is_known(r.merchant.as_str()) && is_within(1, 6, r.what)
}
