//! The rules of the schema and of merchants.
ghost use Rattle.std.specs.Prelude.{◌≡◌, string_bytes};
ghost use Rattle.std.specs.List.{list_all};
ghost use Rattle.vault_rules.specs.Rules as rules;
ghost use Rattle.vault_rules.specs.Texts.{is_name as is_name_spec};

use crate::rows::{RawMerchant, RawVersion};
use crate::rules::bounds::{LAST_MOMENT, LONGEST_LIFE, MOST_MERCHANTS, is_within};
use crate::texts::is_name;

/// Rule 1: `vault` has exactly one row, its id is 1; tables that a later schema replaced are empty.
pub fn is_current(versions: &[RawVersion], replaced: u64) -> bool
    ensures { result ≡ rules.is_current versions.now replaced }
{
    versions.len() == 1 && versions[0].id == 1 && replaced == 0
}

/// Rule 2: each merchant's name is a name, and there are at most 10000.
pub fn are_named(merchants: &[RawMerchant]) -> bool
    ensures { result ≡ rules.are_named merchants.now }
{
    merchants.len() <= MOST_MERCHANTS && have_names(merchants)
}

/// Whether each merchant's name is a name.
fn have_names(merchants: &[RawMerchant]) -> bool
    ensures { result ≡ list_all (λ m. is_name_spec (string_bytes m.name)) merchants.now }
{
    merchants.iter().all(|m| is_name(m.name.as_bytes()))
}

/// Whether a merchant's lives and moment are within their bounds.
fn is_lasting(m: &RawMerchant) -> bool
    ensures { result ≡ rules.is_lasting m.now }
{
    is_within(0, LONGEST_LIFE, m.single_life)
        && is_within(0, LONGEST_LIFE, m.multi_life)
        && is_within(0, LAST_MOMENT, m.moment)
}

/// Rule 3: lives and moments are within their bounds.
pub fn are_lasting(merchants: &[RawMerchant]) -> bool
    ensures { result ≡ list_all rules.is_lasting merchants.now }
{
    merchants.iter().all(|m| is_lasting(m))
}
