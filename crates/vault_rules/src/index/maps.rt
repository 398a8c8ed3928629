//! Ordered maps over the rows, each made in one pass.
ghost use Rattle.std.specs.Prelude.{◌≡◌, IfOk, pos};
ghost use Rattle.std.specs.Option.{option_copied};
ghost use Rattle.std.specs.Ordering.{int_eq};
ghost use Rattle.vault_core.specs.Keys.{Bytes};
ghost use Rattle.vault_rules.specs.Index.{at_text, made_of};
ghost use Rattle.vault_rules.specs.Lookups.{merchant_of};

use crate::index::first::put_first;
use crate::rows::{RawCount, RawMerchant};
use std::alloc::{AllocError, Global};
use std::collections::BTreeMap;
use vault_core::changes::Count;

/// The first merchant of each name.
pub(crate) fn merchants_by_name<'a>(
    alloc: Global,
    merchants: &'a [RawMerchant],
) -> Result<BTreeMap<&'a str, &'a RawMerchant>, AllocError>
    ensures { IfOk result
        (λ map. (name : Bytes) → option_copied (at_text map name) ≡ merchant_of merchants.now name) }
{
    let mut map = BTreeMap::new(alloc);
    for row in merchants {
        put_first(&mut map, row.name.as_str(), row)?;
    }
    Ok(map)
}

/// The first count of tokens made of each merchant.
pub(crate) fn made_by_merchant<'a>(
    alloc: Global,
    counts: &'a [RawCount],
) -> Result<BTreeMap<&'a str, &'a RawCount>, AllocError>
    ensures { IfOk result
        (λ map. (name : Bytes) → option_copied (at_text map name) ≡ made_of counts.now name) }
{
    let mut map = BTreeMap::new(alloc);
    for row in counts {
        if counts_made(row) {
            put_first(&mut map, row.merchant.as_str(), row)?;
        }
    }
    Ok(map)
}

/// Whether a count is of tokens made.
fn counts_made(row: &RawCount) -> bool
    ensures { result ≡ int_eq row.now.kind (pos 1) }
{
    row.kind == Count::Made.number() as i64
}
