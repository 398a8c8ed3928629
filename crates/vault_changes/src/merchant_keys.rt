//! Sets of merchants, in which a merchant is found with its lives and its lead.
ghost use Rattle.std.specs.Prelude.{◌≡◌, IfOk, List};
ghost use Rattle.vault_changes.specs.MerchantKeys.{HasMerchants, held_setting, wanted_setting};
ghost use Rattle.vault_changes.specs.Settings.{Named, stands_in};

use std::alloc::{AllocError, Global};
use std::collections::BTreeSet;
use vault_core::name::MerchantId;
use vault_merchants::read::ListedMerchant;
use vault_store::listing::NamedRow;

/// A merchant, the lives of its single-use and its multi-use tokens, and the digits of its lead.
pub(crate) type MerchantKey = (MerchantId, (u64, (u64, u64)));

/// The key of a merchant that is held.
fn held_key(held: &NamedRow) -> MerchantKey
    ensures { result ≡ held_setting held.now }
{
    let row = &held.1;
    let lead = row.lead.digits();
    (held.0, (row.single_life, (row.multi_life, lead)))
}

/// The key of a merchant of a list.
fn wanted_key(row: &ListedMerchant) -> MerchantKey
    ensures { result ≡ wanted_setting row.now }
{
    (row.0, (row.1, (row.2, row.3.digits())))
}

/// The merchants that are held, with their lives and their leads.
pub(crate) fn merchant_keys(
    alloc: Global,
    held: &[NamedRow],
) -> Result<BTreeSet<MerchantKey>, AllocError>
    ensures { IfOk result (λ keys. HasMerchants keys held.now) }
{
    let mut keys = BTreeSet::new(alloc);
    for it in held {
        keys.insert(held_key(it))?;
    }
    Ok(keys)
}

/// Whether the set has a merchant of a list, with its lives and its lead.
pub(crate) fn stands(keys: &BTreeSet<MerchantKey>, row: &ListedMerchant) -> bool
    // where these are the merchants that are held, it says whether the row's is held so
    ensures { (held : List Named) → HasMerchants keys.now held → result ≡ stands_in held row.now }
{
    keys.contains(&wanted_key(row))
}
