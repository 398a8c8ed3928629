//! The names of an ordered map of merchants.
ghost use Rattle.std.specs.Prelude.{◌≡◌, IfOk};
ghost use Rattle.vault_core.specs.Vault.{Vault};
ghost use Rattle.vault_store.specs.Listed.{HasNames, merchant_names};

use std::alloc::{AllocError, Global};
use std::collections::BTreeMap;
use vault_core::name::MerchantId;

/// The names of all merchants, in order, whatever stands at them.
pub fn names_of<X>(
    alloc: Global,
    merchants: &BTreeMap<MerchantId, X>,
) -> Result<Vec<MerchantId>, AllocError>
    ensures { IfOk result (λ names. (V : Vault) → HasNames merchants.now V
        → names.items ≡ merchant_names V) }
{
    let mut names = Vec::new(alloc);
    for (name, _) in merchants.iter() {
        names.push(*name)?;
    }
    Ok(names)
}
