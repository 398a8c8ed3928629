//! The rights of an ordered map, with their ends.
ghost use Rattle.std.specs.Prelude.{◌≡◌, IfOk};
ghost use Rattle.std.specs.FinMap as map;
ghost use Rattle.vault_core.specs.Keys.{right_cmp};
ghost use Rattle.vault_core.specs.declared.row.GrantRow.{GrantRow};
ghost use Rattle.vault_store.specs.Listed.{HasRights};

use crate::tables::RightRow;
use std::alloc::{AllocError, Global};
use std::collections::BTreeMap;
use vault_core::name::{Caller, MerchantId};
use vault_core::right::Right;
use vault_core::row::GrantRow;

/// All rights with their ends, by caller, merchant and the right's number.
pub fn rows_of(
    alloc: Global,
    rights: &BTreeMap<(Caller, (MerchantId, Right)), GrantRow>,
) -> Result<Vec<RightRow>, AllocError>
    ensures { IfOk result (λ found. (F : map.FinMap right_cmp GrantRow) → HasRights rights.now F
        → found.items ≡ map.entries F) }
{
    let mut found = Vec::new(alloc);
    for (key, row) in rights.iter() {
        found.push((*key, *row))?;
    }
    Ok(found)
}
