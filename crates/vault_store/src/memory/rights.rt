//! Rights, with rows of any kind, that are put into an ordered map, taken back and taken out.
ghost use Rattle.std.specs.Prelude.{◌≡◌, IfOk, OnOk, OnErr, None};
ghost use Rattle.std.specs.BTreeMap as tree;
ghost use Rattle.std.specs.FinMap as map;
ghost use Rattle.vault_core.specs.Keys.{right_cmp};
ghost use Rattle.vault_store.specs.Shown.{Shows};

use crate::memory::keyed_rows::{put, put_back};
use std::alloc::AllocError;
use std::collections::BTreeMap;
use vault_core::name::{Caller, MerchantId};
use vault_core::right::Right;

/// Gives a caller a right at a merchant, and gives the one that stood there. Only a new one can be
/// refused.
pub fn give<V: Drop>(
    rights: &mut BTreeMap<(Caller, (MerchantId, Right)), V>,
    key: (Caller, (MerchantId, Right)),
    row: V,
) -> Result<Option<V>, AllocError>
    // Ok gives what stood there before
    ensures was { IfOk result (λ was. was ≡ tree.get right_cmp rights.old key) }
    // with Ok, the rights that were shown are shown with this one
    ensures ok { OnOk result ((F : map.FinMap right_cmp V) → Shows right_cmp rights.old F
        → Shows right_cmp rights.new (map.insert F key row)) }
    // where it is refused, nothing stood there
    ensures new { OnErr result (tree.get right_cmp rights.old key ≡ None) }
    // where it is refused, the rights that were shown are shown still
    ensures err { OnErr result ((F : map.FinMap right_cmp V)
        → Shows right_cmp rights.old F → Shows right_cmp rights.new F) }
{
    put(rights, key, row)
}

/// Gives back the right that a caller had at a merchant before another was given.
pub fn give_back<V: Drop>(
    rights: &mut BTreeMap<(Caller, (MerchantId, Right)), V>,
    key: (Caller, (MerchantId, Right)),
    was: Option<V>,
)
    ensures { (F : map.FinMap right_cmp V) (row : V) → was ≡ map.get F key
        → Shows right_cmp rights.old (map.insert F key row) → Shows right_cmp rights.new F }
{
    put_back(rights, key, was);
}

/// Takes a right away from a caller.
pub fn take_away<V: Drop>(
    rights: &mut BTreeMap<(Caller, (MerchantId, Right)), V>,
    key: &(Caller, (MerchantId, Right)),
)
    ensures { (F : map.FinMap right_cmp V) → Shows right_cmp rights.old F
        → Shows right_cmp rights.new (map.remove F key.now) }
{
    let _ = rights.remove(key);
}
