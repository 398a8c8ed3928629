//! Rows that are put into an ordered map, and taken back.
ghost use Rattle.std.specs.Prelude.{◌≡◌, IfOk, OnOk, OnErr, None};
ghost use Rattle.std.specs.FinMap as map;
ghost use Rattle.std.specs.BTreeMap as tree;
ghost use Rattle.vault_store.specs.Shown.{Shows};

use std::alloc::AllocError;
use std::collections::BTreeMap;

/// Puts a row at a key, and gives the one that stood there. Only a new key can be refused.
pub fn put<K: Ord + Drop, V: Drop>(
    rows: &mut BTreeMap<K, V>,
    key: K,
    row: V,
) -> Result<Option<V>, AllocError>
    // Ok gives what stood at the key before
    ensures was { IfOk result (λ was. was ≡ tree.get K.cmp rows.old key) }
    // with Ok, the rows that were shown are shown with this one at its key
    ensures ok { OnOk result
        ((F : map.FinMap K.cmp V) → Shows K.cmp rows.old F → Shows K.cmp rows.new (map.insert F key row)) }
    // where it is refused, nothing stood at the key
    ensures new { OnErr result (tree.get K.cmp rows.old key ≡ None) }
    // where it is refused, the rows that were shown are shown still
    ensures err { OnErr result ((F : map.FinMap K.cmp V) → Shows K.cmp rows.old F → Shows K.cmp rows.new F) }
{
    Ok(rows.insert(key, row)?)
}

/// Puts back the row that stood at a key before another was put there.
pub fn put_back<K: Ord + Drop, V: Drop>(rows: &mut BTreeMap<K, V>, key: K, was: Option<V>)
    ensures { map.IsAntisymmetric K.cmp → (F : map.FinMap K.cmp V) (row : V) → was ≡ map.get F key
        → Shows K.cmp rows.old (map.insert F key row) → Shows K.cmp rows.new F }
{
    match was {
        None => {
            let _ = rows.remove(&key);
        }
        Some(row) => {
            let _ = rows.insert(key, row);
        }
    }
}
