//! Values that are put into an ordered map where none is yet.
ghost use Rattle.std.specs.Prelude.{◌≡◌, OnOk, Some, None, cond};
ghost use Rattle.std.specs.BTreeMap as tree;
ghost use Rattle.std.specs.Option.{option_or};
ghost use Rattle.std.specs.Ordering.{eq_by_cmp};

use std::alloc::AllocError;
use std::collections::BTreeMap;

/// Puts a value at a key, unless it has one already.
pub(crate) fn put_first<K: Ord + Drop, V: Drop>(
    map: &mut BTreeMap<K, V>,
    key: K,
    value: V,
) -> Result<(), AllocError>
    ensures { OnOk result ((q : K)
        → tree.get K.cmp map.new q
        ≡ option_or (tree.get K.cmp map.old q) (cond (eq_by_cmp K.cmp key q) (Some value) None)) }
{
    if !map.contains_key(&key) {
        map.insert(key, value)?;
    }
    Ok(())
}
