//! Counts in an ordered map, and in a list.
ghost use Rattle.std.specs.Prelude.{◌≡◌, ◌+◌, ℕ, IfOk, OnOk, cond, nat_eq, slice_index_or};
ghost use Rattle.std.specs.Prelude.{unwrap_or};
ghost use Rattle.std.specs.BTreeMap as tree;
ghost use Rattle.std.specs.Ordering.{eq_by_cmp};

use std::alloc::AllocError;
use std::collections::BTreeMap;

/// One more than a count. A count that memory can't reach is refused as memory is.
pub(crate) fn one_more(many: usize) -> Result<usize, AllocError>
    ensures { IfOk result (λ more. more ≡ many + 1) }
{
    match many.checked_add(1) {
        Some(more) => Ok(more),
        None => Err(AllocError),
    }
}

/// Counts one more at a key.
pub(crate) fn count_one<K: Ord + Copy + Drop>(
    map: &mut BTreeMap<K, usize>,
    key: K,
) -> Result<(), AllocError>
    ensures { OnOk result ((q : K)
        → unwrap_or (tree.get K.cmp map.new q) 0
        ≡ unwrap_or (tree.get K.cmp map.old q) 0 + cond (eq_by_cmp K.cmp key q) 1 0) }
{
    let many = map.get(&key).copied().unwrap_or(0);
    let more = one_more(many)?;
    map.insert(key, more)?;
    Ok(())
}

/// The count at a place of a list, which counts 0 behind its end.
pub(crate) fn count_of(counts: &[usize], place: usize) -> usize
    ensures { result ≡ slice_index_or counts.now place 0 }
{
    counts.get(place).copied().unwrap_or(0)
}

/// Counts one more at a place of a list.
pub(crate) fn count_at(counts: &mut Vec<usize>, place: usize) -> Result<(), AllocError>
    ensures { OnOk result ((q : ℕ) → slice_index_or counts.new.items q 0
        ≡ slice_index_or counts.old.items q 0 + cond (nat_eq place q) 1 0) }
{
    while counts.len() <= place {
        counts.push(0)?;
    }
    counts[place] = one_more(counts[place])?;
    Ok(())
}
