//! Sets of rights, in which a right is found by its key.
ghost use Rattle.std.specs.Prelude.{◌≡◌, IfOk, List};
ghost use Rattle.vault_rights.specs.Named.{Row};
ghost use Rattle.vault_changes.specs.Changes.{Held, is_held as is_held_in, is_listed as is_listed_in};
ghost use Rattle.vault_changes.specs.RightKeys.{HasHeld, HasListed};

use crate::changes::ListedRight;
use std::alloc::{AllocError, Global};
use std::collections::BTreeSet;
use vault_core::moment::Moment;
use vault_core::name::{Caller, MerchantId};
use vault_core::right::Right;
use vault_store::tables::RightRow;

/// A right: its caller, its merchant and its word.
pub(crate) type RightKey = (Caller, (MerchantId, Right));

/// A right with its end, where it has one.
pub(crate) type EndedKey = (RightKey, Option<Moment>);

/// The rights that rows list, whatever their ends.
pub(crate) fn listed_keys(
    alloc: Global,
    rows: &[ListedRight],
) -> Result<BTreeSet<RightKey>, AllocError>
    ensures { IfOk result (λ keys. HasListed keys rows.now) }
{
    let mut keys = BTreeSet::new(alloc);
    for row in rows {
        keys.insert((row.0, (row.1, row.2)))?;
    }
    Ok(keys)
}

/// The rights that are held, with their ends.
pub(crate) fn held_keys(alloc: Global, held: &[RightRow]) -> Result<BTreeSet<EndedKey>, AllocError>
    ensures { IfOk result (λ keys. HasHeld keys held.now) }
{
    let mut keys = BTreeSet::new(alloc);
    for it in held {
        keys.insert((it.0, it.1.ends))?;
    }
    Ok(keys)
}

/// Whether the set has the right of a row, with its end.
pub(crate) fn is_held(keys: &BTreeSet<EndedKey>, row: &ListedRight) -> bool
    // where these are the rights that are held, it says whether the row's is held with its end
    ensures { (held : List Held) → HasHeld keys.now held → result ≡ is_held_in held row.now }
{
    keys.contains(&((row.0, (row.1, row.2)), row.3))
}

/// Whether the set has this right.
pub(crate) fn is_listed(keys: &BTreeSet<RightKey>, right: &RightKey) -> bool
    // where these are the rights that rows list, it says whether one lists this right
    ensures { (rows : List Row) → HasListed keys.now rows → result ≡ is_listed_in rows right.now }
{
    keys.contains(right)
}
