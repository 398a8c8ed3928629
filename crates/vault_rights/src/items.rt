//! The array of a merchant, and the rows that it makes.
ghost use Rattle.std.specs.Prelude.{◌≡◌, ◌⊎◌, ℕ, ℤ, pos, Some, IfOk, IfErr, IfSome, IfNone, map, option_map};
ghost use Rattle.toml.specs.View.{view, array_view, items_of, table_view};
ghost use Rattle.vault_core.specs.Keys.{Bytes};
ghost use Rattle.vault_core.specs.Scalar.{IsMoment};
ghost use Rattle.vault_rights.specs.Faults.{IsOtherItem, IsItemFault, IsFirstItemFault};
ghost use Rattle.vault_rights.specs.Items.{IsGranted, pair_of, item_of, grant_of};
ghost use Rattle.vault_rights.specs.Named.{IsLatest, IsExtendedBy};
ghost use Rattle.vault_rights.specs.Proper.{AreGrants};
ghost use Rattle.vault_rights.specs.declared.fault.RightsFault.TheVariants.{Memory, BadEnd};

use crate::fault::RightsFault;
use std::alloc::{AllocError, Global};
use toml::value::Array;
use toml::{Table, Value};
use vault_core::moment::Moment;
use vault_core::name::{Caller, MerchantId};
use vault_core::right::Right;

/// The rights, by number.
const RIGHTS: [Right; 6] = [
    Right::Tokenize,
    Right::Detokenize,
    Right::View,
    Right::Revoke,
    Right::Purge,
    Right::Audit,
];

/// What an item gives: a right, and its end where it has one.
pub(crate) type Grant = (Right, Option<Moment>);

/// The word and the end in a table of exactly the two.
fn said_in(members: &Table) -> Option<(&str, i64)>
    // the table is of exactly this word and this end
    ensures said { IfSome result (λ said. table_view members.now ≡ pair_of said.0.now said.1) }
    // where nothing is given, the table isn't of exactly a word and an end
    ensures none { IfNone result ((word : Bytes) (end : ℤ) → ¬ (table_view members.now ≡ pair_of word end)) }
{
    if members.len() != 2 {
        return None;
    }
    let word = members.get("right")?.as_str()?;
    let end = members.get("until")?.as_integer()?;
    Some((word, end))
}

/// The word of an item, and its end where it has one.
fn said_by(item: &Value) -> Option<(&str, Option<i64>)>
    // the item says this word, and this end or none
    ensures said { IfSome result (λ said. view item.now ≡ item_of said.0.now said.1) }
    // where nothing is given, the item is neither a text nor a table of a word and an end
    ensures none { IfNone result (IsOtherItem (view item.now)) }
{
    if let Some(word) = item.as_str() {
        return Some((word, None));
    }
    let (word, end) = said_in(item.as_table()?)?;
    Some((word, Some(end)))
}

/// The moment of an end, where there is one.
fn read_end(end: Option<i64>) -> Result<Option<Moment>, RightsFault>
    // with Ok, the end is the moment that is given, or neither is there
    ensures until { IfOk result (λ until. end ≡ option_map pos until) }
    // an end that is given is a moment
    ensures moment { IfOk result (λ until. IfSome until IsMoment) }
    // the fault is `BadEnd`, and the end is no moment
    ensures fault { IfErr result (λ fault. (other : ℤ) × (end ≡ Some other)
        × ((moment : ℕ) → IsMoment moment → ¬ (other ≡ pos moment)) × (fault ≡ BadEnd)) }
{
    let Some(end) = end else {
        return Ok(None);
    };
    if end < 0 {
        return Err(RightsFault::BadEnd);
    }
    match Moment::new(end as u64) {
        Ok(until) => Ok(Some(until)),
        Err(_) => Err(RightsFault::BadEnd),
    }
}

/// Reads an item of an array.
fn read_grant(item: &Value) -> Result<Grant, RightsFault>
    // with Ok, the item gives this right, up to this end or for good
    ensures grant { IfOk result (λ grant. view item.now ≡ grant_of grant.0 grant.1) }
    // an end that is given is a moment
    ensures moment { IfOk result (λ grant. IfSome grant.1 IsMoment) }
    // the fault is that of the item's shape, else of its word, else of its end
    ensures fault { IfErr result (IsItemFault (view item.now)) }
{
    let Some((word, end)) = said_by(item) else {
        return Err(RightsFault::WrongType);
    };
    let Some(right) = Right::read(word.as_bytes()) else {
        return Err(RightsFault::UnknownRight);
    };
    let until = read_end(end)?;
    Ok((right, until))
}

/// Reads an array's items, in its order.
pub(crate) fn read_grants(alloc: Global, items: &Array) -> Result<Vec<Grant>, RightsFault>
    // with Ok, these are the grants of the items, in their order
    ensures grants { IfOk result (λ grants.
        array_view items.now ≡ items_of (map (λ grant. grant_of grant.0 grant.1) grants.items)) }
    // with Ok, each item gives a right
    ensures proper { IfOk result (λ _. AreGrants (array_view items.now)) }
    // the fault is want of memory, or that of the first item that gives no right
    ensures fault { IfErr result (λ fault. (fault ≡ Memory) ⊎ IsFirstItemFault (array_view items.now) fault) }
{
    let mut grants = Vec::new(alloc);
    for item in items {
        grants
            .push(read_grant(item)?)
            .map_err(|_| RightsFault::Memory)?;
    }
    Ok(grants)
}

/// The latest end so far, and that of one more grant: the later of the two.
fn later_end(latest: Option<Option<Moment>>, until: Option<Moment>) -> Option<Moment>
    ensures { IsLatest (λ end. (end ≡ until) ⊎ (latest ≡ Some end)) result }
{
    match latest {
        Some(end) => Some(end?.later(until?)),
        None => until,
    }
}

/// The latest end of the grants of a right, if one of them is of the right.
fn latest_end(grants: &[Grant], right: Right) -> Option<Option<Moment>>
    // the end that is given is the latest of the grants of the right
    ensures some { IfSome result (IsLatest (IsGranted grants.now right)) }
    // where none is given, no grant is of the right
    ensures none { IfNone result ((until : _) → ¬ IsGranted grants.now right until) }
{
    let mut latest = None;
    for grant in grants {
        let (granted, until) = *grant;
        if granted == right {
            latest = Some(later_end(latest, until));
        }
    }
    latest
}

/// Adds a row for each of the rights, by number and each once, with the latest of its ends.
pub(crate) fn push_rows(
    caller: Caller,
    merchant: MerchantId,
    grants: &[Grant],
    rows: &mut Vec<(Caller, MerchantId, Right, Option<Moment>)>,
) -> Result<(), AllocError>
    // Ok adds, in order, a row of the caller and the merchant for each right that is granted, with its latest
    // end
    ensures rows { IfOk result (λ _. IsExtendedBy
        (λ row. (row.0 ≡ caller) × (row.1 ≡ merchant) × IsLatest (IsGranted grants.now row.2) row.3)
        rows.old.items rows.new.items) }
{
    for right in RIGHTS {
        if let Some(until) = latest_end(grants, right) {
            rows.push((caller, merchant, right, until))?;
        }
    }
    Ok(())
}
