//! The index of multi-use tokens by merchant and number.
ghost use Rattle.std.specs.Prelude.{◌≡◌, ◌≤◌, ℕ, true, false, Some, None, IfSome, IfNone, OnOk, OnErr, IsOk};
ghost use Rattle.std.specs.BTreeSet as keys;
ghost use Rattle.std.specs.FinMap as map;
ghost use Rattle.vault_core.specs.Keys.{Bytes, entry_cmp};
ghost use Rattle.vault_core.specs.declared.row.Entry.{Entry};
ghost use Rattle.vault_store.specs.Index.{Indexes, Place, key_at, number_cmp, number_key as number_key_lem};

use std::alloc::AllocError;
use std::collections::BTreeSet;
use std::ops::Bound;
use vault_core::name::MerchantId;
use vault_core::row::Entry;
use vault_core::usage::Use;
use vault_pan::pan::Pan;
use vault_pan::token::Token;

/// The end of an entry's life, and its token.
pub type Place = (u64, Token);

/// A merchant and a number, with a place of the number's; with `Err` it is greater than with any.
#[derive(Clone, Copy, PartialEq, Eq, PartialOrd, Ord)]
pub struct NumberKey {
    merchant: MerchantId,
    number: Pan,
    place: Result<Place, ()>,
}

/// The key of an entry that can be given again as long as it lives.
fn number_key(merchant: MerchantId, token: Token, entry: Entry) -> Option<NumberKey>
    ensures { result ≡ number_key_lem merchant token entry }
{
    if entry.usage != Use::Multi || entry.revoked.is_some() {
        return None;
    }
    let number = entry.number?;
    Some(NumberKey {
        merchant,
        number,
        place: Ok((entry.expires, token)),
    })
}

/// Puts in the key of an entry at a token that has none yet.
pub fn put_in(
    index: &mut BTreeSet<NumberKey>,
    merchant: MerchantId,
    token: Token,
    entry: Entry,
) -> Result<(), AllocError>
    // with Ok, an index of entries with none at the token is one of them with this one there
    ensures ok { OnOk result ((F : map.FinMap entry_cmp Entry) → map.get F (merchant, token) ≡ None
        → Indexes index.old F → Indexes index.new (map.insert F (merchant, token) entry)) }
    // where it is refused, the index is one of the entries that it was of
    ensures err { OnErr result
        ((F : map.FinMap entry_cmp Entry) → Indexes index.old F → Indexes index.new F) }
    // an entry that has no key isn't refused
    ensures keyless { number_key_lem merchant token entry ≡ None → IsOk result }
{
    let Some(number) = number_key(merchant, token, entry) else {
        return Ok(());
    };
    index.insert(number)?;
    Ok(())
}

/// Takes out the key of the entry at a token, if there is one.
pub fn take_out(
    index: &mut BTreeSet<NumberKey>,
    merchant: MerchantId,
    token: Token,
    was: Option<Entry>,
)
    ensures { (F : map.FinMap entry_cmp Entry) → map.get F (merchant, token) ≡ was
        → Indexes index.old F → Indexes index.new (map.remove F (merchant, token)) }
{
    let Some(entry) = was else {
        return;
    };
    let Some(number) = number_key(merchant, token, entry) else {
        return;
    };
    let _ = index.remove(&number);
}

/// The place of a merchant's number whose end is the latest.
pub fn latest(index: &BTreeSet<NumberKey>, merchant: MerchantId, pan: &Pan) -> Option<Place>
    // a place that is given is in the index
    ensures there { IfSome result
        (λ place. keys.contains number_cmp index.now (key_at merchant pan.now place) ≡ true) }
    // no place of the number in the index has a later end than the one that is given
    ensures latest { IfSome result (λ place. (other : Place)
        → keys.contains number_cmp index.now (key_at merchant pan.now other) ≡ true
        → other.0 ≤ place.0) }
    // where none is given, no place of the number is in the index
    ensures none { IfNone result ((place : Place)
        → keys.contains number_cmp index.now (key_at merchant pan.now place) ≡ false) }
{
    let after = NumberKey {
        merchant,
        number: *pan,
        place: Err(()),
    };
    let last = index
        .range((Bound::Unbounded, Bound::Excluded(after)))
        .next_back()?;
    if last.merchant == merchant && last.number == *pan {
        last.place.ok()
    } else {
        None
    }
}
