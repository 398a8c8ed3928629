//! Entries, with an index by which a number's live token is found.
ghost use Rattle.std.specs.Prelude.{◌≡◌, true, None, IfOk, OnOk, OnErr, IfSome, IfNone, is_some};
ghost use Rattle.std.specs.BTreeMap as tree;
ghost use Rattle.std.specs.FinMap as map;
ghost use Rattle.vault_core.specs.Keys.{Bytes, entry_cmp};
ghost use Rattle.vault_core.specs.declared.row.Entry.{Entry};
ghost use Rattle.vault_store.specs.HeldEntries.{HoldsEntries};
ghost use Rattle.vault_store.specs.Index.{ShowsIndex, number_key, with_at};
ghost use Rattle.vault_store.specs.Live.{IsLiveToken};

use crate::memory::current::live_token;
use crate::memory::index::{NumberKey, latest, put_in, take_out};
use crate::memory::keyed_rows::{put, put_back};
use std::alloc::{AllocError, Global};
use std::collections::{BTreeMap, BTreeSet};
use vault_core::moment::Moment;
use vault_core::name::MerchantId;
use vault_core::row::Entry;
use vault_pan::pan::Pan;
use vault_pan::token::Token;

/// Entries by merchant and token, with the index of their multi-use tokens.
///
/// A change that adds no entry is never refused. Where it gives an entry a key in the index, which no
/// command does, and memory for that is refused, the index is dropped, and the entries are walked.
#[derive(Drop)]
pub struct Entries {
    pub(super) rows: BTreeMap<(MerchantId, Token), Entry>,
    index: Option<BTreeSet<NumberKey>>,
}

impl Entries {
    /// No entries, which take no memory yet.
    pub fn new(alloc: Global) -> Entries
        // it holds no entries
        ensures held { HoldsEntries result map.empty }
        // it has an index
        ensures indexed { is_some result.index ≡ true }
    {
        Entries {
            rows: BTreeMap::new(alloc),
            index: Some(BTreeSet::new(alloc)),
        }
    }

    /// What a merchant's token stands for.
    pub fn get(&self, merchant: MerchantId, token: Token) -> Option<Entry>
        ensures { result ≡ tree.get entry_cmp self.now.rows (merchant, token) }
    {
        self.rows.get(&(merchant, token)).copied()
    }

    /// Puts an entry at a token, and gives the one that stood there. Only a new token can be refused.
    pub fn put(
        &mut self,
        merchant: MerchantId,
        token: Token,
        entry: &Entry,
    ) -> Result<Option<Entry>, AllocError>
        // Ok gives what stood at the token before
        ensures was { IfOk result (λ was. was ≡ tree.get entry_cmp self.old.rows (merchant, token)) }
        // with Ok, the entries that were held are held with this one at its token
        ensures ok { OnOk result ((F : map.FinMap entry_cmp Entry)
            → HoldsEntries self.old F → HoldsEntries self.new (map.insert F (merchant, token) entry.now)) }
        // where it is refused, nothing stood at the token
        ensures new { OnErr result (tree.get entry_cmp self.old.rows (merchant, token) ≡ None) }
        // where it is refused, the entries that were held are held still
        ensures err { OnErr result ((F : map.FinMap entry_cmp Entry)
            → HoldsEntries self.old F → HoldsEntries self.new F) }
        // where nothing stood at the token, an index that was there stays, and none comes up
        ensures new_indexed { tree.get entry_cmp self.old.rows (merchant, token) ≡ None
            → is_some self.new.index ≡ is_some self.old.index }
        // where the entry has no key, an index that was there stays, and none comes up
        ensures keyless_indexed { number_key merchant token entry.now ≡ None
            → is_some self.new.index ≡ is_some self.old.index }
    {
        let was = put(&mut self.rows, (merchant, token), *entry)?;
        if was.is_some() {
            follow(&mut self.index, merchant, token, was, Some(*entry));
            return Ok(was);
        }
        if let Err(refused) = add(&mut self.index, merchant, token, *entry) {
            put_back(&mut self.rows, (merchant, token), None);
            return Err(refused);
        }
        Ok(None)
    }

    /// Puts back the entry that stood at a token before another was put there.
    pub fn put_back(
        &mut self,
        merchant: MerchantId,
        token: Token,
        entry: &Entry,
        was: Option<Entry>,
    )
        ensures { (F : map.FinMap entry_cmp Entry) → was ≡ map.get F (merchant, token)
            → HoldsEntries self.old (map.insert F (merchant, token) entry.now) → HoldsEntries self.new F }
    {
        let row = was;
        put_back(&mut self.rows, (merchant, token), row);
        follow(&mut self.index, merchant, token, Some(*entry), was);
    }

    /// A live multi-use token of a card number at a merchant.
    pub fn current(&self, merchant: MerchantId, pan: &Pan, at: Moment) -> Option<Token>
        // where entries are held, a token that is given is a live multi-use one of the number at the merchant
        ensures some { (F : map.FinMap entry_cmp Entry) → HoldsEntries self.now F
            → IfSome result (IsLiveToken self.now.rows merchant pan.now at) }
        // where entries are held and none is given, the merchant has no live multi-use token of the number
        ensures none { (F : map.FinMap entry_cmp Entry) → HoldsEntries self.now F
            → IfNone result
            ((token : Bytes) → ¬ (IsLiveToken self.now.rows merchant pan.now at token)) }
    {
        let Some(index) = &self.index else {
            return live_token(&self.rows, merchant, pan, at);
        };
        let (end, token) = latest(index, merchant, pan)?;
        if at.seconds() < end {
            Some(token)
        } else {
            None
        }
    }
}

/// Puts an entry at a new token in the index, if there is one.
fn add(
    index: &mut Option<BTreeSet<NumberKey>>,
    merchant: MerchantId,
    token: Token,
    entry: Entry,
) -> Result<(), AllocError>
    // with Ok, an index that showed entries with none at the token shows them with this one there
    ensures ok { OnOk result ((F : map.FinMap entry_cmp Entry) → map.get F (merchant, token) ≡ None
        → ShowsIndex index.old F → ShowsIndex index.new (map.insert F (merchant, token) entry)) }
    // where it is refused, the index shows the entries that it showed
    ensures err { OnErr result
        ((F : map.FinMap entry_cmp Entry) → ShowsIndex index.old F → ShowsIndex index.new F) }
    // an index that was there stays, and none comes up
    ensures kept { is_some index.new ≡ is_some index.old }
{
    let Some(keys) = index else {
        return Ok(());
    };
    put_in(keys, merchant, token, entry)
}

/// Has the index follow a change of the entry at a token. It is dropped where it should get a key, and
/// memory for that is refused.
fn follow(
    index: &mut Option<BTreeSet<NumberKey>>,
    merchant: MerchantId,
    token: Token,
    was: Option<Entry>,
    now: Option<Entry>,
)
    // an index that showed entries with the earlier one at the token shows them with the later one there
    ensures shown { (F : map.FinMap entry_cmp Entry) → map.get F (merchant, token) ≡ was
        → ShowsIndex index.old F → ShowsIndex index.new (with_at F (merchant, token) now) }
    // where the later entry is none or has no key, an index that was there stays, and none comes up
    ensures kept { IfSome now (λ entry. number_key merchant token entry ≡ None)
        → is_some index.new ≡ is_some index.old }
{
    let Some(keys) = index else {
        return;
    };
    take_out(keys, merchant, token, was);
    let Some(entry) = now else {
        return;
    };
    if put_in(keys, merchant, token, entry).is_err() {
        *index = None;
    }
}
