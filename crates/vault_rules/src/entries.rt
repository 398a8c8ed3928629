//! What the rules need of entries, which come one after the other.
ghost use Rattle.std.specs.Prelude.{◌≡◌, ◌+◌, ◌<◌, ◌^◌, true, List, [], OnOk, is_some};
ghost use Rattle.std.specs.Prelude.{option_and_then};
ghost use Rattle.vault_rules.specs.Kept.{place_of};
ghost use Rattle.vault_rules.specs.Lookups.{card_of, held_by, is_known, token_usage, used_by};
ghost use Rattle.vault_rules.specs.NextRow.{TakesOneMore};
ghost use Rattle.vault_rules.specs.declared.rows.RawCard.{RawCard as CardRow};

mod tokens;

use crate::entries::tokens::Tokens;
use crate::index::Index;
use crate::index::counted::{count_at, count_of, one_more};
use crate::rising::Rising;
use crate::rows::RawEntry;
use crate::rules::entries::EntryRules;
use crate::rules::live::Live;
use std::alloc::{AllocError, Global};

/// The entries that came, as far as the rules need them: none of their rows is kept.
#[derive(Drop)]
pub struct Entries<'a> {
    pub(crate) index: Index<'a>,
    many: usize,
    rowids: Rising,
    pub(crate) rules: EntryRules,
    pub(crate) live: Live<'a>,
    tokens: Tokens<'a>,
    /// How many entries point at the card row of each place.
    used: Vec<usize>,
}

impl<'a> Entries<'a> {
    ghost use Rattle.vault_rules.specs.HeldRows.{HoldCards};
    ghost use Rattle.vault_rules.specs.Seen.{HasEntries, WhereHeld};

    /// None came yet.
    pub fn new(alloc: Global, index: Index<'a>) -> Entries<'a>
        // it has the rows that are handed in
        ensures index { result.index ≡ index.entry }
        // where the index holds these cards, no entries came behind them
        ensures none { (cards : List CardRow) → HoldCards index.entry.merchants.now index.entry.cards cards
            → HasEntries result cards [] }
    {
        Entries {
            index,
            many: 0,
            rowids: Rising::new(),
            rules: EntryRules::new(),
            live: Live::new(alloc),
            tokens: Tokens::new(alloc),
            used: Vec::new(alloc),
        }
    }

    /// The place of the card row that an entry points at.
    fn pointed(&self, entry: &RawEntry) -> Option<usize>
        ensures { (cards : List CardRow) → HoldCards self.now.index.merchants.now self.now.index.cards cards
            → result ≡ option_and_then (place_of cards) entry.now.card }
    {
        match entry.card {
            Some(id) => self.index.cards.place(id),
            None => None,
        }
    }

    /// Takes the next entry. Only memory can fail.
    pub fn take(&mut self, entry: &RawEntry) -> Result<(), AllocError>
        // the rows that it names stay as they were
        ensures index { self.new.index ≡ self.old.index }
        // with Ok, one more came
        ensures counted { OnOk result (self.new.many ≡ self.old.many + 1) }
        // with Ok, fewer than 2^64 came
        ensures few { OnOk result (self.new.many < 2 ^ 64) }
        // with Ok, those before and this one came, behind the same cards
        ensures taken { OnOk result ((cards : List CardRow)
            → TakesOneMore (λ it. HasEntries it cards) self.old self.new entry.now) }
    {
        let found = self.index.found(entry);
        self.many = one_more(self.many)?;
        self.rowids.take(entry.rowid);
        self.rules.take(&found);
        self.live.take(&found)?;
        self.tokens.take(&found)?;
        if let Some(place) = self.pointed(entry) {
            count_at(&mut self.used, place)?;
        }
        Ok(())
    }

    /// The rows that they name.
    pub fn index(&self) -> &Index<'a>
        ensures { result.now ≡ self.now.index }
    {
        &self.index
    }

    /// How many came.
    pub fn many(&self) -> usize
        ensures { result ≡ self.now.many }
    {
        self.many
    }

    /// Their rowids.
    pub fn rowids(&self) -> &Rising
        ensures { result.now ≡ self.now.rowids }
    {
        &self.rowids
    }

    /// How many entries a merchant that exists has.
    pub(crate) fn held(&self, merchant: &str) -> usize
        ensures { WhereHeld self.now (λ cards raws.
            is_known self.now.index.merchants.now merchant.now ≡ true
            → result ≡ held_by raws merchant.now) }
    {
        self.tokens.held(merchant)
    }

    /// How many entries point at the card row of an id.
    pub(crate) fn used(&self, id: i64) -> usize
        // of an id that has a card row, it is the number of entries that point at it
        ensures { WhereHeld self.now (λ cards raws.
            is_some (card_of cards id) ≡ true → result ≡ used_by raws id) }
    {
        match self.index.cards.place(id) {
            Some(place) => count_of(&self.used, place),
            None => 0,
        }
    }

    /// The usage of a merchant's token, where each entry has a merchant and a token.
    pub(crate) fn usage(&self, merchant: &str, token: &str) -> Option<i64>
        ensures { WhereHeld self.now (λ cards raws.
            self.now.rules.tokens ≡ true → result ≡ token_usage raws merchant.now token.now) }
    {
        match self.index.merchant(merchant) {
            Some(merchant) => self.tokens.usage(merchant, token.as_bytes()),
            None => None,
        }
    }
}
