//! Ordered maps over the rows that entries name.
ghost use Rattle.std.specs.Prelude.{◌≡◌, ◌+◌, List, [], IfOk, OnOk, length};
ghost use Rattle.std.specs.Option.{option_copied};
ghost use Rattle.vault_rules.specs.Index.{IsIndexOf, made_of};
ghost use Rattle.vault_rules.specs.declared.rows.RawCard.{RawCard as CardRow};
ghost use Rattle.vault_rules.specs.Lookups as lookups;
ghost use Rattle.vault_rules.specs.NextRow.{TakesOneMore};

pub(crate) mod counted;
pub(crate) mod first;
pub(crate) mod found;
mod maps;

use crate::card_rows::Cards;
use crate::index::found::Found;
use crate::index::maps::{made_by_merchant, merchants_by_name};
use crate::rows::{RawCard, RawCount, RawEntry, RawMerchant};
use std::alloc::{AllocError, Global};
use std::collections::BTreeMap;

/// The merchants and their counts, with ordered maps over them for the look-ups that the rules need, and the
/// cards that came. Of several rows at a key the first is found.
#[derive(Drop)]
pub struct Index<'a> {
    pub(crate) merchants: &'a [RawMerchant],
    pub(crate) counts: &'a [RawCount],
    pub(crate) cards: Cards<'a>,
    by_name: BTreeMap<&'a str, &'a RawMerchant>,
    made: BTreeMap<&'a str, &'a RawCount>,
    ghost is_index: { IsIndexOf by_name made merchants.now counts.now },
}

impl<'a> Index<'a> {
    ghost use Rattle.vault_rules.specs.Found.{IsFoundIn};
    ghost use Rattle.vault_rules.specs.HeldRows.{HoldCards};

    /// Makes the maps of the rows; no card came yet. Only memory can fail.
    pub fn of(
        alloc: Global,
        merchants: &'a [RawMerchant],
        counts: &'a [RawCount],
    ) -> Result<Index<'a>, AllocError>
        // with Ok, it has these merchants
        ensures merchants { IfOk result (λ index. index.merchants.now ≡ merchants.now) }
        // with Ok, it has these counts
        ensures counts { IfOk result (λ index. index.counts.now ≡ counts.now) }
        // with Ok, it holds no card
        ensures cards { IfOk result (λ index. HoldCards merchants.now index.cards []) }
    {
        let by_name = merchants_by_name(alloc, merchants)?;
        let made = made_by_merchant(alloc, counts)?;
        Ok(Index {
            merchants,
            counts,
            cards: Cards::new(alloc),
            by_name,
            made,
        })
    }

    /// Takes the next card row. Only memory can fail.
    pub fn take(&mut self, card: &RawCard) -> Result<(), AllocError>
        // the merchants stay as they were
        ensures merchants { self.new.merchants ≡ self.old.merchants }
        // the counts stay as they were
        ensures counts { self.new.counts ≡ self.old.counts }
        // with Ok, one more card came
        ensures counted { OnOk result
            (length self.new.cards.kept.items ≡ length self.old.cards.kept.items + 1) }
        // with Ok, the cards held are those before and this one
        ensures taken { OnOk result (TakesOneMore (λ index. HoldCards index.merchants.now index.cards)
            self.old self.new card.now) }
    {
        let merchant = self.merchant(card.merchant.as_str());
        self.cards.take(merchant, card)
    }

    /// The merchants.
    pub fn merchants(&self) -> &'a [RawMerchant]
        ensures { result.now ≡ self.now.merchants.now }
    {
        self.merchants
    }

    /// Their counts.
    pub fn counts(&self) -> &'a [RawCount]
        ensures { result.now ≡ self.now.counts.now }
    {
        self.counts
    }

    /// The cards that came.
    pub fn cards(&self) -> &Cards<'a>
        ensures { result.now ≡ self.now.cards }
    {
        &self.cards
    }

    /// The merchant of a name.
    pub(crate) fn merchant(&self, name: &str) -> Option<&'a RawMerchant>
        // it is the first merchant of the name
        ensures { option_copied result ≡ lookups.merchant_of self.now.merchants.now name.now }
    {
        self.by_name.get(name).copied()
    }

    /// Whether there is a merchant of a name.
    pub(crate) fn is_known(&self, name: &str) -> bool
        ensures { result ≡ lookups.is_known self.now.merchants.now name.now }
    {
        self.merchant(name).is_some()
    }

    /// A merchant's count of tokens made.
    pub(crate) fn made(&self, merchant: &str) -> Option<&'a RawCount>
        // it is the merchant's first count of tokens made
        ensures { option_copied result ≡ made_of self.now.counts.now merchant.now }
    {
        self.made.get(merchant).copied()
    }

    /// An entry with its merchant and its card row.
    pub(crate) fn found<'b>(&self, entry: &'b RawEntry) -> Found<'a, 'b>
        // it has this entry
        ensures entry { result.entry.now ≡ entry.now }
        // it has the entry's first merchant and first card row, or none, of those that are held
        ensures found { (cards : List CardRow) → HoldCards self.now.merchants.now self.now.cards cards
            → IsFoundIn self.now.merchants.now cards result }
    {
        Found {
            entry,
            merchant: self.merchant(entry.merchant.as_str()),
            card: match entry.card {
                Some(id) => self.cards.card(id),
                None => None,
            },
        }
    }
}
