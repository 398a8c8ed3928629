//! What the rules need of card rows, which come one after the other.
ghost use Rattle.std.specs.Prelude.{◌≡◌, ◌+◌, List, [], OnOk, length, option_map};
ghost use Rattle.std.specs.Prelude.{map, position, slice_get, true};
ghost use Rattle.std.specs.Option.{option_copied};
ghost use Rattle.std.specs.Ordering.{int_eq};
ghost use Rattle.vault_rules.specs.Kept as kept;
ghost use Rattle.vault_rules.specs.Kept.{card_merchant, place_of};
ghost use Rattle.vault_rules.specs.Lookups.{card_of};
ghost use Rattle.vault_rules.specs.NextRow.{TakesOneMore};
ghost use Rattle.vault_rules.specs.RisingNumbers.{are_rising};
ghost use Rattle.vault_rules.specs.declared.rows.RawCard.{RawCard as CardRow};
ghost use Rattle.vault_rules.specs.declared.rows.RawMerchant.{RawMerchant as MerchantRow};

use crate::rising::Rising;
use crate::rows::{RawCard, RawMerchant};
use std::alloc::{AllocError, Global};
use vault_pan::pan::MOST_DIGITS;
use vault_pan::short::Short;

/// A card row as the rules need it.
#[derive(Clone, Copy)]
pub struct Card<'a> {
    pub(crate) id: i64,
    pub(crate) uses: i64,
    /// The merchant, where there is one of its name.
    pub(crate) merchant: Option<&'a RawMerchant>,
    /// The number; none where the text is longer than a number.
    pub(crate) number: Short<MOST_DIGITS>,
}

/// A text of as many bytes as a number may have; the empty one in place of a longer one.
fn short_text(text: &str) -> Short<MOST_DIGITS>
    ensures { result ≡ kept.short_text text.now }
{
    let mut short = Short::new();
    if text.len() <= MOST_DIGITS {
        short.extend(text.as_bytes());
    }
    short
}

/// The card at a place, where there is one.
fn card_at<'a>(kept: &[Card<'a>], place: usize) -> Option<Card<'a>>
    ensures { result ≡ slice_get kept.now place }
{
    kept.get(place).copied()
}

/// The place of the first card of an id.
fn first_of(kept: &[Card], id: i64) -> Option<usize>
    ensures { result ≡ position (λ c. int_eq c.id id) kept.now }
{
    kept.iter().position(|card| card.id == id)
}

/// The place of the card of an id, where the ids rise.
fn searched(kept: &[Card], id: i64) -> Option<usize>
    // where the ids rise, it is the place of the first card of the id
    ensures { are_rising (map (λ c. c.id) kept.now) ≡ true
        → result ≡ position (λ c. int_eq c.id id) kept.now }
{
    kept.binary_search_by_key(&id, |card| card.id).ok()
}

/// The card rows that came, as far as the rules need them. Of several at an id the first is found.
#[derive(Drop)]
pub struct Cards<'a> {
    pub(crate) kept: Vec<Card<'a>>,
    rowids: Rising,
}

impl<'a> Cards<'a> {
    ghost use Rattle.vault_rules.specs.HeldRows.{HoldCards, seen_card};

    /// None came yet.
    pub(crate) fn new(alloc: Global) -> Cards<'a>
        ensures { (merchants : List MerchantRow) → HoldCards merchants result [] }
    {
        Cards {
            kept: Vec::new(alloc),
            rowids: Rising::new(),
        }
    }

    /// Takes the next card row, with its merchant. Only memory can fail.
    pub(crate) fn take(
        &mut self,
        merchant: Option<&'a RawMerchant>,
        card: &RawCard,
    ) -> Result<(), AllocError>
        // with Ok, one more came
        ensures counted { OnOk result (length self.new.kept.items ≡ length self.old.kept.items + 1) }
        // with Ok, where the merchant is the row's own, the rows that are kept are those before and this one
        ensures taken { OnOk result ((merchants : List MerchantRow)
            → option_copied merchant.entry ≡ card_merchant merchants card.now
            → TakesOneMore (HoldCards merchants) self.old self.new card.now) }
    {
        let kept = Card {
            id: card.id,
            uses: card.uses,
            merchant,
            number: short_text(card.number.as_str()),
        };
        match self.kept.push(kept) {
            Ok(()) => {}
            Err(_) => return Err(AllocError),
        }
        self.rowids.take(card.id);
        Ok(())
    }

    /// The place of the card row of an id.
    pub(crate) fn place(&self, id: i64) -> Option<usize>
        ensures { (merchants : List MerchantRow) (raws : List CardRow) → HoldCards merchants self.now raws
            → result ≡ place_of raws id }
    {
        if self.rowids.rises() {
            searched(&self.kept, id)
        } else {
            first_of(&self.kept, id)
        }
    }

    /// The card row of an id.
    pub(crate) fn card(&self, id: i64) -> Option<Card<'a>>
        ensures { (merchants : List MerchantRow) (raws : List CardRow) → HoldCards merchants self.now raws
            → option_map seen_card result ≡ option_map (kept.kept_card merchants) (card_of raws id) }
    {
        match self.place(id) {
            Some(place) => card_at(&self.kept, place),
            None => None,
        }
    }

    /// Their ids.
    pub fn rowids(&self) -> &Rising
        ensures { result.now ≡ self.now.rowids }
    {
        &self.rowids
    }
}
