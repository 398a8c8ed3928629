//! The rule of card rows, and of the entries that point at them.
ghost use Rattle.std.specs.Prelude.{◌≡◌, ◌&&◌, is_some, true};
ghost use Rattle.std.specs.List.{list_all};
ghost use Rattle.vault_rules.specs.Found.{WhereFound};
ghost use Rattle.vault_rules.specs.HeldRows.{seen_card};
ghost use Rattle.vault_rules.specs.Kept.{is_used};
ghost use Rattle.vault_rules.specs.Lookups.{card_of};
ghost use Rattle.vault_rules.specs.Rules as rules;
ghost use Rattle.vault_rules.specs.Seen.{WhereHeld};

use crate::card_rows::Card;
use crate::entries::Entries;
use crate::index::found::Found;

/// Rule 13: each card row's merchant exists, and its uses are the number of entries that point at it, 1 or
/// more; the card of each entry that isn't purged is a card row of its merchant.
pub fn are_cards(entries: &Entries) -> bool
    // it is so of the rows that came, where each entry has a merchant and a token
    ensures { WhereHeld entries.now (λ rows raws. entries.now.rules.tokens ≡ true → result
        ≡ (list_all (rules.is_card entries.now.index.merchants.now raws) rows
        && list_all (rules.has_card rows) raws)) }
{
    have_uses(entries) && entries.rules.pointed
}

/// Whether each card row keeps its half of the rule.
fn have_uses(entries: &Entries) -> bool
    ensures { WhereHeld entries.now (λ rows raws.
        result ≡ list_all (rules.is_card entries.now.index.merchants.now raws) rows) }
{
    for card in &entries.index.cards.kept {
        if !is_card(entries, card) {
            return false;
        }
    }
    true
}

/// Whether a card row's merchant exists, and its uses are the number of entries that point at it.
fn is_card(entries: &Entries, c: &Card) -> bool
    // of a card whose id has a row, it tells this, and that the uses are 1 or more
    ensures { WhereHeld entries.now (λ rows raws.
        is_some (card_of rows c.now.id) ≡ true → result ≡ is_used raws (seen_card c.now)) }
{
    c.merchant.is_some() && 1 <= c.uses && c.uses as u64 == entries.used(c.id) as u64
}

/// Whether an entry's card, unless it is purged, is a card row of its merchant, which exists.
pub(crate) fn has_card(found: &Found) -> bool
    ensures { WhereFound found.now (λ merchants cards.
        is_some found.now.merchant ≡ true → result ≡ rules.has_card cards found.now.entry.now) }
{
    match &found.card {
        Some(card) => match card.merchant {
            Some(merchant) => merchant.name.as_str() == found.entry.merchant.as_str(),
            None => false,
        },
        None => found.entry.card.is_none(),
    }
}
