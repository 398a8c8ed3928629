//! Old entries as rows of schema 2, in which each number is a card of its own.
ghost use Rattle.std.specs.Prelude.{◌≡◌, IfErr, IfOk, List, map, option_map};
ghost use Rattle.std.specs.List.{filter_map};
ghost use Rattle.vault_verdict.specs.Made.{as_card, as_entry, own_card};
ghost use Rattle.vault_tables.specs.CardTexts.{card_values};
ghost use Rattle.vault_tables.specs.EntryTexts.{entry_values};
ghost use Rattle.vault_tables.specs.Taken.{CardsTaken, EntriesTaken};
ghost use Rattle.vault_rules.specs.declared.rows.RawCard.{RawCard as CardRow};
ghost use Rattle.vault_rules.specs.declared.rows.RawEntry.{RawEntry as EntryRow};

use sql_tables::fault::StoreFault;
use std::alloc::{AllocError, Global};
use vault_rules::entries::Entries;
use vault_rules::index::Index;
use vault_rules::rows::{RawCard, RawEntry};
use vault_tables::entries::old::OldEntry;

/// The id of an entry's own card, where it has a number.
fn own_card(older: &OldEntry) -> Option<i64>
    ensures { result ≡ own_card older.now }
{
    match &older.number {
        Some(_) => Some(older.rowid),
        None => None,
    }
}

/// An entry, which points at its own card.
fn entry_of(alloc: Global, older: &OldEntry) -> Result<RawEntry, AllocError>
    ensures { IfOk result (λ e. entry_values e ≡ as_entry older.now) }
{
    Ok(RawEntry {
        rowid: older.rowid,
        merchant: older.merchant.to_string(alloc)?,
        token: older.token.to_string(alloc)?,
        card: own_card(older),
        usage: older.usage,
        birth: older.birth,
        expires: older.expires,
        revoked: older.revoked,
    })
}

/// What takes the entries of old ones.
pub(crate) fn entries<'a>(
    alloc: Global,
    olders: &[OldEntry],
    start: Entries<'a>,
) -> Result<Entries<'a>, StoreFault>
    // Ok takes an entry for each old one, which is the old one as schema 2 has it
    ensures made { IfOk result (λ it. (raws : List EntryRow) × EntriesTaken start.entry it raws
        × (map as_entry olders.now ≡ map entry_values raws)) }
    // it is refused only for want of memory
    ensures memory { IfErr result (λ e. e ≡ StoreFault.Memory) }
{
    let mut entries = start;
    for older in olders {
        let entry = entry_of(alloc, older)?;
        entries.take(&entry)?;
    }
    Ok(entries)
}

/// An entry's own card, where it has a number.
fn card_of(alloc: Global, older: &OldEntry) -> Result<Option<RawCard>, AllocError>
    ensures { IfOk result (λ card. option_map card_values card ≡ as_card older.now) }
{
    let Some(number) = &older.number else {
        return Ok(None);
    };
    Ok(Some(RawCard {
        id: older.rowid,
        merchant: older.merchant.to_string(alloc)?,
        number: number.to_string(alloc)?,
        uses: 1,
    }))
}

/// What takes the cards of old entries.
pub(crate) fn cards<'a>(
    alloc: Global,
    olders: &[OldEntry],
    start: Index<'a>,
) -> Result<Index<'a>, StoreFault>
    // Ok takes a card for each old entry that has a number, as schema 2 has it
    ensures made { IfOk result (λ it. (raws : List CardRow) × CardsTaken start.entry it raws
        × (filter_map as_card olders.now ≡ map card_values raws)) }
    // it is refused only for want of memory
    ensures memory { IfErr result (λ e. e ≡ StoreFault.Memory) }
{
    let mut index = start;
    for older in olders {
        if let Some(card) = card_of(alloc, older)? {
            index.take(&card)?;
        }
    }
    Ok(index)
}
