//! Old entries as the vault has them.
ghost use Rattle.std.specs.Prelude.{◌≡◌, ◌<◌, ◌^◌, ◌++◌, [], ◌∷◌, drop, length, map};
ghost use Rattle.std.specs.Prelude.{IfOk, OnOk};
ghost use Rattle.std.specs.List.{All};
ghost use Rattle.vault_migrate.specs.Typed.{old_columns, typed_columns};
ghost use Rattle.sql_tables.specs.Values.{int_value, maybe_text_value};
ghost use Rattle.vault_tables.specs.EntryTexts.{old_entry_values};
ghost use Rattle.vault_schema.specs.Entries.{entry_columns};
ghost use Rattle.vault_schema.specs.Values.{number_or_null, text_or_null};
ghost use Rattle.vault_steps.specs.Entries.{AreStorable, joined};

use sql_tables::fault::StoreFault;
use std::alloc::{AllocError, Global};
use vault_core::moment::Moment;
use vault_core::name::MerchantId;
use vault_core::row::Entry;
use vault_pan::pan::Pan;
use vault_pan::token::Token;
use vault_steps::entries::{PIECE, Piece};
use vault_tables::columns::{
    maybe_moment_of, maybe_number_of, merchant_of, moment_of, seconds_of, token_of, usage_of,
};
use vault_tables::entries::old::OldEntry;

/// An old entry's columns behind its key, with these values of those that may be NULL.
fn entry_of(
    older: &OldEntry,
    number: Option<Pan>,
    revoked: Option<Moment>,
) -> Result<Entry, StoreFault>
    // the number that is handed in is the old entry's
    requires number { maybe_text_value older.now.number ≡ text_or_null number }
    // the moment that is handed in is that at which the old entry was revoked
    requires revoked { int_value older.now.revoked ≡ number_or_null revoked }
    // the columns behind the token are the old entry's
    ensures columns { IfOk result (λ e. drop 3 (old_entry_values older.now) ≡ entry_columns e) }
    // its end is below 2^63
    ensures small { IfOk result (λ e. e.expires < 2 ^ 63) }
{
    let usage = usage_of(older.usage)?;
    let birth = moment_of(older.birth)?;
    let expires = seconds_of(older.expires)?;
    Ok(Entry {
        number,
        usage,
        birth,
        expires,
        revoked,
    })
}

/// An old entry, with its merchant and its token, and these values.
fn typed(
    older: &OldEntry,
    number: Option<Pan>,
    revoked: Option<Moment>,
) -> Result<(MerchantId, Token, Entry), StoreFault>
    // the number that is handed in is the old entry's
    requires number { maybe_text_value older.now.number ≡ text_or_null number }
    // the moment that is handed in is that at which the old entry was revoked
    requires revoked { int_value older.now.revoked ≡ number_or_null revoked }
    // the columns behind the rowid are the old entry's
    ensures row { IfOk result (λ x. old_columns older.now ≡ typed_columns x) }
    // its end is below 2^63
    ensures small { IfOk result (λ x. x.2.expires < 2 ^ 63) }
{
    let merchant = merchant_of(older.merchant.as_str())?;
    let token = token_of(older.token.as_str())?;
    let entry = entry_of(older, number, revoked)?;
    Ok((merchant, token, entry))
}

/// Puts one more behind a list. Only memory can fail.
fn add<T: Drop>(list: &mut Vec<T>, one: T) -> Result<(), AllocError>
    ensures { OnOk result (list.new.items ≡ list.old.items ++ one ∷ []) }
{
    list.push(one)?;
    Ok(())
}

/// Old entries, each with its merchant and its token; one that can't be read so is refused.
fn typed_piece(alloc: Global, olders: &[OldEntry]) -> Result<Piece, StoreFault>
    // the entries are the old ones, in their order
    ensures rows { IfOk result (λ xs. map old_columns olders.now ≡ map typed_columns xs.items) }
    // the end of each is below 2^63
    ensures storable { IfOk result (λ xs. All (λ x. x.2.expires < 2 ^ 63) xs.items) }
{
    let mut piece = Vec::with_capacity(alloc, olders.len())?;
    for older in olders {
        let number = maybe_number_of(&older.number)?;
        let revoked = maybe_moment_of(older.revoked)?;
        add(&mut piece, typed(older, number, revoked)?)?;
    }
    Ok(piece)
}

/// Takes the last piece of old entries, and gives back the memory that they took.
fn last_piece(left: &mut Vec<OldEntry>) -> Result<Vec<OldEntry>, AllocError>
    // what there was is what is left, with the piece behind it
    ensures all { IfOk result (λ piece. left.old.items ≡ left.new.items ++ piece.items) }
    // where there were any, fewer are left
    ensures less { OnOk result (0 < length left.old.items → length left.new.items < length left.old.items) }
{
    let piece = left.split_off(left.len().saturating_sub(PIECE))?;
    left.shrink_to_fit();
    Ok(piece)
}

/// Old entries in pieces, each with its merchant and its token; one that can't be read so is refused. A piece
/// of old entries goes as soon as it was read, so that no more is kept than either of the lists.
pub(crate) fn typed_entries(alloc: Global, olders: Vec<OldEntry>) -> Result<Vec<Piece>, StoreFault>
    // the entries are the old ones, in their order
    ensures rows { IfOk result (λ xs. map old_columns olders.items ≡ map typed_columns (joined xs.items)) }
    // the end of each is below 2^63
    ensures storable { IfOk result (λ xs. AreStorable xs.items) }
{
    let mut left = olders;
    let mut pieces = Vec::new(alloc);
    while !left.is_empty() {
        let piece = last_piece(&mut left)?;
        add(&mut pieces, typed_piece(alloc, piece.as_slice())?)?;
    }
    pieces.reverse();
    Ok(pieces)
}
