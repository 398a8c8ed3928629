//! The step from schema 1 to schema 2: each number stands once a merchant, on a card.
ghost use Rattle.std.specs.Prelude.{◌<◌, ◌^◌};
ghost use Rattle.std.specs.List.{All};
ghost use Rattle.sql_tables.specs.Transactions.{Inside, LeadsTo};
ghost use Rattle.vault_tables.specs.Calls.{MakesInEach};
ghost use Rattle.vault_schema.specs.Versions.{WithinOf};
ghost use Rattle.vault_steps.specs.Entries.{AreEntriesOf, AreStorable, joined, with_all};

use crate::entries::Piece;
use crate::room::make_room;
use sql_tables::fault::StoreFault;
use sqlite::{Alter, Transaction};
use vault_core::name::MerchantId;
use vault_core::row::Entry;
use vault_pan::token::Token;
use vault_schema::version::Version;
use vault_tables::columns::merchant_text;
use vault_tables::entries::add_entry;

/// Writes new entries, one after the other.
fn put_entries<S: Alter>(
    tx: &mut Transaction<'_, S>,
    entries: &[(MerchantId, Token, Entry)],
) -> Result<(), StoreFault>
    requires { All (λ x. x.2.expires < 2 ^ 63) entries.now }
    ensures { Inside S.Store tx.old tx.new (MakesInEach result
        (λ _. Unit {0}) (λ h. record h { entries = with_all entries.now h.entries })) }
{
    for (m, token, entry) in entries {
        add_entry(tx, merchant_text(m), token.as_str(), entry)?;
    }
    Ok(())
}

/// The same, piece by piece. The memory of each goes as soon as it is written.
fn put_pieces<S: Alter>(tx: &mut Transaction<'_, S>, pieces: Vec<Piece>) -> Result<(), StoreFault>
    // the end of each entry fits an integer of the database
    requires { AreStorable pieces.items }
    ensures { Inside S.Store tx.old tx.new (MakesInEach result
        (λ _. Unit {0}) (λ h. record h { entries = with_all (joined pieces.items) h.entries })) }
{
    for piece in pieces {
        put_entries(tx, piece.as_slice())?;
    }
    Ok(())
}

/// All statements of the step, inside a transaction, where these are the entries.
pub(crate) fn step_up<S: Alter>(
    tx: &mut Transaction<'_, S>,
    pieces: Vec<Piece>,
) -> Result<(), StoreFault>
    // the end of each entry fits an integer of the database
    requires { AreStorable pieces.items }
    ensures { LeadsTo S.Store tx.old tx.new result
        (λ h base st. WithinOf Version.One h base st × AreEntriesOf (joined pieces.items) h)
        (WithinOf Version.Two) }
{
    make_room(tx, pieces.len())?;
    put_pieces(tx, pieces)
}
