//! The rows of entries.
ghost use Rattle.std.specs.Prelude.{◌≡◌, ◌<◌, ◌^◌, ℤ, min};
ghost use Rattle.sqlite.specs.Order.{column};
ghost use Rattle.sqlite.specs.declared.types.Value.TheVariants.{Int};
ghost use Rattle.sql_tables.specs.Rows.{one_of};
ghost use Rattle.sql_tables.specs.Transactions.{Between};
ghost use Rattle.vault_core.specs.Sound.{Sound};
ghost use Rattle.vault_core.specs.Vault.{entry_at};
ghost use Rattle.vault_core.specs.Window.{moment_at};
ghost use Rattle.vault_core.specs.declared.limit.TheConstants.{MOST_TOKENS};
ghost use Rattle.vault_sql.specs.DeadBefore.{AreFirstDead};
ghost use Rattle.vault_sql.specs.Calls.{Tells};
ghost use Rattle.vault_tables.specs.Calls.{TellsTables};
ghost use Rattle.vault_sql.specs.Cards.{IsCurrentWhere, current_token};
ghost use Rattle.vault_tables.specs.Shown.{text_column};

use sql_tables::fault::StoreFault;
use sql_tables::run::rows_of;
use sqlite::{Alter, Connection, Error, Row, params};
use vault_core::limit::MOST_TOKENS;
use vault_core::moment::Moment;
use vault_core::name::MerchantId;
use vault_core::row::Entry;
use vault_pan::pan::Pan;
use vault_pan::token::Token;
use vault_tables::cards::card_rows;
use vault_tables::columns::{merchant_text, token_in};
use vault_tables::entries::{self, FIND_CURRENT, FIND_DEAD, card_in_entry, entry_of, entry_with};

/// What a merchant's token stands for.
pub fn entry<S: Alter>(
    conn: &mut Connection<S>,
    m: &MerchantId,
    token: &Token,
) -> Result<Option<Entry>, StoreFault>
    ensures { Between S.Store conn.old conn.new (Tells result
        (λ V found. found ≡ entry_at V m.now token.now)) }
{
    let Some(found) = entries::find(conn, merchant_text(m), token.as_str())? else {
        return Ok(None);
    };
    match card_in_entry(&found) {
        Some(id) => entry_of(conn, id, &found),
        None => Ok(Some(entry_with(None, &found))),
    }
}

/// The live multi-use token of a card's number.
fn current_rows<S: Alter>(
    conn: &mut Connection<S>,
    m: &str,
    id: i64,
    at: u64,
) -> Result<Vec<Row>, Error>
    requires { at < 2 ^ 63 }
    // it is so of each sound vault whose number has this card, where the moment isn't before the merchant's
    ensures { Between S.Store conn.old conn.new (TellsTables result (λ t rows.
        IsCurrentWhere t id m.now at (λ token. rows.items ≡ one_of text_column token))) }
{
    rows_of(conn, FIND_CURRENT, params![m, id, at as i64])
}

/// The multi-use token of the number of a card whose row this is, which is live at a moment that isn't before
/// the merchant's.
fn current_of<S: Alter>(
    conn: &mut Connection<S>,
    m: &str,
    row: &Row,
    at: u64,
) -> Result<Option<Token>, StoreFault>
    requires { at < 2 ^ 63 }
    // it is so of each sound vault whose number has this card, where the moment isn't before the merchant's
    ensures { Between S.Store conn.old conn.new (TellsTables result (λ t found. (id : ℤ)
        → column row.now 0 ≡ Int id → IsCurrentWhere t id m.now at (λ token. found ≡ token))) }
{
    let id: i64 = row.get(0)?;
    let rows = current_rows(conn, m, id, at)?;
    match rows.first() {
        Some(row) => Ok(Some(token_in(row, 0)?)),
        None => Ok(None),
    }
}

/// The multi-use token of a card number that is live at a moment, which isn't before the merchant's.
pub fn current<S: Alter>(
    conn: &mut Connection<S>,
    m: &MerchantId,
    number: &Pan,
    at: Moment,
) -> Result<Option<Token>, StoreFault>
    ensures { Between S.Store conn.old conn.new (Tells result
        (λ V found. Sound V → moment_at V m.now at ≡ at → found ≡ current_token V m.now number.now at)) }
{
    let rows = card_rows(conn, merchant_text(m), number.as_str())?;
    match rows.first() {
        Some(row) => current_of(conn, merchant_text(m), row, at.seconds()),
        None => Ok(None),
    }
}

/// The first of a merchant's tokens that are dead at a moment, in order, where none before `from` is.
fn dead_rows<S: Alter>(
    conn: &mut Connection<S>,
    m: &str,
    from: &str,
    at: u64,
    many: u64,
) -> Result<Vec<Row>, Error>
    requires at { at < 2 ^ 63 }
    requires many { many < 2 ^ 63 }
    ensures { Between S.Store conn.old conn.new (Tells result
        (λ V rows. AreFirstDead V m.now at from.now many rows.items)) }
{
    rows_of(conn, FIND_DEAD, params![m, from, at as i64, many as i64])
}

/// The rows of the first `limit` tokens of a merchant that are dead at a moment, in order, where none before
/// `from` is. They are no more than a merchant can have.
pub fn dead<S: Alter>(
    conn: &mut Connection<S>,
    m: &MerchantId,
    at: Moment,
    from: &str,
    limit: usize,
) -> Result<Vec<Row>, StoreFault>
    ensures { Between S.Store conn.old conn.new (Tells result
        (λ V rows. AreFirstDead V m.now at from.now (min MOST_TOKENS limit) rows.items)) }
{
    let many = MOST_TOKENS.min(limit as u64);
    Ok(dead_rows(conn, merchant_text(m), from, at.seconds(), many)?)
}
