//! The rows of cards: each number once a merchant, and how many entries point at it.
ghost use Rattle.vault_tables.specs.Taken.{CardsTaken};
ghost use Rattle.std.specs.Prelude.{◌≡◌, ◌<◌, ◌^◌, Some, refl};
ghost use Rattle.sql_tables.specs.Rows.{one_of};
ghost use Rattle.sql_tables.specs.Transactions.{Inside, Between};
ghost use Rattle.vault_schema.specs.declared.rows.Card.{Card};
ghost use Rattle.vault_tables.specs.Calls.{TellsInEach, TurnsInEach, TellsTables};
ghost use Rattle.vault_tables.specs.CardUses.{IsAddedOnce, IsGone, IsUsedAgain, OwesNoMore, OwesNothing};
ghost use Rattle.vault_tables.specs.CardUses.{OwesNumber, OwesUse, ShowsCard, ShowsUses, card_shown};
ghost use Rattle.vault_tables.specs.CardUses.{uses_column, with_uses};
ghost use Rattle.vault_tables.specs.CardTexts.{card_values, card_scan};
ghost use Rattle.vault_schema.specs.Joined.{number_of};
ghost use Rattle.vault_tables.specs.Shown.{text_column};

use crate::columns::{GREATEST, number_in};
use sql_tables::columns::Columns;
use sql_tables::fault::StoreFault;
use sql_tables::raws::Raw;
use sql_tables::run::{change, rows_in, rows_of, step};
use sql_tables::shapes::ColumnShape::{Optional, Present};
use sql_tables::shapes::{IndexShape, TableShape};
use sql_tables::taken::Taker;
use sql_tables::whole::Whole;
use sqlite::{Alter, Connection, Error, Row, Transaction, params};
use sqlite_schema::schema::Kind::{Integer, Text};
use std::alloc::AllocError;
use vault_pan::pan::Pan;
use vault_rules::index::Index;
use vault_rules::rows::RawCard;

/// Makes the table of cards.
pub const CREATE_CARDS: &str = "\
    CREATE TABLE cards2 (id INTEGER PRIMARY KEY, merchant TEXT NOT NULL, number TEXT NOT NULL, \
    uses INTEGER NOT NULL, UNIQUE (merchant, number)) STRICT";

/// Cards by their id, which stands in the rowid.
pub(crate) const CARDS_SHAPE: TableShape<'static> = TableShape {
    name: "cards2",
    tree: 12,
    columns: &[
        Optional("id", Integer),
        Present("merchant", Text),
        Present("number", Text),
        Present("uses", Integer),
    ],
    rowid: Some(0),
    primary: &[0],
    uniques: &[&[2, 3]],
};

/// The key of cards beside their id.
pub(crate) const CARDS_KEY: IndexShape<'static> = IndexShape {
    name: "sqlite_autoindex_cards2_1",
    tree: 13,
    table: 12,
    columns: &[2, 3],
    is_unique: true,
};

/// The id of a merchant's card with a number, and its uses.
pub const FIND_CARD: &str = "SELECT id, uses FROM cards2 WHERE merchant = ?1 AND number = ?2";

/// The number of a card.
pub const FIND_NUMBER: &str = "SELECT number FROM cards2 WHERE id = ?1";

/// How many entries point at a card.
pub const FIND_USES: &str = "SELECT uses FROM cards2 WHERE id = ?1";

/// Writes a card that one entry points at, with a new id, unless the merchant has one with its number.
pub const ADD_CARD: &str = "INSERT OR IGNORE INTO cards2 VALUES (NULL, ?1, ?2, 1)";

/// Writes the uses of a card.
pub const SET_USES: &str = "UPDATE cards2 SET uses = ?2 WHERE id = ?1";

/// Takes a card away.
pub const DROP_CARD: &str = "DELETE FROM cards2 WHERE id = ?1";

/// The whole of `cards2`, by its id.
pub const READ_CARDS: &str = "SELECT id, merchant, number, uses FROM cards2 ORDER BY id";

/// The table.
pub struct Cards;

impl Raw for Cards {
    type Of = RawCard;

    ghost values = { card_values };

    fn read(row: &Row) -> Result<RawCard, StoreFault> {
        let mut columns = Columns::of(row);
        let raw = RawCard {
            id: columns.next()?,
            merchant: columns.next()?,
            number: columns.next()?,
            uses: columns.next()?,
        };
        columns.end()?;
        Ok(raw)
    }
}

impl Whole for Cards {
    type Raw = Cards;

    ghost scan = { card_scan };

    fn text() -> &'static str {
        READ_CARDS
    }

    ghost read_so = { refl };
}

/// The row of a merchant's card with a number.
pub fn card_rows<S: Alter>(
    conn: &mut Connection<S>,
    m: &str,
    number: &str,
) -> Result<Vec<Row>, Error>
    ensures { Between S.Store conn.old conn.new (TellsTables result
        (λ t rows. ShowsCard rows.items t.cards m.now number.now)) }
{
    rows_of(conn, FIND_CARD, params![m, number])
}

/// The row of the number of a card.
fn number_rows<S: Alter>(conn: &mut Connection<S>, id: i64) -> Result<Vec<Row>, Error>
    ensures { Between S.Store conn.old conn.new (TellsTables result (λ t rows. rows.items
        ≡ one_of text_column (number_of t.cards id))) }
{
    rows_of(conn, FIND_NUMBER, params![id])
}

/// The number of a card.
pub fn number_at<S: Alter>(conn: &mut Connection<S>, id: i64) -> Result<Option<Pan>, StoreFault>
    ensures { Between S.Store conn.old conn.new (TellsTables result (λ t found.
        found ≡ number_of t.cards id)) }
{
    let rows = number_rows(conn, id)?;
    match rows.first() {
        Some(row) => Ok(number_in(row, 0)?),
        None => Ok(None),
    }
}

/// The row of a merchant's card with a number, inside a transaction.
fn card_rows_in<S: Alter>(
    tx: &mut Transaction<'_, S>,
    m: &str,
    number: &str,
) -> Result<Vec<Row>, Error>
    ensures { Inside S.Store tx.old tx.new (TellsInEach result
        (λ t rows. ShowsCard rows.items t.cards m.now number.now)) }
{
    rows_in(tx, FIND_CARD, params![m, number])
}

/// The row of the uses of a card, inside a transaction.
fn uses_rows<S: Alter>(tx: &mut Transaction<'_, S>, id: i64) -> Result<Vec<Row>, Error>
    ensures { Inside S.Store tx.old tx.new (TellsInEach result
        (λ t rows. rows.items ≡ one_of uses_column (t.cards id))) }
{
    rows_in(tx, FIND_USES, params![id])
}

/// Writes the uses of a card that is there.
fn set_uses<S: Alter>(tx: &mut Transaction<'_, S>, id: i64, uses: u64) -> Result<(), Error>
    requires { uses < 2 ^ 63 }
    ensures { Inside S.Store tx.old tx.new (TurnsInEach result
        (λ t. (c : Card) × (t.cards id ≡ Some c))
        (λ it t new. (c : Card) → t.cards id ≡ Some c
        → new ≡ with_uses t id c uses)) }
{
    step(tx, SET_USES, params![id, uses as i64])
}

/// Takes a card away.
fn drop_card<S: Alter>(tx: &mut Transaction<'_, S>, id: i64) -> Result<(), Error>
    ensures { Inside S.Store tx.old tx.new (TurnsInEach result
        (λ t. Unit {0}) (λ it t new. IsGone t new id)) }
{
    step(tx, DROP_CARD, params![id])
}

/// Makes the card of a merchant's number, used once, unless it is there, and answers the new card's id.
fn add_card<S: Alter>(
    tx: &mut Transaction<'_, S>,
    m: &str,
    number: &str,
) -> Result<Option<i64>, Error>
    ensures { Inside S.Store tx.old tx.new (TurnsInEach result
        (λ t. Unit {0}) (λ card t new. IsAddedOnce t new card m.now number.now)) }
{
    let changed = change(tx, ADD_CARD, params![m, number])?;
    if changed == 0 {
        return Ok(None);
    }
    Ok(Some(tx.last_insert_rowid()))
}

/// Uses a card once more, whose row this is.
fn use_again<S: Alter>(tx: &mut Transaction<'_, S>, row: &Row) -> Result<i64, StoreFault>
    ensures { Inside S.Store tx.old tx.new (TurnsInEach result (ShowsUses row.now)
        (IsUsedAgain row.now)) }
{
    let id: i64 = row.get(0)?;
    let uses: u64 = row.get(1)?;
    if uses >= GREATEST {
        return Err(StoreFault::Store);
    }
    set_uses(tx, id, uses + 1)?;
    Ok(id)
}

/// Uses the card of a merchant's number, which is there, once more.
fn use_known<S: Alter>(
    tx: &mut Transaction<'_, S>,
    m: &str,
    number: &str,
) -> Result<i64, StoreFault>
    // with Ok, on an honest disk, only cards change: the card with this id is the number's, and a use of it
    // is owed
    ensures { Inside S.Store tx.old tx.new (TurnsInEach result
        (λ t. Unit {0}) (λ id t new. OwesUse t new id m.now number.now)) }
{
    let rows = card_rows_in(tx, m, number)?;
    match rows.first() {
        Some(row) => use_again(tx, row),
        None => Err(StoreFault::Store),
    }
}

/// Uses the card of a merchant's number once more, and makes it where it isn't there.
pub(crate) fn use_card<S: Alter>(
    tx: &mut Transaction<'_, S>,
    m: &str,
    number: &str,
) -> Result<i64, StoreFault>
    // with Ok, on an honest disk, only cards change: the card with this id is the number's, and a use of it
    // is owed
    ensures { Inside S.Store tx.old tx.new (TurnsInEach result
        (λ t. Unit {0}) (λ id t new. OwesUse t new id m.now number.now)) }
{
    match add_card(tx, m, number)? {
        Some(id) => Ok(id),
        None => use_known(tx, m, number),
    }
}

/// Takes one of so many uses from a card; the last one takes the card away.
fn use_less<S: Alter>(tx: &mut Transaction<'_, S>, id: i64, uses: u64) -> Result<(), StoreFault>
    // with Ok, on an honest disk, only cards change, and a use of the card that was owed is owed no more
    ensures { Inside S.Store tx.old tx.new (TurnsInEach result
        (λ t. (c : Card) × (t.cards id ≡ Some c) × (c.uses ≡ uses)) (λ it t new. OwesNothing t new id)) }
{
    if uses > GREATEST {
        return Err(StoreFault::Store);
    }
    if uses > 1 {
        set_uses(tx, id, uses - 1)?;
    } else {
        drop_card(tx, id)?;
    }
    Ok(())
}

/// Uses a card once less; the last one takes the card away.
pub(crate) fn leave_card<S: Alter>(tx: &mut Transaction<'_, S>, id: i64) -> Result<(), StoreFault>
    // with Ok, on an honest disk, only cards change, and a use of the card that was owed is owed no more
    ensures { Inside S.Store tx.old tx.new (TurnsInEach result
        (λ t. Unit {0}) (λ it t new. OwesNothing t new id)) }
{
    let rows = uses_rows(tx, id)?;
    match rows.first() {
        Some(row) => {
            let uses: u64 = row.get(0)?;
            use_less(tx, id, uses)
        }
        None => Err(StoreFault::Store),
    }
}

/// Uses the card of a number, where there is one, once more.
pub(crate) fn use_number<S: Alter>(
    tx: &mut Transaction<'_, S>,
    m: &str,
    number: &Option<Pan>,
) -> Result<Option<i64>, StoreFault>
    // with Ok, on an honest disk, only cards change: the card given, if any, is the number's, and a use of it
    // is owed
    ensures { Inside S.Store tx.old tx.new (TurnsInEach result
        (λ t. Unit {0}) (λ card t new. OwesNumber t new card m.now number.now)) }
{
    match number {
        Some(number) => Ok(Some(use_card(tx, m, number.as_str())?)),
        None => Ok(None),
    }
}

/// Uses a card, where there is one, once less.
pub(crate) fn leave_number<S: Alter>(
    tx: &mut Transaction<'_, S>,
    card: Option<i64>,
) -> Result<(), StoreFault>
    // with Ok, on an honest disk, only cards change, and a use of the card, if any, that was owed is owed no
    // more
    ensures { Inside S.Store tx.old tx.new (TurnsInEach result
        (λ t. Unit {0}) (λ it t new. OwesNoMore t new card)) }
{
    match card {
        Some(id) => leave_card(tx, id),
        None => Ok(()),
    }
}

impl<'a> Taker<Cards> for Index<'a> {
    ghost use Rattle.std.specs.Prelude.{◌-◌, ◌^◌, length, refl};

    ghost took = { CardsTaken };

    ghost fresh = { λ start none. (refl, refl, none) };

    ghost room = { λ now. 2 ^ 63 - length now.cards.kept.items };

    fn take(&mut self, raw: RawCard) -> Result<(), AllocError> {
        Index::take(self, &raw)
    }
}
