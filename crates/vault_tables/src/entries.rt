//! The rows of entries, which point at cards.
pub mod old;

ghost use Rattle.vault_tables.specs.Taken.{EntriesTaken};
ghost use Rattle.std.specs.Prelude.{◌≡◌, ◌<◌, ◌^◌, ◌++◌, None, Some, Ok, refl};
ghost use Rattle.sql_tables.specs.Rows.{one_of, put};
ghost use Rattle.sql_tables.specs.Transactions.{Inside, RunsText, Between};
ghost use Rattle.vault_core.specs.Keys.{entry_cmp};
ghost use Rattle.vault_schema.specs.Joined.{card_of, number_of};
ghost use Rattle.vault_schema.specs.Entries.{entry_key, pointing_columns, ShowsPointing};
ghost use Rattle.vault_tables.specs.EntryTexts.{entry_values, entry_scan};
ghost use Rattle.vault_tables.specs.Calls.{MakesInEach, TellsInEach, TurnsInEach, TellsTables};
ghost use Rattle.vault_tables.specs.CardUses.{pointed_at, numbered, with_pointing};

use crate::cards::{leave_number, number_at, use_number};
use crate::columns::{card_in, id_value, moment_in, moment_or_null_in, moment_value, usage_in};
use sql_tables::columns::Columns;
use sql_tables::fault::StoreFault;
use sql_tables::keyed::{self, Finds, Stored};
use sql_tables::raws::Raw;
use sql_tables::run::{rows_in, step};
use sql_tables::shapes::ColumnShape::{Optional, Present};
use sql_tables::shapes::{IndexShape, TableShape};
use sql_tables::taken::Taker;
use sql_tables::whole::Whole;
use sqlite::types::ToSql;
use sqlite::{Alter, Connection, Error, Row, Transaction, params};
use sqlite_schema::schema::Kind::{Integer, Text};
use std::alloc::AllocError;
use vault_core::name::MerchantId;
use vault_core::row::Entry;
use vault_pan::pan::Pan;
use vault_pan::token::Token;
use vault_rules::entries::Entries as Taken;
use vault_rules::rows::RawEntry;
use vault_schema::rows::Pointing;

/// Makes the table of entries.
pub const CREATE_ENTRIES: &str = "\
    CREATE TABLE entries2 (merchant TEXT NOT NULL, token TEXT NOT NULL, card INTEGER, \
    usage INTEGER NOT NULL, birth INTEGER NOT NULL, expires INTEGER NOT NULL, revoked INTEGER, \
    PRIMARY KEY (merchant, token)) STRICT";

/// Makes the index of entries by card.
pub const CREATE_ENTRIES_CARD: &str = "CREATE INDEX entries2_card ON entries2 (merchant, card)";

/// Entries by merchant and token.
pub(crate) const ENTRIES_SHAPE: TableShape<'static> = TableShape {
    name: "entries2",
    tree: 14,
    columns: &[
        Present("merchant", Text),
        Present("token", Text),
        Optional("card", Integer),
        Present("usage", Integer),
        Present("birth", Integer),
        Present("expires", Integer),
        Optional("revoked", Integer),
    ],
    rowid: None,
    primary: &[1, 2],
    uniques: &[&[1, 2]],
};

/// The key of entries.
pub(crate) const ENTRIES_KEY: IndexShape<'static> = IndexShape {
    name: "sqlite_autoindex_entries2_1",
    tree: 15,
    table: 14,
    columns: &[1, 2],
    is_unique: true,
};

/// Entries by card.
pub(crate) const ENTRIES_CARD: IndexShape<'static> = IndexShape {
    name: "entries2_card",
    tree: 16,
    table: 14,
    columns: &[1, 3],
    is_unique: false,
};

/// What a merchant's token stands for.
pub const FIND_ENTRY: &str =
    "SELECT card, usage, birth, expires, revoked FROM entries2 WHERE merchant = ?1 AND token = ?2";

/// The multi-use token of a card that is live at a moment.
pub const FIND_CURRENT: &str = "\
    SELECT token FROM entries2 \
    WHERE merchant = ?1 AND card = ?2 AND usage = 2 AND revoked IS NULL AND expires > ?3";

/// So many of the tokens of a merchant that are dead at a moment, in order, from a text on.
pub const FIND_DEAD: &str = "\
    SELECT token FROM entries2 \
    WHERE merchant = ?1 AND token >= ?2 AND card IS NOT NULL \
    AND (revoked IS NOT NULL OR expires <= ?3) \
    ORDER BY token LIMIT ?4";

/// Writes a new entry.
pub const ADD_ENTRY: &str = "INSERT INTO entries2 VALUES (?1, ?2, ?3, ?4, ?5, ?6, ?7)";

/// Writes an entry, whether or not it was there.
pub const PUT_ENTRY: &str = "\
    INSERT INTO entries2 VALUES (?1, ?2, ?3, ?4, ?5, ?6, ?7) \
    ON CONFLICT (merchant, token) \
    DO UPDATE SET card = ?3, usage = ?4, birth = ?5, expires = ?6, revoked = ?7";

/// The whole of `entries2`, by its rowid.
pub const READ_ENTRIES: &str = "\
    SELECT rowid, merchant, token, card, usage, birth, expires, revoked FROM entries2 \
    ORDER BY rowid";

/// The table.
pub struct Entries;

impl Raw for Entries {
    type Of = RawEntry;

    ghost values = { entry_values };

    fn read(row: &Row) -> Result<RawEntry, StoreFault> {
        let mut columns = Columns::of(row);
        let raw = RawEntry {
            rowid: columns.next()?,
            merchant: columns.next()?,
            token: columns.next()?,
            card: columns.next()?,
            usage: columns.next()?,
            birth: columns.next()?,
            expires: columns.next()?,
            revoked: columns.next()?,
        };
        columns.end()?;
        Ok(raw)
    }
}

impl Whole for Entries {
    type Raw = Entries;

    ghost scan = { entry_scan };

    fn text() -> &'static str {
        READ_ENTRIES
    }

    ghost read_so = { refl };
}

impl Stored for Entries {
    ghost use Rattle.std.specs.Prelude.{refl};
    ghost use Rattle.vault_core.specs.Keys.{entry_cmp};
    ghost use Rattle.vault_schema.proofs.Newest.{pointing_table};
    ghost use Rattle.vault_schema.specs.Entries.{entry_key, pointing_columns};
    ghost use Rattle.vault_schema.specs.Schema.{newest_schema};
    ghost use Rattle.vault_schema.specs.Stands.{newest_claims};
    ghost use Rattle.vault_schema.specs.Versions.{Tables};

    type Key = (MerchantId, Token);

    type Value = Pointing;

    ghost schema = { newest_schema };

    ghost Tables = { Tables };

    ghost claims = { newest_claims };

    ghost cmp = { entry_cmp };

    ghost key = { entry_key };

    ghost value = { pointing_columns };

    ghost at = { pointing_table };

    ghost held = { λ t. t.pointing };

    ghost with = { λ t now. record t { pointing = now } };

    ghost plain = { refl };

    ghost said = { λ t rows are. are };

    ghost set = { λ t now db all. all };
}

impl Finds for Entries {
    ghost use Rattle.vault_schema.proofs.EntryCodes.{pointing_told};
    ghost use Rattle.vault_schema.proofs.Newest.{behind_second, indexes_behind_second};
    ghost use Rattle.vault_schema.specs.Entries.{ShowsPointing};
    ghost use Rattle.vault_tables.specs.EntryTexts.{entry_is};
    ghost use Rattle.vault_tables.specs.declared.entries.TheConstants.{FIND_ENTRY};

    ghost found_by = { FIND_ENTRY.now };

    ghost shows = { ShowsPointing };

    fn find_text() -> &'static str {
        FIND_ENTRY
    }

    fn value_of(row: &Row) -> Result<Pointing, StoreFault> {
        let card = card_in(row, 0)?;
        let usage = usage_in(row, 1)?;
        let birth = moment_in(row, 2)?;
        let expires: u64 = row.get(3)?;
        let revoked = moment_or_null_in(row, 4)?;
        Ok(Pointing {
            card,
            usage,
            birth,
            expires,
            revoked,
        })
    }

    ghost finding_is = { entry_is behind_second indexes_behind_second };

    ghost told = { pointing_told };
}

/// The entry of a merchant's token, which points at a card.
pub fn find<S: Alter>(
    conn: &mut Connection<S>,
    m: &str,
    token: &str,
) -> Result<Option<Pointing>, StoreFault>
    ensures { Between S.Store conn.old conn.new (TellsTables result
        (λ t found. found ≡ t.pointing (m.now, token.now))) }
{
    keyed::find::<S, Entries>(conn, params![m, token])
}

/// The card that an entry points at.
pub fn card_in_entry(found: &Pointing) -> Option<i64>
    ensures { result ≡ found.now.card }
{
    found.card
}

/// An entry with the number of its card.
pub fn entry_with(number: Option<Pan>, found: &Pointing) -> Entry
    ensures { result ≡ numbered number found.now }
{
    Entry {
        number,
        usage: found.usage,
        birth: found.birth,
        expires: found.expires,
        revoked: found.revoked,
    }
}

/// An entry with the number of the card with this id.
pub fn entry_of<S: Alter>(
    conn: &mut Connection<S>,
    id: i64,
    found: &Pointing,
) -> Result<Option<Entry>, StoreFault>
    ensures { Between S.Store conn.old conn.new (TellsTables result (λ t entry.
        entry ≡ Some (numbered (number_of t.cards id) found.now))) }
{
    let number = number_at(conn, id)?;
    Ok(Some(entry_with(number, found)))
}

/// The row of an entry, inside a transaction.
fn pointing_rows_in<S: Alter>(
    tx: &mut Transaction<'_, S>,
    m: &str,
    token: &str,
) -> Result<Vec<Row>, Error>
    ensures { Inside S.Store tx.old tx.new (TellsInEach result
        (λ t rows. rows.items ≡ one_of pointing_columns (t.pointing (m.now, token.now)))) }
{
    rows_in(tx, FIND_ENTRY, params![m, token])
}

/// The card that the entry of a merchant's token points at, inside a transaction.
pub(crate) fn card_at<S: Alter>(
    tx: &mut Transaction<'_, S>,
    m: &str,
    token: &str,
) -> Result<Option<i64>, StoreFault>
    ensures { Inside S.Store tx.old tx.new (TellsInEach result
        (λ t found. found ≡ card_of t.pointing (m.now, token.now))) }
{
    let rows = pointing_rows_in(tx, m, token)?;
    match rows.first() {
        Some(row) => Ok(card_in(row, 0)?),
        None => Ok(None),
    }
}

/// One statement further in a transaction, whose parameters are the columns of an entry.
fn step_with<S: Alter>(
    tx: &mut Transaction<'_, S>,
    sql: &str,
    m: &str,
    token: &str,
    entry: &Pointing,
) -> Result<(), Error>
    requires { entry.now.expires < 2 ^ 63 }
    ensures { RunsText S.Store tx.old tx.new result sql.now
        (entry_key (m.now, token.now) ++ pointing_columns entry.now) }
{
    let usage = entry.usage.number();
    let birth = entry.birth.seconds();
    step(
        tx,
        sql,
        &[
            m.to_sql(),
            token.to_sql(),
            id_value(entry.card),
            (usage as i64).to_sql(),
            (birth as i64).to_sql(),
            (entry.expires as i64).to_sql(),
            moment_value(entry.revoked),
        ],
    )
}

/// Writes an entry that points at a card, which isn't there yet: one that is there makes it fail.
fn add_pointing<S: Alter>(
    tx: &mut Transaction<'_, S>,
    m: &str,
    token: &str,
    entry: &Pointing,
) -> Result<(), Error>
    requires { entry.now.expires < 2 ^ 63 }
    ensures { Inside S.Store tx.old tx.new (TurnsInEach result
        (λ t. Unit {0}) (λ it t new. (t.pointing (m.now, token.now) ≡ None)
        × (new ≡ with_pointing t (m.now, token.now) entry.now))) }
{
    step_with(tx, ADD_ENTRY, m, token, entry)
}

/// Writes an entry that points at a card, whether or not it was there.
fn put_pointing<S: Alter>(
    tx: &mut Transaction<'_, S>,
    m: &str,
    token: &str,
    entry: &Pointing,
) -> Result<(), Error>
    requires { entry.now.expires < 2 ^ 63 }
    ensures { Inside S.Store tx.old tx.new (TurnsInEach result
        (λ t. Unit {0}) (λ it t new. new ≡ with_pointing t (m.now, token.now) entry.now)) }
{
    step_with(tx, PUT_ENTRY, m, token, entry)
}

/// An entry that points at a card in its number's place.
fn pointing_to(card: Option<i64>, entry: &Entry) -> Pointing
    ensures { result ≡ pointed_at card entry.now }
{
    Pointing {
        card,
        usage: entry.usage,
        birth: entry.birth,
        expires: entry.expires,
        revoked: entry.revoked,
    }
}

/// Writes an entry, whether or not it was there: its number's card is used once more, and the card that it
/// had once less.
pub fn put_entry<S: Alter>(
    tx: &mut Transaction<'_, S>,
    m: &str,
    token: &str,
    entry: &Entry,
) -> Result<(), StoreFault>
    requires { entry.now.expires < 2 ^ 63 }
    ensures { Inside S.Store tx.old tx.new (MakesInEach result
        (λ _. Unit {0})
        (λ h. record h { entries = put entry_cmp h.entries (m.now, token.now) (Some entry.now) })) }
{
    let was = card_at(tx, m, token)?;
    let card = use_number(tx, m, &entry.number)?;
    put_pointing(tx, m, token, &pointing_to(card, entry))?;
    leave_number(tx, was)
}

/// Writes an entry, which isn't there yet: its number's card is used once more.
pub fn add_entry<S: Alter>(
    tx: &mut Transaction<'_, S>,
    m: &str,
    token: &str,
    entry: &Entry,
) -> Result<(), StoreFault>
    requires { entry.now.expires < 2 ^ 63 }
    ensures { Inside S.Store tx.old tx.new (MakesInEach result
        (λ _. Unit {0})
        (λ h. record h { entries = put entry_cmp h.entries (m.now, token.now) (Some entry.now) })) }
{
    let card = use_number(tx, m, &entry.number)?;
    Ok(add_pointing(tx, m, token, &pointing_to(card, entry))?)
}

impl<'a> Taker<Entries> for Taken<'a> {
    ghost use Rattle.std.specs.Prelude.{◌-◌, ◌^◌, refl};

    ghost took = { EntriesTaken };

    ghost fresh = { λ start cards none. (refl, none) };

    ghost room = { λ now. 2 ^ 64 - now.many };

    fn take(&mut self, raw: RawEntry) -> Result<(), AllocError> {
        Taken::take(self, &raw)
    }
}
