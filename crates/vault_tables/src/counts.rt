//! The table of counts: how many tokens of a merchant were made, and how many numbers given and denied.
ghost use Rattle.std.specs.Prelude.{◌≡◌, ◌<◌, None, Some, if◌then◌else◌, refl};
ghost use Rattle.vault_tables.specs.Calls.{TellsTables, Makes, Turns};
ghost use Rattle.vault_schema.specs.Versions.{newest};
ghost use Rattle.sql_tables.specs.Transactions.{Inside, Between};
ghost use Rattle.vault_tables.specs.Raising.{HasRoomAt, IsRaised, IsTotal, raised_lookups, raised_tables};
ghost use Rattle.vault_tables.specs.CountTexts.{count_values, count_scan};

use crate::columns::{GREATEST, merchant_text};
use sql_tables::columns::Columns;
use sql_tables::fault::StoreFault;
use sql_tables::raws::Raw;
use sql_tables::run::{change, rows_of, step};
use sql_tables::shapes::ColumnShape::Present;
use sql_tables::shapes::{IndexShape, TableShape};
use sql_tables::whole::Whole;
use sqlite::{Alter, Connection, Error, Row, Transaction, params};
use sqlite_schema::schema::Kind::{Integer, Text};
use vault_core::changes::Count;
use vault_core::name::MerchantId;
use vault_rules::rows::RawCount;

/// Makes the table of counts.
pub const CREATE_COUNTS: &str = "\
    CREATE TABLE counts (merchant TEXT NOT NULL, kind INTEGER NOT NULL, \
    total INTEGER NOT NULL, PRIMARY KEY (merchant, kind)) STRICT";

/// Counts by merchant and kind.
pub(crate) const COUNTS_SHAPE: TableShape<'static> = TableShape {
    name: "counts",
    tree: 3,
    columns: &[
        Present("merchant", Text),
        Present("kind", Integer),
        Present("total", Integer),
    ],
    rowid: None,
    primary: &[1, 2],
    uniques: &[&[1, 2]],
};

/// The key of counts.
pub(crate) const COUNTS_KEY: IndexShape<'static> = IndexShape {
    name: "sqlite_autoindex_counts_1",
    tree: 4,
    table: 3,
    columns: &[1, 2],
    is_unique: true,
};

/// The counts of a merchant.
pub const FIND_COUNTS: &str = "SELECT kind, total FROM counts WHERE merchant = ?1";

/// The rowid of a count of a merchant.
pub const FIND_COUNT_ID: &str = "SELECT rowid FROM counts WHERE merchant = ?1 AND kind = ?2";

/// Raises a count of a merchant by one, where it has a row.
pub const RAISE_COUNT: &str =
    "UPDATE counts SET total = total + 1 WHERE merchant = ?1 AND kind = ?2";

/// Writes the total of a count of a merchant, where its row has this rowid.
pub const SET_COUNT: &str =
    "UPDATE counts SET total = ?3 WHERE rowid = ?4 AND merchant = ?1 AND kind = ?2";

/// Begins a count of a merchant at one.
pub const ADD_COUNT: &str = "INSERT INTO counts VALUES (?1, ?2, 1)";

/// The whole of `counts`, by its rowid.
pub const READ_COUNTS: &str = "SELECT rowid, merchant, kind, total FROM counts ORDER BY rowid";

/// The table.
pub struct Counts;

impl Raw for Counts {
    type Of = RawCount;

    ghost values = { count_values };

    fn read(row: &Row) -> Result<RawCount, StoreFault> {
        let mut columns = Columns::of(row);
        let raw = RawCount {
            rowid: columns.next()?,
            merchant: columns.next()?,
            kind: columns.next()?,
            total: columns.next()?,
        };
        columns.end()?;
        Ok(raw)
    }
}

impl Whole for Counts {
    type Raw = Counts;

    ghost scan = { count_scan };

    fn text() -> &'static str {
        READ_COUNTS
    }

    ghost read_so = { refl };
}

/// What is known of a count: its total, and the rowid that its row may have.
#[derive(Clone, Copy)]
pub struct KnownCount {
    pub total: u64,
    pub rowid: i64,
}

/// The row of the rowid of a merchant's count of tokens made.
fn made_rows<S: Alter>(conn: &mut Connection<S>, m: &str) -> Result<Vec<Row>, Error>
    // it only reads
    ensures { Between S.Store conn.old conn.new (TellsTables result (λ t rows. Unit {0})) }
{
    rows_of(conn, FIND_COUNT_ID, params![m, Count::Made.number() as i64])
}

/// The rowid of a merchant's count of tokens made, where it has a row.
pub fn made_rowid<S: Alter>(
    conn: &mut Connection<S>,
    m: &MerchantId,
) -> Result<Option<i64>, StoreFault>
    // it only reads: whoever writes by the rowid tests it
    ensures { Between S.Store conn.old conn.new (TellsTables result (λ t found. Unit {0})) }
{
    let rows = made_rows(conn, merchant_text(m))?;
    match rows.first() {
        Some(row) => Ok(Some(row.get(0)?)),
        None => Ok(None),
    }
}

/// Raises a count of a merchant by one where it has a row, and tells whether it has.
fn raise_row<S: Alter>(tx: &mut Transaction<'_, S>, m: &str, kind: u8) -> Result<bool, Error>
    ensures { Inside S.Store tx.old tx.new (Turns newest result
        (λ t. HasRoomAt t.counts (m.now, kind)) (λ has t new. IsRaised has t new (m.now, kind))) }
{
    let changed = change(tx, RAISE_COUNT, params![m, kind as i64])?;
    Ok(changed > 0)
}

/// Begins a count of a merchant, which has no row, at one.
fn add_count<S: Alter>(tx: &mut Transaction<'_, S>, m: &str, kind: u8) -> Result<(), Error>
    ensures { Inside S.Store tx.old tx.new (Turns newest result
        (λ t. t.counts (m.now, kind) ≡ None)
        (λ it t new. new ≡ raised_tables t (m.now, kind))) }
{
    step(tx, ADD_COUNT, params![m, kind as i64])
}

/// Raises a count of a merchant by one. It has a row but for the first time.
pub fn raise<S: Alter>(tx: &mut Transaction<'_, S>, m: &str, kind: u8) -> Result<(), Error>
    ensures { Inside S.Store tx.old tx.new (Makes newest result
        (λ h. HasRoomAt h.counts (m.now, kind))
        (λ h. raised_lookups h (m.now, kind))) }
{
    if raise_row(tx, m, kind)? {
        return Ok(());
    }
    add_count(tx, m, kind)
}

/// Raises a count of a merchant by one, whose total is known, where its row has the rowid, and tells whether
/// it has.
fn raise_by_rowid<S: Alter>(
    tx: &mut Transaction<'_, S>,
    m: &str,
    kind: u8,
    known: KnownCount,
) -> Result<bool, Error>
    ensures { Inside S.Store tx.old tx.new (Turns newest result
        (λ t. IsTotal t.counts (m.now, kind) known.total)
        (λ has t new. new ≡ (if has then raised_tables t (m.now, kind) else t))) }
{
    if known.total >= GREATEST {
        return Ok(false);
    }
    let total = known.total + 1;
    let changed = change(
        tx,
        SET_COUNT,
        params![m, kind as i64, total as i64, known.rowid],
    )?;
    Ok(changed > 0)
}

/// Raises a count of a merchant by one, whose total is known. Its row is looked for only where it hasn't the
/// rowid.
pub fn raise_known<S: Alter>(
    tx: &mut Transaction<'_, S>,
    m: &str,
    kind: u8,
    known: KnownCount,
) -> Result<(), Error>
    ensures { Inside S.Store tx.old tx.new (Makes newest result
        (λ h. IsTotal h.counts (m.now, kind) known.total × HasRoomAt h.counts (m.now, kind))
        (λ h. raised_lookups h (m.now, kind))) }
{
    if raise_by_rowid(tx, m, kind, known)? {
        return Ok(());
    }
    raise(tx, m, kind)
}
