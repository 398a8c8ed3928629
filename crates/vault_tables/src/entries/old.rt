//! Entries of schema 1, each with its number, which schema 2 replaced.
ghost use Rattle.std.specs.Prelude.{refl};
ghost use Rattle.vault_tables.specs.EntryTexts.{old_entry_values, entry_id_scan, old_entry_scan};

use sql_tables::columns::Columns;
use sql_tables::fault::StoreFault;
use sql_tables::left::Left;
use sql_tables::raws::Raw;
use sql_tables::shapes::ColumnShape::{Optional, Present};
use sql_tables::shapes::{IndexShape, TableShape};
use sql_tables::text::RowText;
use sql_tables::whole::Whole;
use sqlite::Row;
use sqlite_schema::schema::Kind::{Integer, Text};

/// Makes the table of entries.
pub const CREATE_OLD_ENTRIES: &str = "\
    CREATE TABLE entries (merchant TEXT NOT NULL, token TEXT NOT NULL, number TEXT, \
    usage INTEGER NOT NULL, birth INTEGER NOT NULL, expires INTEGER NOT NULL, revoked INTEGER, \
    PRIMARY KEY (merchant, token)) STRICT";

/// Makes the index of entries by number.
pub const CREATE_OLD_ENTRIES_NUMBER: &str =
    "CREATE INDEX entries_number ON entries (merchant, number)";

/// Entries by merchant and token.
pub(crate) const OLD_ENTRIES_SHAPE: TableShape<'static> = TableShape {
    name: "entries",
    tree: 5,
    columns: &[
        Present("merchant", Text),
        Present("token", Text),
        Optional("number", Text),
        Present("usage", Integer),
        Present("birth", Integer),
        Present("expires", Integer),
        Optional("revoked", Integer),
    ],
    rowid: None,
    primary: &[1, 2],
    uniques: &[&[1, 2]],
};

/// The key of entries.
pub(crate) const OLD_ENTRIES_KEY: IndexShape<'static> = IndexShape {
    name: "sqlite_autoindex_entries_1",
    tree: 6,
    table: 5,
    columns: &[1, 2],
    is_unique: true,
};

/// Entries by number.
pub(crate) const OLD_ENTRIES_NUMBER: IndexShape<'static> = IndexShape {
    name: "entries_number",
    tree: 7,
    table: 5,
    columns: &[1, 3],
    is_unique: false,
};

/// The whole of `entries`, by its rowid.
pub const READ_OLD_ENTRIES: &str = "\
    SELECT rowid, merchant, token, number, usage, birth, expires, revoked FROM entries \
    ORDER BY rowid";

/// The rowids of `entries`, in their order.
pub const READ_OLD_ENTRY_IDS: &str = "SELECT rowid FROM entries ORDER BY rowid";

/// Takes all entries of schema 1 away.
pub const EMPTY_OLD_ENTRIES: &str = "DELETE FROM entries";

/// A row of `entries`, the table of schema 1.
#[derive(Drop)]
pub struct OldEntry {
    pub rowid: i64,
    pub merchant: RowText,
    pub token: RowText,
    /// NULL where it is purged.
    pub number: Option<RowText>,
    pub usage: i64,
    pub birth: i64,
    pub expires: i64,
    /// NULL where the token isn't revoked.
    pub revoked: Option<i64>,
}

impl Raw for OldEntry {
    type Of = OldEntry;

    ghost values = { old_entry_values };

    fn read(row: &Row) -> Result<OldEntry, StoreFault> {
        let mut columns = Columns::of(row);
        let raw = OldEntry {
            rowid: columns.next()?,
            merchant: columns.next()?,
            token: columns.next()?,
            number: columns.next()?,
            usage: columns.next()?,
            birth: columns.next()?,
            expires: columns.next()?,
            revoked: columns.next()?,
        };
        columns.end()?;
        Ok(raw)
    }
}

impl Whole for OldEntry {
    type Raw = OldEntry;

    ghost scan = { old_entry_scan };

    fn text() -> &'static str {
        READ_OLD_ENTRIES
    }

    ghost read_so = { refl };
}

impl Left for OldEntry {
    ghost left = { entry_id_scan };

    fn ids_text() -> &'static str {
        READ_OLD_ENTRY_IDS
    }
}
