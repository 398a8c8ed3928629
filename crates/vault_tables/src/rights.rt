//! The table of rights: what a caller may do at a merchant, and until when.
pub mod old;

ghost use Rattle.sql_tables.specs.Transactions.{Between, Inside};
ghost use Rattle.vault_tables.specs.Calls.{TellsTables, Makes};
ghost use Rattle.std.specs.Prelude.{◌≡◌, None, Some};
ghost use Rattle.vault_core.specs.Keys.{right_cmp};
ghost use Rattle.vault_schema.specs.Versions.{newest, Tables};
ghost use Rattle.sql_tables.specs.Rows.{put as put_at};
ghost use Rattle.vault_schema.specs.Schema.{newest_schema};
ghost use Rattle.vault_schema.specs.Stands.{newest_claims};

use crate::columns::{moment_or_null_in, moment_value};
use sql_tables::columns::Columns;
use sql_tables::fault::StoreFault;
use sql_tables::keyed::{self, Finds, Puts, Stored, Takes};
use sql_tables::raws::Raw;
use sql_tables::shapes::ColumnShape::{Optional, Present};
use sql_tables::shapes::{IndexShape, TableShape};
use sql_tables::whole::Whole;
use sqlite::types::ToSql;
use sqlite::{Alter, Connection, Error, Row, Transaction, params};
use sqlite_schema::schema::Kind::{Integer, Text};
use vault_core::name::{Caller, MerchantId};
use vault_core::right::Right;
use vault_core::row::GrantRow;
use vault_rules::rows::RawRight;

/// Makes the table of rights.
pub const CREATE_RIGHTS: &str = "\
    CREATE TABLE rights4 (caller TEXT NOT NULL, merchant TEXT NOT NULL, what INTEGER NOT NULL, \
    ends INTEGER, PRIMARY KEY (caller, merchant, what)) STRICT";

/// Rights, each with its end.
pub(crate) const RIGHTS_SHAPE: TableShape<'static> = TableShape {
    name: "rights4",
    tree: 19,
    columns: &[
        Present("caller", Text),
        Present("merchant", Text),
        Present("what", Integer),
        Optional("ends", Integer),
    ],
    rowid: None,
    primary: &[1, 2, 3],
    uniques: &[&[1, 2, 3]],
};

/// The key of rights.
pub(crate) const RIGHTS_KEY: IndexShape<'static> = IndexShape {
    name: "sqlite_autoindex_rights4_1",
    tree: 20,
    table: 19,
    columns: &[1, 2, 3],
    is_unique: true,
};

/// The whole of `rights4`, by its rowid.
pub const READ_RIGHTS: &str =
    "SELECT rowid, caller, merchant, what, ends FROM rights4 ORDER BY rowid";

/// The right of a caller at a merchant, with its end.
pub const FIND_RIGHT: &str =
    "SELECT ends FROM rights4 WHERE caller = ?1 AND merchant = ?2 AND what = ?3";

/// Gives a caller a right up to an end, or without one, whether or not it was there.
pub const GIVE_RIGHT: &str = "\
    INSERT INTO rights4 VALUES (?1, ?2, ?3, ?4) \
    ON CONFLICT (caller, merchant, what) DO UPDATE SET ends = ?4";

/// Takes a right from a caller, whether or not it was there.
pub const TAKE_RIGHT: &str =
    "DELETE FROM rights4 WHERE caller = ?1 AND merchant = ?2 AND what = ?3";

/// The table.
pub struct Rights;

impl Raw for Rights {
    ghost use Rattle.vault_tables.specs.RightTexts.{right_values};

    type Of = RawRight;

    ghost values = { right_values };

    fn read(row: &Row) -> Result<RawRight, StoreFault> {
        let mut columns = Columns::of(row);
        let raw = RawRight {
            rowid: columns.next()?,
            caller: columns.next()?,
            merchant: columns.next()?,
            what: columns.next()?,
            ends: columns.next()?,
        };
        columns.end()?;
        Ok(raw)
    }
}

impl Whole for Rights {
    ghost use Rattle.std.specs.Prelude.{refl};
    ghost use Rattle.vault_tables.specs.RightTexts.{right_scan};

    type Raw = Rights;

    ghost scan = { right_scan };

    fn text() -> &'static str {
        READ_RIGHTS
    }

    ghost read_so = { refl };
}

impl Stored for Rights {
    ghost use Rattle.std.specs.Prelude.{refl};
    ghost use Rattle.vault_core.specs.Keys.{right_cmp};
    ghost use Rattle.vault_schema.proofs.Newest.{right_table};
    ghost use Rattle.vault_schema.specs.Schema.{newest_schema};
    ghost use Rattle.vault_schema.specs.Stands.{newest_claims};
    ghost use Rattle.vault_schema.specs.Rights.{right_key};
    ghost use Rattle.vault_schema.specs.Rights.{ends_column};
    ghost use Rattle.vault_schema.specs.Versions.{Tables};

    type Key = (Caller, (MerchantId, Right));

    type Value = GrantRow;

    ghost schema = { newest_schema };

    ghost Tables = { Tables };

    ghost claims = { newest_claims };

    ghost cmp = { right_cmp };

    ghost key = { right_key };

    ghost value = { ends_column };

    ghost at = { right_table };

    ghost held = { λ t. t.rights };

    ghost with = { λ t now. record t { rights = now } };

    ghost plain = { refl };

    ghost said = { λ t rows are. are };

    ghost set = { λ t now db all. all };
}

impl Finds for Rights {
    ghost use Rattle.std.specs.Prelude.{◌≡◌};
    ghost use Rattle.sqlite.specs.Order.{column};
    ghost use Rattle.vault_schema.specs.Values.{number_or_null};
    ghost use Rattle.vault_tables.specs.RightTexts.{right_is};
    ghost use Rattle.vault_schema.proofs.RightCodes.{ends_told};
    ghost use Rattle.vault_tables.specs.declared.rights.TheConstants.{FIND_RIGHT};

    ghost found_by = { FIND_RIGHT.now };

    ghost shows = { λ row g. column row 0 ≡ number_or_null g.ends };

    fn find_text() -> &'static str {
        FIND_RIGHT
    }

    fn value_of(row: &Row) -> Result<GrantRow, StoreFault> {
        let ends = moment_or_null_in(row, 0)?;
        Ok(GrantRow { ends })
    }

    ghost finding_is = { right_is };

    ghost told = { ends_told };
}

impl Puts for Rights {
    ghost use Rattle.vault_tables.specs.RightTexts.{give_is};
    ghost use Rattle.vault_tables.specs.declared.rights.TheConstants.{GIVE_RIGHT};

    ghost put_by = { GIVE_RIGHT.now };

    fn put_text() -> &'static str {
        GIVE_RIGHT
    }

    ghost putting_is = { give_is };
}

impl Takes for Rights {
    ghost use Rattle.vault_tables.specs.RightTexts.{take_is};
    ghost use Rattle.vault_tables.specs.declared.rights.TheConstants.{TAKE_RIGHT};

    ghost taken_by = { TAKE_RIGHT.now };

    fn take_text() -> &'static str {
        TAKE_RIGHT
    }

    ghost taking_is = { take_is };
}

/// The right of a caller at a merchant.
pub fn find<S: Alter>(
    conn: &mut Connection<S>,
    caller: &str,
    m: &str,
    right: Right,
) -> Result<Option<GrantRow>, StoreFault>
    ensures { Between S.Store conn.old conn.new (TellsTables result
        (λ t found. found ≡ t.rights (caller.now, (m.now, right)))) }
{
    let what = right.number();
    keyed::find::<S, Rights>(conn, params![caller, m, what as i64])
}

/// Gives a caller a right up to its end, whether or not it was there.
pub fn give<S: Alter>(
    tx: &mut Transaction<'_, S>,
    caller: &str,
    m: &str,
    right: Right,
    row: GrantRow,
) -> Result<(), Error>
    ensures { Inside S.Store tx.old tx.new (Makes newest result
        (λ _. Unit {0})
        (λ h. record h { rights = put_at right_cmp h.rights (caller.now, (m.now, right)) (Some row) })) }
{
    let what = right.number();
    keyed::put::<S, Rights>(
        tx,
        &[
            caller.to_sql(),
            m.to_sql(),
            (what as i64).to_sql(),
            moment_value(row.ends),
        ],
    )
}

/// Takes a right from a caller, whether or not it was there.
pub fn take<S: Alter>(
    tx: &mut Transaction<'_, S>,
    caller: &str,
    m: &str,
    right: Right,
) -> Result<(), Error>
    ensures { Inside S.Store tx.old tx.new (Makes newest result
        (λ _. Unit {0})
        (λ h. record h { rights = put_at right_cmp h.rights (caller.now, (m.now, right)) None })) }
{
    let what = right.number();
    keyed::take::<S, Rights>(tx, params![caller, m, what as i64])
}
