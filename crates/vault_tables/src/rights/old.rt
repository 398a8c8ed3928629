//! Rights before schema 4, none of which ends.
ghost use Rattle.sql_tables.specs.Transactions.{LeadsTo};
ghost use Rattle.vault_schema.specs.Versions.{WithinOf};

use crate::rights::{CREATE_RIGHTS, Rights};
use crate::versions::SET_FOURTH;
use sql_tables::left::Left;
use sql_tables::run::step;
use sql_tables::shapes::ColumnShape::Present;
use sql_tables::shapes::{IndexShape, TableShape};
use sql_tables::whole::Whole;
use sqlite::{Alter, Error, Transaction};
use sqlite_schema::schema::Kind::{Integer, Text};
use vault_schema::version::Version;

/// Makes the table of rights.
pub const CREATE_OLD_RIGHTS: &str = "\
    CREATE TABLE rights (caller TEXT NOT NULL, merchant TEXT NOT NULL, what INTEGER NOT NULL, \
    PRIMARY KEY (caller, merchant, what)) STRICT";

/// Rights, each its key alone.
pub(crate) const OLD_RIGHTS_SHAPE: TableShape<'static> = TableShape {
    name: "rights",
    tree: 10,
    columns: &[
        Present("caller", Text),
        Present("merchant", Text),
        Present("what", Integer),
    ],
    rowid: None,
    primary: &[1, 2, 3],
    uniques: &[&[1, 2, 3]],
};

/// The key of rights.
pub(crate) const OLD_RIGHTS_KEY: IndexShape<'static> = IndexShape {
    name: "sqlite_autoindex_rights_1",
    tree: 11,
    table: 10,
    columns: &[1, 2, 3],
    is_unique: true,
};

/// The whole of `rights`, by its rowid, with the end that a right has there: none.
pub const READ_OLD_RIGHTS: &str =
    "SELECT rowid, caller, merchant, what, NULL FROM rights ORDER BY rowid";

/// The rowids of `rights`, in their order.
pub const READ_RIGHT_IDS: &str = "SELECT rowid FROM rights ORDER BY rowid";

/// Copies the rights of schema 3, none of which ends.
pub const COPY_RIGHTS: &str = "INSERT INTO rights4 SELECT caller, merchant, what, NULL FROM rights";

/// Takes the rights of schema 3 away.
pub const EMPTY_OLD_RIGHTS: &str = "DELETE FROM rights";

/// The table.
pub struct OldRights;

impl Whole for OldRights {
    ghost use Rattle.std.specs.Prelude.{refl};
    ghost use Rattle.vault_tables.specs.RightTexts.{old_right_scan};

    type Raw = Rights;

    ghost scan = { old_right_scan };

    fn text() -> &'static str {
        READ_OLD_RIGHTS
    }

    ghost read_so = { refl };
}

impl Left for OldRights {
    ghost use Rattle.vault_tables.specs.RightTexts.{right_id_scan};

    ghost left = { right_id_scan };

    fn ids_text() -> &'static str {
        READ_RIGHT_IDS
    }
}

/// From schema 3 to schema 4, inside a transaction: rights may end, and those that are there don't.
pub fn add_ends<S: Alter>(tx: &mut Transaction<'_, S>) -> Result<(), Error>
    ensures { LeadsTo S.Store tx.old tx.new result (WithinOf Version.Three) (WithinOf Version.Four) }
{
    step(tx, CREATE_RIGHTS, &[])?;
    step(tx, COPY_RIGHTS, &[])?;
    step(tx, EMPTY_OLD_RIGHTS, &[])?;
    step(tx, SET_FOURTH, &[])
}
