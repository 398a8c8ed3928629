//! Merchants before schema 3: their masks show six digits at the left at most.
ghost use Rattle.sql_tables.specs.Transactions.{LeadsTo};
ghost use Rattle.vault_schema.specs.Versions.{WithinOf};

use crate::merchants::{CREATE_MERCHANTS, Merchants};
use crate::versions::SET_THIRD;
use sql_tables::left::Left;
use sql_tables::run::step;
use sql_tables::shapes::ColumnShape::Present;
use sql_tables::shapes::{IndexShape, TableShape};
use sql_tables::whole::Whole;
use sqlite::{Alter, Error, Transaction};
use sqlite_schema::schema::Kind::{Integer, Text};
use vault_schema::version::Version;

/// Makes the table of merchants.
pub const CREATE_OLD_MERCHANTS: &str = "\
    CREATE TABLE merchants (name TEXT NOT NULL PRIMARY KEY, single_life INTEGER NOT NULL, \
    multi_life INTEGER NOT NULL, moment INTEGER NOT NULL) STRICT";

/// Merchants by name.
pub(crate) const OLD_MERCHANTS_SHAPE: TableShape<'static> = TableShape {
    name: "merchants",
    tree: 1,
    columns: &[
        Present("name", Text),
        Present("single_life", Integer),
        Present("multi_life", Integer),
        Present("moment", Integer),
    ],
    rowid: None,
    primary: &[1],
    uniques: &[&[1]],
};

/// The key of merchants.
pub(crate) const OLD_MERCHANTS_KEY: IndexShape<'static> = IndexShape {
    name: "sqlite_autoindex_merchants_1",
    tree: 2,
    table: 1,
    columns: &[1],
    is_unique: true,
};

/// The whole of `merchants`, by its rowid, with the lead that a merchant has there: six digits.
pub const READ_OLD_MERCHANTS: &str =
    "SELECT rowid, name, single_life, multi_life, moment, 6 FROM merchants ORDER BY rowid";

/// The rowids of `merchants`, in their order.
pub const READ_MERCHANT_IDS: &str = "SELECT rowid FROM merchants ORDER BY rowid";

/// Copies the merchants of schema 2, each with the lead of six digits.
pub const COPY_MERCHANTS: &str =
    "INSERT INTO merchants3 SELECT name, single_life, multi_life, moment, 6 FROM merchants";

/// Takes the merchants of schema 2 away.
pub const EMPTY_OLD_MERCHANTS: &str = "DELETE FROM merchants";

/// The table.
pub struct OldMerchants;

impl Whole for OldMerchants {
    ghost use Rattle.std.specs.Prelude.{refl};
    ghost use Rattle.vault_tables.specs.MerchantTexts.{old_merchant_scan};

    type Raw = Merchants;

    ghost scan = { old_merchant_scan };

    fn text() -> &'static str {
        READ_OLD_MERCHANTS
    }

    ghost read_so = { refl };
}

impl Left for OldMerchants {
    ghost use Rattle.vault_tables.specs.MerchantTexts.{merchant_id_scan};

    ghost left = { merchant_id_scan };

    fn ids_text() -> &'static str {
        READ_MERCHANT_IDS
    }
}

/// From schema 2 to schema 3, inside a transaction: merchants get the lead of six digits.
pub fn add_leads<S: Alter>(tx: &mut Transaction<'_, S>) -> Result<(), Error>
    ensures { LeadsTo S.Store tx.old tx.new result (WithinOf Version.Two) (WithinOf Version.Three) }
{
    step(tx, CREATE_MERCHANTS, &[])?;
    step(tx, COPY_MERCHANTS, &[])?;
    step(tx, EMPTY_OLD_MERCHANTS, &[])?;
    step(tx, SET_THIRD, &[])
}
