//! The table of merchants: how long their tokens live, how many digits their masks show, and their moment.
pub mod old;

ghost use Rattle.sql_tables.specs.Transactions.{Between, Inside};
ghost use Rattle.vault_tables.specs.Calls.{TellsTables, Makes, TellsInside};
ghost use Rattle.std.specs.Prelude.{◌≡◌, ◌↔◌, ◌<◌, ◌^◌, None, Some, IsTrue};
ghost use Rattle.vault_core.specs.Keys.{bytes_cmp};
ghost use Rattle.vault_schema.specs.Versions.{newest, Tables};
ghost use Rattle.sql_tables.specs.Rows.{put as put_at};
ghost use Rattle.vault_schema.specs.Schema.{newest_schema};
ghost use Rattle.vault_schema.specs.Stands.{newest_claims};

use crate::columns::{lead_in, moment_in};
use sql_tables::columns::Columns;
use sql_tables::fault::StoreFault;
use sql_tables::keyed::{self, Finds, Puts, Stored};
use sql_tables::raws::Raw;
use sql_tables::shapes::ColumnShape::Present;
use sql_tables::shapes::{IndexShape, TableShape};
use sql_tables::whole::Whole;
use sqlite::{Alter, Connection, Error, Row, Transaction, params};
use sqlite_schema::schema::Kind::{Integer, Text};
use vault_core::name::MerchantId;
use vault_core::row::Lives;
use vault_rules::rows::RawMerchant;

/// Makes the table of merchants.
pub const CREATE_MERCHANTS: &str = "\
    CREATE TABLE merchants3 (name TEXT NOT NULL PRIMARY KEY, single_life INTEGER NOT NULL, \
    multi_life INTEGER NOT NULL, moment INTEGER NOT NULL, lead_digits INTEGER NOT NULL) STRICT";

/// Merchants by name, each with its lead.
pub(crate) const MERCHANTS_SHAPE: TableShape<'static> = TableShape {
    name: "merchants3",
    tree: 17,
    columns: &[
        Present("name", Text),
        Present("single_life", Integer),
        Present("multi_life", Integer),
        Present("moment", Integer),
        Present("lead_digits", Integer),
    ],
    rowid: None,
    primary: &[1],
    uniques: &[&[1]],
};

/// The key of merchants.
pub(crate) const MERCHANTS_KEY: IndexShape<'static> = IndexShape {
    name: "sqlite_autoindex_merchants3_1",
    tree: 18,
    table: 17,
    columns: &[1],
    is_unique: true,
};

/// The whole of `merchants3`, by its rowid.
pub const READ_MERCHANTS: &str = "\
    SELECT rowid, name, single_life, multi_life, moment, lead_digits FROM merchants3 ORDER BY rowid";

/// The lives of a merchant, with its lead.
pub const FIND_LIVES: &str =
    "SELECT single_life, multi_life, moment, lead_digits FROM merchants3 WHERE name = ?1";

/// Writes the lives, the moment and the lead of a merchant, whether or not it was there.
pub const PUT_MERCHANT: &str = "\
    INSERT INTO merchants3 VALUES (?1, ?2, ?3, ?4, ?5) \
    ON CONFLICT (name) \
    DO UPDATE SET single_life = ?2, multi_life = ?3, moment = ?4, lead_digits = ?5";

/// How many merchants there are.
pub const COUNT_MERCHANTS: &str = "SELECT count(*) FROM merchants3";

/// The table.
pub struct Merchants;

impl Raw for Merchants {
    ghost use Rattle.vault_tables.specs.MerchantTexts.{merchant_values};

    type Of = RawMerchant;

    ghost values = { merchant_values };

    fn read(row: &Row) -> Result<RawMerchant, StoreFault> {
        let mut columns = Columns::of(row);
        let raw = RawMerchant {
            rowid: columns.next()?,
            name: columns.next()?,
            single_life: columns.next()?,
            multi_life: columns.next()?,
            moment: columns.next()?,
            lead: columns.next()?,
        };
        columns.end()?;
        Ok(raw)
    }
}

impl Whole for Merchants {
    ghost use Rattle.std.specs.Prelude.{refl};
    ghost use Rattle.vault_tables.specs.MerchantTexts.{merchant_scan};

    type Raw = Merchants;

    ghost scan = { merchant_scan };

    fn text() -> &'static str {
        READ_MERCHANTS
    }

    ghost read_so = { refl };
}

impl Stored for Merchants {
    ghost use Rattle.std.specs.Prelude.{refl};
    ghost use Rattle.vault_core.specs.Keys.{bytes_cmp};
    ghost use Rattle.vault_schema.proofs.Newest.{merchant_table};
    ghost use Rattle.vault_schema.specs.Schema.{newest_schema};
    ghost use Rattle.vault_schema.specs.Stands.{newest_claims};
    ghost use Rattle.vault_schema.specs.Merchants.{merchant_key};
    ghost use Rattle.vault_schema.specs.Versions.{Tables};
    ghost use Rattle.vault_schema.specs.Merchants.{lives_columns};

    type Key = MerchantId;

    type Value = Lives;

    ghost schema = { newest_schema };

    ghost Tables = { Tables };

    ghost claims = { newest_claims };

    ghost cmp = { bytes_cmp };

    ghost key = { merchant_key };

    ghost value = { lives_columns };

    ghost at = { merchant_table };

    ghost held = { λ t. t.merchants };

    ghost with = { λ t now. record t { merchants = now } };

    ghost plain = { refl };

    ghost said = { λ t rows are. are };

    ghost set = { λ t now db all. all };
}

impl Finds for Merchants {
    ghost use Rattle.vault_tables.specs.MerchantTexts.{lives_is};
    ghost use Rattle.vault_schema.specs.Merchants.{ShowsLives};
    ghost use Rattle.vault_schema.proofs.MerchantCodes.{lives_told};
    ghost use Rattle.vault_tables.specs.declared.merchants.TheConstants.{FIND_LIVES};

    ghost found_by = { FIND_LIVES.now };

    ghost shows = { ShowsLives };

    fn find_text() -> &'static str {
        FIND_LIVES
    }

    fn value_of(row: &Row) -> Result<Lives, StoreFault> {
        let single_life: u64 = row.get(0)?;
        let multi_life: u64 = row.get(1)?;
        let moment = moment_in(row, 2)?;
        let lead = lead_in(row, 3)?;
        Ok(Lives {
            single_life,
            multi_life,
            moment,
            lead,
        })
    }

    ghost finding_is = { lives_is };

    ghost told = { lives_told };
}

impl Puts for Merchants {
    ghost use Rattle.vault_tables.specs.MerchantTexts.{put_merchant_is};
    ghost use Rattle.vault_tables.specs.declared.merchants.TheConstants.{PUT_MERCHANT};

    ghost put_by = { PUT_MERCHANT.now };

    fn put_text() -> &'static str {
        PUT_MERCHANT
    }

    ghost putting_is = { put_merchant_is };
}

/// The lives of a merchant.
pub fn find<S: Alter>(conn: &mut Connection<S>, m: &str) -> Result<Option<Lives>, StoreFault>
    ensures { Between S.Store conn.old conn.new (TellsTables result (λ t found. found ≡ t.merchants m.now)) }
{
    keyed::find::<S, Merchants>(conn, params![m])
}

/// The lives of a merchant, inside a transaction.
fn find_in<S: Alter>(tx: &mut Transaction<'_, S>, m: &str) -> Result<Option<Lives>, StoreFault>
    ensures { Inside S.Store tx.old tx.new (TellsInside newest result
        (λ t found. found ≡ t.merchants m.now)) }
{
    keyed::find_in::<S, Merchants>(tx, params![m])
}

/// Writes the own row of a merchant, whether or not it was there.
pub fn put<S: Alter>(tx: &mut Transaction<'_, S>, m: &str, x: &Lives) -> Result<(), Error>
    // the life of single-use tokens fits its column
    requires single { x.now.single_life < 2 ^ 63 }
    // the life of multi-use tokens fits its column
    requires multi { x.now.multi_life < 2 ^ 63 }
    ensures { Inside S.Store tx.old tx.new (Makes newest result
        (λ _. Unit {0}) (λ h. record h { merchants = put_at bytes_cmp h.merchants m.now (Some x.now) })) }
{
    let moment = x.moment.seconds();
    let lead = x.lead.digits();
    keyed::put::<S, Merchants>(
        tx,
        params![
            m,
            x.single_life as i64,
            x.multi_life as i64,
            moment as i64,
            lead as i64
        ],
    )
}

/// Whether these are the same, with all that a merchant's own row has.
fn are_same(x: &Lives, y: &Lives) -> bool
    ensures { IsTrue result ↔ (x.now ≡ y.now) }
{
    x == y
}

/// Whether a merchant's own row has these lives, and all else as here, inside a transaction.
fn has_lives<S: Alter>(tx: &mut Transaction<'_, S>, m: &str, x: &Lives) -> Result<bool, StoreFault>
    ensures { Inside S.Store tx.old tx.new (TellsInside newest result
        (λ t has. IsTrue has ↔ (t.merchants m.now ≡ Some x.now))) }
{
    match find_in(tx, m)? {
        Some(found) => Ok(are_same(&found, x)),
        None => Ok(false),
    }
}

/// Writes the own row of a merchant where it has another or isn't there: a look costs less than a write, and
/// within a second a merchant's moment stays.
pub fn set_lives<S: Alter>(
    tx: &mut Transaction<'_, S>,
    m: &str,
    x: &Lives,
) -> Result<(), StoreFault>
    requires single { x.now.single_life < 2 ^ 63 }
    requires multi { x.now.multi_life < 2 ^ 63 }
    ensures { Inside S.Store tx.old tx.new (Makes newest result
        (λ _. Unit {0}) (λ h. record h { merchants = put_at bytes_cmp h.merchants m.now (Some x.now) })) }
{
    if has_lives(tx, m, x)? {
        return Ok(());
    }
    Ok(put(tx, m, x)?)
}
