//! The rows of merchants and their counts, as a vault has them.
ghost use Rattle.std.specs.FinMap as map;
ghost use Rattle.std.specs.Prelude.{◌≡◌, ◌<◌, [], ◌∷◌, None, Some, IfOk, option_map, if◌then◌else◌};
ghost use Rattle.vault_core.specs.Numbers.{count_number};
ghost use Rattle.vault_core.specs.Sound.{Sound};
ghost use Rattle.vault_core.specs.Vault.{merchant_at};
ghost use Rattle.vault_core.specs.Window.{moment_at, row_at};
ghost use Rattle.vault_sql.specs.Calls.{Tells};
ghost use Rattle.vault_schema.specs.Values.{number_column};
ghost use Rattle.vault_sql.specs.ListedRows.{ShowsAll};
ghost use Rattle.vault_schema.specs.Merchants.{merchant_row};
ghost use Rattle.vault_sql.specs.Counts.{IsTotalOf, ShowsCounts};
ghost use Rattle.vault_core.specs.Lives.{lives_in};
ghost use Rattle.sql_tables.specs.Transactions.{Between};

use sql_tables::fault::StoreFault;
use sql_tables::run::rows_of;
use sqlite::{Alter, Connection, Error, Row, params};
use vault_core::changes::Count;
use vault_core::moment::Moment;
use vault_core::name::MerchantId;
use vault_core::row::{Lives, MerchantRow};
use vault_tables::columns::merchant_text;
use vault_tables::counts::{FIND_COUNTS, made_rowid};
use vault_tables::merchants::{self as table, COUNT_MERCHANTS, READ_MERCHANTS};

/// The lives of a merchant.
fn lives_at<S: Alter>(conn: &mut Connection<S>, m: &MerchantId) -> Result<Option<Lives>, StoreFault>
    ensures { Between S.Store conn.old conn.new (Tells result
        (λ V found. found ≡ option_map lives_in (merchant_at V m.now))) }
{
    table::find(conn, merchant_text(m))
}

/// The later one of a merchant's moment and `now`, which is `now` where there is no merchant.
pub fn moment<S: Alter>(
    conn: &mut Connection<S>,
    m: &MerchantId,
    now: Moment,
) -> Result<Moment, StoreFault>
    ensures { Between S.Store conn.old conn.new (Tells result (λ V found. found ≡ moment_at V m.now now)) }
{
    match lives_at(conn, m)? {
        Some(lives) => Ok(lives.moment.later(now)),
        None => Ok(now),
    }
}

/// The rows of a merchant's counts.
fn count_rows<S: Alter>(conn: &mut Connection<S>, m: &str) -> Result<Vec<Row>, Error>
    ensures { Between S.Store conn.old conn.new (Tells result (λ V rows. ShowsCounts rows.items V m.now)) }
{
    rows_of(conn, FIND_COUNTS, params![m])
}

/// The total that rows of counts show of this kind.
fn total_of(rows: &[Row], kind: Count) -> Result<u64, StoreFault>
    ensures { IfOk result (IsTotalOf (count_number kind) rows.now) }
{
    let number = kind.number() as u64;
    for row in rows {
        let found: u64 = row.get(0)?;
        if found == number {
            return Ok(row.get(1)?);
        }
    }
    Ok(0)
}

/// The row of a merchant.
pub fn merchant<S: Alter>(
    conn: &mut Connection<S>,
    m: &MerchantId,
) -> Result<Option<MerchantRow>, StoreFault>
    ensures { Between S.Store conn.old conn.new (Tells result (λ V found. found ≡ row_at V m.now)) }
{
    let Some(lives) = lives_at(conn, m)? else {
        return Ok(None);
    };
    let counts = count_rows(conn, merchant_text(m))?;
    let made = total_of(&counts, Count::Made)?;
    let given = total_of(&counts, Count::Given)?;
    let denied = total_of(&counts, Count::Denied)?;
    Ok(Some(lives.row(made, given, denied)))
}

/// The row of a merchant, with the rowid of its count of tokens made, where that has a row.
pub fn merchant_and_rowid<S: Alter>(
    conn: &mut Connection<S>,
    m: &MerchantId,
) -> Result<(Option<MerchantRow>, Option<i64>), StoreFault>
    ensures { Between S.Store conn.old conn.new (Tells result (λ V found. found.0 ≡ row_at V m.now)) }
{
    let found = merchant(conn, m)?;
    if found.is_none() {
        return Ok((found, None));
    }
    let rowid = made_rowid(conn, m)?;
    Ok((found, rowid))
}

/// The row of the number of merchants.
fn how_many_rows<S: Alter>(conn: &mut Connection<S>) -> Result<Vec<Row>, Error>
    ensures { Between S.Store conn.old conn.new (Tells result
        (λ V rows. Sound V → rows.items ≡ number_column (map.len V.merchants) ∷ [])) }
{
    rows_of(conn, COUNT_MERCHANTS, &[])
}

/// How many merchants there are.
pub fn how_many<S: Alter>(conn: &mut Connection<S>) -> Result<u64, StoreFault>
    ensures { Between S.Store conn.old conn.new (Tells result
        (λ V found. Sound V → found ≡ map.len V.merchants)) }
{
    let rows = how_many_rows(conn)?;
    match rows.first() {
        Some(row) => Ok(row.get(0)?),
        None => Err(StoreFault::Store),
    }
}

/// The rows of all merchants, without their counts.
pub fn all_merchants<S: Alter>(conn: &mut Connection<S>) -> Result<Vec<Row>, Error>
    ensures { Between S.Store conn.old conn.new (Tells result
        (λ V rows. ShowsAll merchant_row rows.items (λ m. option_map lives_in (merchant_at V m)))) }
{
    rows_of(conn, READ_MERCHANTS, &[])
}
