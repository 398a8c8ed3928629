//! Lists of rights.
ghost use Rattle.std.specs.FinMap as map;
ghost use Rattle.std.specs.Prelude.{◌≡◌, IfOk};
ghost use Rattle.vault_core.specs.Keys.{right_cmp};
ghost use Rattle.vault_core.specs.Vault.{Vault, right_at};
ghost use Rattle.vault_sql.specs.ListedRows.{ShowsAll, ShowsRight};
ghost use Rattle.vault_schema.specs.Rights.{right_row};
ghost use Rattle.vault_sql.specs.Gathered.{Gathers};
ghost use Rattle.vault_sql.specs.Calls.{Tells};
ghost use Rattle.sql_tables.specs.Transactions.{Between};

use sql_tables::fault::StoreFault;
use sql_tables::run::rows_of;
use sqlite::{Alter, Connection, Error, Row};
use std::alloc::Global;
use std::collections::BTreeMap;
use vault_core::name::{Caller, MerchantId};
use vault_core::right::Right;
use vault_core::row::GrantRow;
use vault_store::right_rows;
use vault_store::tables::{RightRow, TablesFault};
use vault_tables::columns::{
    caller_in, caller_text, merchant_in, merchant_text, moment_or_null_in, right_in,
};
use vault_tables::rights::{self, READ_RIGHTS};

/// The right of a caller at a merchant.
pub fn right<S: Alter>(
    conn: &mut Connection<S>,
    caller: &Caller,
    m: &MerchantId,
    right: Right,
) -> Result<Option<GrantRow>, StoreFault>
    ensures { Between S.Store conn.old conn.new (Tells result
        (λ V found. found ≡ right_at V caller.now m.now right)) }
{
    rights::find(conn, caller_text(caller), merchant_text(m), right)
}

/// The rows of all rights.
pub fn all_rights<S: Alter>(conn: &mut Connection<S>) -> Result<Vec<Row>, Error>
    ensures { Between S.Store conn.old conn.new (Tells result
        (λ V rows. ShowsAll right_row rows.items (map.get V.rights))) }
{
    rows_of(conn, READ_RIGHTS, &[])
}

/// The right, with its end, that a row of all rights shows.
pub fn right_row_of(row: &Row) -> Result<((Caller, (MerchantId, Right)), GrantRow), StoreFault>
    ensures { IfOk result (λ found. ShowsRight row.now found.0 found.1) }
{
    let caller = caller_in(row, 1)?;
    let merchant = merchant_in(row, 2)?;
    let right = right_in(row, 3)?;
    let ends = moment_or_null_in(row, 4)?;
    Ok(((caller, (merchant, right)), GrantRow { ends }))
}

/// The rights that rows show, in an ordered map.
fn gathered_rights(
    alloc: Global,
    rows: &[Row],
) -> Result<BTreeMap<(Caller, (MerchantId, Right)), GrantRow>, TablesFault>
    ensures { IfOk result (Gathers right_cmp ShowsRight rows.now) }
{
    let mut found = BTreeMap::new(alloc);
    for row in rows {
        let Ok((key, grant)) = right_row_of(row) else {
            return Err(TablesFault::Store);
        };
        if found.insert(key, grant).is_err() {
            return Err(TablesFault::Memory);
        }
    }
    Ok(found)
}

/// The rights that all rows of their table show, by caller, merchant and the right's number.
pub(crate) fn rights_of(alloc: Global, rows: &[Row]) -> Result<Vec<RightRow>, TablesFault>
    ensures { IfOk result (λ found. (V : Vault) → ShowsAll right_row rows.now (map.get V.rights)
        → found.items ≡ map.entries V.rights) }
{
    let found = gathered_rights(alloc, rows)?;
    Ok(right_rows::rows_of(alloc, &found)?)
}
