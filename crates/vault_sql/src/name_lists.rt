//! Lists of merchants' names.
ghost use Rattle.std.specs.Prelude.{◌≡◌, IfOk, option_map};
ghost use Rattle.vault_core.specs.Keys.{bytes_cmp};
ghost use Rattle.vault_core.specs.Vault.{Vault, merchant_at};
ghost use Rattle.vault_sql.specs.ListedRows.{ShowsAll};
ghost use Rattle.vault_core.specs.Lives.{lives_in};
ghost use Rattle.vault_schema.specs.Merchants.{merchant_row};
ghost use Rattle.vault_sql.specs.Gathered.{Gathers, ShowsName};
ghost use Rattle.vault_store.specs.Listed.{merchant_names};

use sqlite::Row;
use std::alloc::Global;
use std::collections::BTreeMap;
use vault_core::name::MerchantId;
use vault_store::merchant_names::names_of;
use vault_store::tables::TablesFault;
use vault_tables::columns::merchant_in;

/// The names that rows show, in an ordered map.
fn gathered_names(alloc: Global, rows: &[Row]) -> Result<BTreeMap<MerchantId, ()>, TablesFault>
    ensures { IfOk result (Gathers bytes_cmp ShowsName rows.now) }
{
    let mut found = BTreeMap::new(alloc);
    for row in rows {
        let Ok(name) = merchant_in(row, 1) else {
            return Err(TablesFault::Store);
        };
        if found.insert(name, ()).is_err() {
            return Err(TablesFault::Memory);
        }
    }
    Ok(found)
}

/// The names that all rows of merchants show, in order.
pub(crate) fn names_in(alloc: Global, rows: &[Row]) -> Result<Vec<MerchantId>, TablesFault>
    ensures { IfOk result (λ names. (V : Vault)
        → ShowsAll merchant_row rows.now (λ m. option_map lives_in (merchant_at V m))
        → names.items ≡ merchant_names V) }
{
    let found = gathered_names(alloc, rows)?;
    Ok(names_of(alloc, &found)?)
}
