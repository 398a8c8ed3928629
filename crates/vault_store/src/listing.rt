//! All merchants of tables, listed with their rows.
ghost use Rattle.std.specs.Prelude.{◌≡◌, false, Err, IfOk};
ghost use Rattle.vault_core.specs.Sound.{Sound};
ghost use Rattle.vault_core.specs.Vault.{Vault};
ghost use Rattle.vault_store.specs.Listed.{merchant_rows};
ghost use Rattle.vault_store.specs.Reads.{FailsWith, Keeps};

use crate::tables::{Tables, TablesFault};
use vault_core::name::MerchantId;
use vault_core::row::MerchantRow;

/// A merchant with its row.
pub type NamedRow = (MerchantId, MerchantRow);

/// Each merchant with its row, in order of the names. A name without a row, which tables that hold a vault
/// never have, is left out.
pub fn named_rows<T: Tables>(tables: &mut T) -> Result<Vec<NamedRow>, TablesFault>
    // a disk that is honest after the call was so before it
    ensures disk_honest { T.is_honest tables.new → T.is_honest tables.old }
    // where the disk is honest, Ok gives the merchants of each sound vault that was held, with their rows
    ensures told { T.is_honest tables.new
        → IfOk result (λ rows. (V : Vault) → T.holds tables.old V → Sound V → rows.items ≡ merchant_rows V) }
    ensures kept { Keeps result (T.holds tables.old) (T.holds tables.new) }
    // where the disk is honest, a crash leaves each vault that was held as it was, and nothing else
    ensures crash { T.is_honest tables.new → (V : Vault) → T.holds tables.old V → T.leaves tables.new V V }
    ensures failing { FailsWith result (T.has_failed tables.old) (T.has_failed tables.new) }
    ensures infallible { T.may_fail ≡ false → ¬ (result ≡ Err TablesFault.Store) }
{
    let names = tables.names()?;
    let mut rows = Vec::new(*names.allocator());
    for name in &names {
        if let Some(row) = tables.merchant(*name)? {
            if rows.push((*name, row)).is_err() {
                return Err(TablesFault::Memory);
            }
        }
    }
    Ok(rows)
}
