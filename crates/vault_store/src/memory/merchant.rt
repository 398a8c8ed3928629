//! The rows of merchants.
ghost use Rattle.std.specs.Prelude.{◌≡◌, OnOk, OnErr, IsOk};
ghost use Rattle.vault_core.specs.Changes.{Fit, plus};
ghost use Rattle.vault_core.specs.Sound.{Sound};
ghost use Rattle.vault_core.specs.Vault.{Vault};
ghost use Rattle.vault_store.specs.Added.{AddsNothing};
ghost use Rattle.vault_store.specs.ShownMerchants.{HasRoom, ShowsMerchants, row_raised};
ghost use Rattle.vault_store.specs.ShownMerchants.{row_with as row_with_lem};

use std::alloc::AllocError;
use std::collections::BTreeMap;
use vault_core::changes::{Changes, Count};
use vault_core::name::MerchantId;
use vault_core::row::{Lives, MerchantRow};

/// Puts the row of the merchant whose lives change. Only a new merchant can be refused.
pub fn put_merchant(
    merchants: &mut BTreeMap<MerchantId, MerchantRow>,
    ch: &Changes,
) -> Result<(), AllocError>
    // with Ok, the rows that showed a sound vault that the changes fit show its merchants with them
    ensures done { OnOk result ((V : Vault) → ShowsMerchants merchants.old V → Sound V → Fit V ch.now
        → ShowsMerchants merchants.new (plus V ch.now)) }
    // where it is refused, the rows show each vault that they showed
    ensures kept { OnErr result
        ((V : Vault) → ShowsMerchants merchants.old V → ShowsMerchants merchants.new V) }
    // where the changes add nothing to the vault that is shown, it isn't refused
    ensures allowed { (V : Vault) → ShowsMerchants merchants.old V → AddsNothing V (plus V ch.now)
        → IsOk result }
{
    let Some((m, lives)) = ch.lives else {
        return Ok(());
    };
    let was = merchants.get(&m).copied();
    let row = raised(row_with(was, &lives), ch.count);
    merchants.insert(m, row)?;
    Ok(())
}

/// The row of a merchant with its new lives and lead, and its counts as they were.
fn row_with(was: Option<MerchantRow>, lives: &Lives) -> MerchantRow
    ensures { result ≡ row_with_lem lives.now was }
{
    match was {
        Some(row) => lives.row(row.made, row.given, row.denied),
        None => lives.row(0, 0, 0),
    }
}

/// The row with one more in the count that goes up.
fn raised(row: MerchantRow, count: Option<Count>) -> MerchantRow
    ensures { HasRoom row → result ≡ row_raised count row }
{
    match count {
        None => row,
        Some(Count::Made) => MerchantRow {
            made: row.made.saturating_add(1),
            ..row
        },
        Some(Count::Given) => MerchantRow {
            given: row.given.saturating_add(1),
            ..row
        },
        Some(Count::Denied) => MerchantRow {
            denied: row.denied.saturating_add(1),
            ..row
        },
    }
}
