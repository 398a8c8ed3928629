//! Which merchants of a list a vault knows.
ghost use Rattle.std.specs.Prelude.{◌≡◌, IfErr, IfOk, false};
ghost use Rattle.vault_core.specs.Vault.{Vault as Content};
ghost use Rattle.vault_store.specs.Applied.{is_broken};
ghost use Rattle.vault_store.specs.Listed.{merchant_rows};
ghost use Rattle.vault_engine.specs.Passing.{IsBefore, Keeps, Passage, passage};
ghost use Rattle.vault_changes.specs.Failing.{BreaksByStore};
ghost use Rattle.vault_changes.specs.Settling.{FailsToRead};
ghost use Rattle.vault_live.specs.Known.{has_merchant as has_merchant_in};
ghost use Rattle.vault_live.specs.Known.{lacks_merchant as lacks_merchant_in};
ghost use Rattle.vault_live.specs.Known.{are_too_many as are_too_many_in, new_merchants};
ghost use Rattle.vault_store.specs.LookUps.{WasHonest};

use vault_changes::changes::ListedRight;
use vault_core::limit::MOST_MERCHANTS;
use vault_core::name::MerchantId;
use vault_merchants::read::ListedMerchant;
use vault_store::listing::NamedRow;
use vault_store::tables::Tables;
use vault_store::vault::{Fault, Vault};

/// Whether a merchant has this name.
fn has_merchant(held: &[NamedRow], name: &MerchantId) -> bool
    ensures { result ≡ has_merchant_in held.now name.now }
{
    for it in held {
        if it.0.cmp(name).is_eq() {
            return true;
        }
    }
    false
}

/// Whether a row has the name of none.
fn lacks_merchant(held: &[NamedRow], rows: &[ListedRight]) -> bool
    ensures { result ≡ lacks_merchant_in held.now rows.now }
{
    for row in rows {
        if !has_merchant(held, &row.1) {
            return true;
        }
    }
    false
}

/// Whether a vault lacks the merchant of a row. Nothing changes by the call.
///
/// 20 Memory: memory was refused. 21 Store: the store failed.
pub(crate) fn lacks_one<T: Tables>(
    vault: &mut Vault<T>,
    rows: &[ListedRight],
) -> Result<bool, Fault>
    requires unbroken { is_broken vault.old ≡ false }
    // with Ok, on an honest disk, it is so of each vault that was held, and that one is kept
    ensures told { let w : Passage = passage T.Tables vault.old vault.new in
        IfOk result (λ lacks. (V : Content) → IsBefore w V
        → (lacks ≡ lacks_merchant_in (merchant_rows V) rows.now) × Keeps w V) }
    ensures failed { IfErr result (FailsToRead (passage T.Tables vault.old vault.new)) }
    ensures broken { BreaksByStore vault.new result }
    ensures disk_honest { WasHonest T.Tables vault.old vault.new }
{
    let held = vault.merchants()?;
    Ok(lacks_merchant(held.as_slice(), rows))
}

/// How many rows have the name of no merchant.
fn count_new(held: &[NamedRow], rows: &[ListedMerchant]) -> usize
    ensures { result ≡ new_merchants held.now rows.now }
{
    rows.iter()
        .filter(|row| !has_merchant(held, &row.0))
        .count()
}

/// Whether merchants and rows would be more merchants than there may be. The names are compared only if that
/// may be so.
fn are_more(held: &[NamedRow], rows: &[ListedMerchant]) -> bool
    ensures { result ≡ are_too_many_in held.now rows.now }
{
    let most = MOST_MERCHANTS as usize;
    if held.len() + rows.len() <= most {
        return false;
    }
    held.len() + count_new(held, rows) > most
}

/// Whether a vault would have more merchants than there may be, if those of the rows were set. Nothing changes
/// by the call.
///
/// 20 Memory: memory was refused. 21 Store: the store failed.
pub(crate) fn are_too_many<T: Tables>(
    vault: &mut Vault<T>,
    rows: &[ListedMerchant],
) -> Result<bool, Fault>
    requires unbroken { is_broken vault.old ≡ false }
    // with Ok, on an honest disk, it is so of each vault that was held, and that one is kept
    ensures told { let w : Passage = passage T.Tables vault.old vault.new in
        IfOk result (λ many. (V : Content) → IsBefore w V
        → (many ≡ are_too_many_in (merchant_rows V) rows.now) × Keeps w V) }
    ensures failed { IfErr result (FailsToRead (passage T.Tables vault.old vault.new)) }
    ensures broken { BreaksByStore vault.new result }
    ensures disk_honest { WasHonest T.Tables vault.old vault.new }
{
    let held = vault.merchants()?;
    Ok(are_more(held.as_slice(), rows))
}
