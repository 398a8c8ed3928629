//! What is said of a vault: its merchants and rights, or what would change by a list of either.
ghost use Rattle.std.specs.Prelude.{◌≡◌, IfErr, IfOk, false};
ghost use Rattle.vault_store.specs.Applied.{is_broken};
ghost use Rattle.vault_engine.specs.Passing.{OfKept, passage};
ghost use Rattle.vault_changes.specs.Failing.{BreaksByStore};
ghost use Rattle.vault_changes.specs.Settling.{FailsToRead};
ghost use Rattle.vault_jobs.specs.ListingLines.{shown_text};
ghost use Rattle.vault_store.specs.LookUps.{WasHonest};

use crate::show::{Form, Shown, changes_text, list_text};
use std::alloc::Global;
use vault_changes::changes::ListedRight;
use vault_changes::settings::settings_to;
use vault_changes::settle::changes_to;
use vault_core::moment::Moment;
use vault_merchants::read::ListedMerchant;
use vault_store::tables::Tables;
use vault_store::vault::{Fault, Vault};

/// The merchants and the rights of a vault in lines. Nothing changes.
///
/// 20 Memory: memory was refused. 21 Store: the store failed.
fn listing_of<T: Tables>(alloc: Global, vault: &mut Vault<T>, form: Form) -> Result<Vec<u8>, Fault>
    requires unbroken { is_broken vault.old ≡ false }
    // with Ok, on an honest disk, this is the text of each vault that was held, and that one is kept
    ensures text { IfOk result (λ text. OfKept (passage T.Tables vault.old vault.new)
        (λ V. text.items ≡ shown_text (Shown.Listing form) V)) }
    ensures failed { IfErr result (FailsToRead (passage T.Tables vault.old vault.new)) }
    ensures broken { BreaksByStore vault.new result }
    ensures disk_honest { WasHonest T.Tables vault.old vault.new }
{
    let merchants = vault.merchants()?;
    let rights = vault.rights()?;
    match list_text(alloc, form, merchants.as_slice(), rights.as_slice()) {
        Ok(text) => Ok(text),
        Err(_) => Err(Fault::Memory),
    }
}

/// The lines of what would change by a list of rights. Nothing changes.
///
/// 20 Memory: memory was refused. 21 Store: the store failed.
fn difference_of<T: Tables>(
    alloc: Global,
    vault: &mut Vault<T>,
    exact: bool,
    rows: &Vec<ListedRight>,
    now: Moment,
) -> Result<Vec<u8>, Fault>
    requires unbroken { is_broken vault.old ≡ false }
    // with Ok, on an honest disk, this is the text of each vault that was held, and that one is kept
    ensures text { IfOk result (λ text. OfKept (passage T.Tables vault.old vault.new)
        (λ V. text.items ≡ shown_text (Shown.Changes exact rows.now now) V)) }
    ensures failed { IfErr result (FailsToRead (passage T.Tables vault.old vault.new)) }
    ensures broken { BreaksByStore vault.new result }
    ensures disk_honest { WasHonest T.Tables vault.old vault.new }
{
    let changes = changes_to(alloc, vault, exact, rows.as_slice(), now)?;
    match changes_text(alloc, changes.commands.as_slice()) {
        Ok(text) => Ok(text),
        Err(_) => Err(Fault::Memory),
    }
}

/// The lines of what would be set by a list of merchants. Nothing changes.
///
/// 20 Memory: memory was refused. 21 Store: the store failed.
fn lacking_of<T: Tables>(
    alloc: Global,
    vault: &mut Vault<T>,
    rows: &Vec<ListedMerchant>,
    now: Moment,
) -> Result<Vec<u8>, Fault>
    requires unbroken { is_broken vault.old ≡ false }
    // with Ok, on an honest disk, this is the text of each vault that was held, and that one is kept
    ensures text { IfOk result (λ text. OfKept (passage T.Tables vault.old vault.new)
        (λ V. text.items ≡ shown_text (Shown.Settings rows.now now) V)) }
    ensures failed { IfErr result (FailsToRead (passage T.Tables vault.old vault.new)) }
    ensures broken { BreaksByStore vault.new result }
    ensures disk_honest { WasHonest T.Tables vault.old vault.new }
{
    let commands = settings_to(alloc, vault, rows.as_slice(), now)?;
    match changes_text(alloc, commands.as_slice()) {
        Ok(text) => Ok(text),
        Err(_) => Err(Fault::Memory),
    }
}

/// What is said of a vault. Nothing changes.
///
/// 20 Memory: memory was refused. 21 Store: the store failed.
pub(crate) fn text_of<T: Tables>(
    alloc: Global,
    vault: &mut Vault<T>,
    shown: &Shown,
) -> Result<Vec<u8>, Fault>
    requires unbroken { is_broken vault.old ≡ false }
    // with Ok, on an honest disk, this is the text of each vault that was held, and that one is kept
    ensures text { IfOk result (λ text. OfKept (passage T.Tables vault.old vault.new)
        (λ V. text.items ≡ shown_text shown.now V)) }
    ensures failed { IfErr result (FailsToRead (passage T.Tables vault.old vault.new)) }
    ensures broken { BreaksByStore vault.new result }
    ensures disk_honest { WasHonest T.Tables vault.old vault.new }
{
    match shown {
        Shown::Listing(form) => listing_of(alloc, vault, *form),
        Shown::Changes(exact, rows, now) => difference_of(alloc, vault, *exact, rows, *now),
        Shown::Settings(rows, now) => lacking_of(alloc, vault, rows, *now),
    }
}
