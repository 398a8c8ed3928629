//! What makes the merchants of a list those of a vault. No merchant is ever removed.
ghost use Rattle.std.specs.Prelude.{◌≡◌, ◌++◌, All, Err, IfErr, IfOk, Ok, OnOk, false};
ghost use Rattle.vault_core.specs.Vault.{Vault as Content};
ghost use Rattle.vault_store.specs.Applied.{is_broken};
ghost use Rattle.vault_store.specs.Listed.{merchant_rows};
ghost use Rattle.vault_engine.specs.Passing.{IsBefore, Keeps, Passage, passage};
ghost use Rattle.vault_changes.specs.Carried.{IsCarriedOut};
ghost use Rattle.vault_changes.specs.Failing.{BreaksByStore};
ghost use Rattle.vault_changes.specs.Grants.{CarriesAll};
ghost use Rattle.vault_changes.specs.Settings.{HasLives, Sets, setting_at, settings_at};
ghost use Rattle.vault_changes.specs.Settling.{FailsToRead};
ghost use Rattle.vault_store.specs.LookUps.{WasHonest};

use crate::carry::carry_all;
use crate::merchant_keys::{merchant_keys, stands};
use crate::settle::AsTheyStand;
use std::alloc::{AllocError, Global};
use vault_core::command::Command;
use vault_core::moment::Moment;
use vault_core::row::Lives;
use vault_merchants::read::ListedMerchant;
use vault_store::listing::NamedRow;
use vault_store::tables::Tables;
use vault_store::vault::{Fault, Vault};

/// The command that sets a merchant of a list at a moment.
fn setting(row: &ListedMerchant, now: Moment) -> Command
    ensures { result ≡ setting_at now row.now }
{
    Command::setting(row.0, Lives::new(row.1, row.2, row.3, now))
}

/// Adds the commands that set, at a moment, the merchants of the rows that aren't held so.
fn push_settings(
    alloc: Global,
    commands: &mut Vec<Command>,
    rows: &[ListedMerchant],
    held: &[NamedRow],
    now: Moment,
) -> Result<(), AllocError>
    ensures { OnOk result (commands.new.items ≡ commands.old.items ++ settings_at now rows.now held.now) }
{
    let keys = merchant_keys(alloc, held)?;
    for row in rows {
        if !stands(&keys, row) {
            commands.push(setting(row, now))?;
        }
    }
    Ok(())
}

/// The commands that set, at a moment, the merchants of the rows that aren't held so.
fn settings_of(
    alloc: Global,
    rows: &[ListedMerchant],
    held: &[NamedRow],
    now: Moment,
) -> Result<Vec<Command>, AllocError>
    ensures { IfOk result (λ commands. commands.items ≡ settings_at now rows.now held.now) }
{
    let mut commands = Vec::new(alloc);
    push_settings(alloc, &mut commands, rows, held, now)?;
    Ok(commands)
}

/// What has to be set so that the merchants of a list are the vault's. Nothing changes by the call.
///
/// 20 Memory: memory was refused. 21 Store: the store failed.
pub fn settings_to<T: Tables>(
    alloc: Global,
    vault: &mut Vault<T>,
    rows: &[ListedMerchant],
    now: Moment,
) -> Result<Vec<Command>, Fault>
    requires unbroken { is_broken vault.old ≡ false }
    // with Ok, on an honest disk, these set what each vault that was held lacks, and that one is kept
    ensures found { let w : Passage = passage T.Tables vault.old vault.new in
        IfOk result (λ it. (V : Content) → IsBefore w V
        → (it.items ≡ settings_at now rows.now (merchant_rows V)) × Keeps w V) }
    // with Ok, where the lives of the list are lives, every vault replies to each command by done or a
    // refusal, and lives that it sets are in range
    ensures carried { All HasLives rows.now → IfOk result (λ it. All IsCarriedOut it.items) }
    ensures failed { IfErr result (FailsToRead (passage T.Tables vault.old vault.new)) }
    ensures broken { BreaksByStore vault.new result }
    ensures disk_honest { WasHonest T.Tables vault.old vault.new }
{
    let held = vault.merchants()?;
    match settings_of(alloc, rows, held.as_slice(), now) {
        Ok(commands) => Ok(commands),
        Err(_) => Err(Fault::Memory),
    }
}

/// Sets the merchants of a list: those that a vault hasn't, and those that it has with other lives or another
/// lead, in the list's order. It ends with the first that is refused: by 18 where there are as many merchants
/// as there may be. The commands are handed out.
///
/// 20 Memory: memory was refused. 21 Store: the store failed.
pub fn set_merchants<T: Tables>(
    alloc: Global,
    vault: &mut Vault<T>,
    rows: &[ListedMerchant],
    now: Moment,
) -> Result<(Result<(), u8>, Vec<Command>), Fault>
    // the lives of the list are lives
    requires lives { All HasLives rows.now }
    requires unbroken { is_broken vault.old ≡ false }
    // with Ok, on an honest disk, these set what each vault that was held lacks
    ensures changes { IfOk result (λ it. (V : Content) → IsBefore (passage T.Tables vault.old vault.new) V
        → it.1.items ≡ settings_at now rows.now (merchant_rows V)) }
    // with Ok, on an honest disk, all are done up to one that is refused, and the vault that they leave is
    // kept
    ensures carried { IfOk result (λ it. CarriesAll it.1.items (passage T.Tables vault.old vault.new)
        (Ok it.0)) }
    // on an honest disk, what was done is kept, and after Store a crash decides on the next; or the merchants
    // weren't read
    ensures failed { IfErr result (Sets now rows.now (passage T.Tables vault.old vault.new)) }
    ensures broken { BreaksByStore vault.new result }
    ensures disk_honest { WasHonest T.Tables vault.old vault.new }
{
    let commands = settings_to(alloc, vault, rows, now)?;
    match carry_all(vault, &AsTheyStand, commands.as_slice()) {
        Ok(verdict) => Ok((verdict, commands)),
        Err(fault) => Err(fault),
    }
}
