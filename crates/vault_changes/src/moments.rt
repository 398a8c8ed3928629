//! The moments of a vault's merchants, and how they stand to the clock's.
ghost use Rattle.std.specs.Prelude.{◌≡◌, Err, IfErr, IfOk, Option, false, option_map};
ghost use Rattle.vault_core.specs.Vault.{Vault as Content};
ghost use Rattle.vault_store.specs.Applied.{is_broken};
ghost use Rattle.vault_engine.specs.Passing.{IsBefore, Keeps, Passage, passage};
ghost use Rattle.vault_changes.specs.Failing.{BreaksByStore};
ghost use Rattle.vault_changes.specs.Moments.{is_far_ahead as is_far_ahead_of};
ghost use Rattle.vault_changes.specs.Moments.{is_far_behind as is_far_behind_of};
ghost use Rattle.vault_changes.specs.Moments.{moment_in};
ghost use Rattle.vault_changes.specs.Settling.{FailsToRead};
ghost use Rattle.vault_store.specs.LookUps.{WasHonest};

use vault_core::moment::Moment;
use vault_core::name::MerchantId;
use vault_core::row::MerchantRow;
use vault_store::tables::Tables;
use vault_store::vault::{Fault, Vault};

/// The most seconds by which a merchant's moment may be ahead of the clock's: those of a day.
const MOST_AHEAD: u64 = 86_400;

/// The most seconds by which it may be behind: those of 31 days.
const MOST_BEHIND: u64 = 2_678_400;

/// Whether a merchant's moment is more than a day ahead of this one.
pub fn is_far_ahead(moment: Moment, now: Moment) -> bool
    ensures { result ≡ is_far_ahead_of now moment }
{
    moment.seconds() > now.seconds() + MOST_AHEAD
}

/// Whether it is more than 31 days behind this one.
pub fn is_far_behind(moment: Moment, now: Moment) -> bool
    ensures { result ≡ is_far_behind_of now moment }
{
    now.seconds() > moment.seconds() + MOST_BEHIND
}

/// The moment in a merchant's row, where there is one.
fn moment_in_row(row: Option<MerchantRow>) -> Option<Moment>
    ensures { result ≡ option_map (λ found. found.moment) row }
{
    row.map(|row| row.moment)
}

/// The moment of a merchant, where the vault knows it. Nothing changes.
///
/// 20 Memory: memory was refused. 21 Store: the store failed.
pub fn moment_of<T: Tables>(
    vault: &mut Vault<T>,
    merchant: MerchantId,
) -> Result<Option<Moment>, Fault>
    requires unbroken { is_broken vault.old ≡ false }
    // on an honest disk, Ok says it of each vault that was held, and that one is held still, after a crash
    // too
    ensures told { let w : Passage = passage T.Tables vault.old vault.new in
        IfOk result (λ moment. (V : Content) → IsBefore w V
        → (moment ≡ moment_in V merchant) × Keeps w V) }
    ensures failed { IfErr result (FailsToRead (passage T.Tables vault.old vault.new)) }
    ensures broken { BreaksByStore vault.new result }
    ensures disk_honest { WasHonest T.Tables vault.old vault.new }
{
    match vault.merchant(merchant) {
        Ok(row) => Ok(moment_in_row(row)),
        Err(fault) => Err(fault),
    }
}
