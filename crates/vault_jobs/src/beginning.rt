//! What the lists of a service ask for before it listens.
ghost use Rattle.std.specs.Prelude.{◌≡◌, All, IfSome, Ok, false};
ghost use Rattle.vault_store.specs.Applied.{is_broken};
ghost use Rattle.vault_engine.specs.Passing.{passage};
ghost use Rattle.vault_changes.specs.Failing.{BreaksByStore};
ghost use Rattle.vault_changes.specs.Settings.{HasLives};
ghost use Rattle.vault_live.specs.Kinds.{merchants_changes, rights_changes};
ghost use Rattle.vault_jobs.specs.Beginning.{CarriesOut};
ghost use Rattle.vault_jobs.specs.Lists.{begin_of, first_of, follows};
ghost use Rattle.vault_store.specs.LookUps.{WasHonest};

use crate::lists::{ListFile, Lists};
use std::alloc::Global;
use vault_changes::changes::ListedRight;
use vault_changes::settings::set_merchants;
use vault_changes::settle::settle;
use vault_merchants::read::ListedMerchant;
use vault_store::tables::Tables;
use vault_store::vault::{Fault, Vault};

/// Sets the merchants of a list, where there is one, to the first that is refused.
///
/// 20 Memory: memory was refused. 21 Store: the store failed.
fn set_first<T: Tables>(
    alloc: Global,
    vault: &mut Vault<T>,
    listed: &Option<ListFile<ListedMerchant>>,
) -> Result<Result<(), u8>, Fault>
    // the lives of the list are lives
    requires lives { IfSome listed.now (λ it. All HasLives it.rows.items) }
    requires unbroken { is_broken vault.old ≡ false }
    // on an honest disk, what it asks for is carried out up to the first that isn't done
    ensures carried { CarriesOut (first_of merchants_changes listed.now)
        (passage T.Tables vault.old vault.new) result }
    // where there is none, nothing is to be done
    ensures none { listed.now ≡ None → result ≡ Ok (Ok tt) }
    ensures broken { BreaksByStore vault.new result }
    ensures disk_honest { WasHonest T.Tables vault.old vault.new }
{
    let Some(it) = listed else {
        return Ok(Ok(()));
    };
    match set_merchants(alloc, vault, it.rows.as_slice(), it.now) {
        Ok((verdict, _)) => Ok(verdict),
        Err(fault) => Err(fault),
    }
}

/// Makes the rights exactly those of a list, where there is one, to the first change that is refused.
///
/// 20 Memory: memory was refused. 21 Store: the store failed.
fn settle_first<T: Tables>(
    alloc: Global,
    vault: &mut Vault<T>,
    listed: &Option<ListFile<ListedRight>>,
) -> Result<Result<(), u8>, Fault>
    requires unbroken { is_broken vault.old ≡ false }
    // on an honest disk, what it asks for is carried out up to the first that isn't done
    ensures carried { CarriesOut (first_of rights_changes listed.now) (passage T.Tables vault.old vault.new)
        result }
    // where there is none, nothing is to be done
    ensures none { listed.now ≡ None → result ≡ Ok (Ok tt) }
    ensures broken { BreaksByStore vault.new result }
    ensures disk_honest { WasHonest T.Tables vault.old vault.new }
{
    let Some(it) = listed else {
        return Ok(Ok(()));
    };
    match settle(alloc, vault, it.rows.as_slice(), it.now) {
        Ok((verdict, _)) => Ok(verdict),
        Err(fault) => Err(fault),
    }
}

/// Carries out what the lists of a service ask for before it listens, to the first that is refused: first of
/// the merchants, then of the rights.
///
/// 20 Memory: memory was refused. 21 Store: the store failed.
pub(crate) fn begin<T: Tables>(
    alloc: Global,
    vault: &mut Vault<T>,
    lists: &Lists,
) -> Result<Result<(), u8>, Fault>
    // the lives of the merchants are lives
    requires lives { IfSome lists.now.merchants (λ it. All HasLives it.rows.items) }
    requires unbroken { is_broken vault.old ≡ false }
    // on an honest disk, what they ask for is carried out up to the first that isn't done
    ensures carried { CarriesOut (begin_of lists.now) (passage T.Tables vault.old vault.new) result }
    // where there are none, nothing is to be done
    ensures none { follows lists.now ≡ false → result ≡ Ok (Ok tt) }
    ensures broken { BreaksByStore vault.new result }
    ensures disk_honest { WasHonest T.Tables vault.old vault.new }
{
    match set_first(alloc, vault, &lists.merchants) {
        Ok(Ok(())) => settle_first(alloc, vault, &lists.rights),
        Ok(Err(number)) => Ok(Err(number)),
        Err(fault) => Err(fault),
    }
}
