//! The changes of a list, carried out a hundred at a time.
ghost use Rattle.std.specs.Prelude.{◌≡◌, Err, List, false, true, ℕ};
ghost use Rattle.vault_store.specs.Applied.{is_broken};
ghost use Rattle.vault_engine.specs.Passing.{passage};
ghost use Rattle.vault_listen.specs.declared.fault.ListenFault.TheVariants.{Store};
ghost use Rattle.vault_live.specs.Carrying.{AsksRows, EndsSettled, news_in};
ghost use Rattle.vault_live.specs.Turns.{Attends};
ghost use Rattle.vault_store.specs.LookUps.{WasHonest};

use crate::first_commands::carry_first;
use crate::kind::Kind;
use crate::news::News;
use crate::said::outcome;
use std::alloc::Global;
use vault_changes::settle::AsTheyStand;
use vault_core::moment::Moment;
use vault_listen::fault::ListenFault;
use vault_store::tables::Tables;
use vault_store::vault::{Fault, Vault};

/// Carries out the first of the changes that rows ask for; none where the vault refuses them as a whole,
/// which is said. Answers what is said, and whether some are left.
///
/// 63 Store: the store failed.
pub(crate) fn carry_list<L: Kind, T: Tables>(
    alloc: Global,
    vault: &mut Vault<T>,
    rows: &[L::Row],
    now: Moment,
) -> Result<(News, bool), ListenFault>
    // a text names the rows
    requires named { (text : List ℕ) × L.names text rows.now }
    requires unbroken { is_broken vault.old ≡ false }
    // the first of the changes are carried out, this is said of them, and the vault that they leave is kept;
    // with Store a crash decides on one more
    ensures attends { Attends (AsksRows L.wants now rows.now) (passage T.Tables vault.old vault.new)
        (news_in result) }
    // where none are left, all of them are done; or none is, and the list is said to be refused
    ensures settled { EndsSettled L.about L.wants now rows.now (passage T.Tables vault.old vault.new) result }
    // the vault is broken after Store only
    ensures broken { is_broken vault.new ≡ true → result ≡ Err Store }
    ensures disk_honest { WasHonest T.Tables vault.old vault.new }
{
    let changes = match L::changes(alloc, vault, rows, now) {
        Ok(Ok(changes)) => changes,
        Ok(Err(number)) => return Ok((News::Refused(L::subject(), number, now), false)),
        Err(Fault::Memory) => return Ok((News::Nothing, true)),
        Err(Fault::Store) => return Err(ListenFault::Store),
        Err(Fault::Reopen) => return Err(ListenFault::Store),
    };
    let commands = changes.as_slice();
    let carried = carry_first(vault, &AsTheyStand, commands);
    outcome::<L>(commands, carried, now)
}
